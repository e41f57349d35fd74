//! What a new object is.

/// A new object: a directory without names, a file of zeros with its size in bytes, or a link with its text.
#[derive(Clone, Copy, Debug)]
pub enum NewObject<'a> {
    Dir,
    File { size: u32 },
    Link { text: &'a [u8] },
}
