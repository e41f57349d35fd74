//! A lie.

use nfs2_types::{Blob, Digest, Word};

/// What a replica is told to lie about: the word or the root that it casts for a place, or the text that it gives for
/// an item of the digest tree.
#[derive(Debug, Drop)]
pub enum Lie {
    OfWord { place: u32, word: Word },
    OfRoot { place: u32, root: Digest },
    /// Level 0 has the entries.
    OfItem { level: u32, number: u32, text: Blob },
}
