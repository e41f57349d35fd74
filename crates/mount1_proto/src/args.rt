//! The arguments of a call.

/// The arguments of a call by procedure (RFC 1094, A.5). Paths are slices of the call.
#[derive(Clone, Copy, Debug, PartialEq, Eq)]
pub enum MountArgs<'a> {
    Null,
    Mnt { path: &'a [u8] },
    Dump,
    Umnt { path: &'a [u8] },
    UmntAll,
    Export,
}
