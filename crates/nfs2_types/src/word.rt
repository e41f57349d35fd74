//! What a replica casts for a request.

use crate::blob::Blob;

/// A replica's word on a request: no reply, or the bytes of one.
#[derive(Clone, Debug, Drop, PartialEq, Eq)]
pub enum Word {
    Silent,
    Reply(Blob),
}
