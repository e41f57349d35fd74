//! Requests in their order.

use nfs2_types::{Blob, Time};

/// A request: its time, and the bytes of its call.
#[derive(Debug, Drop)]
pub struct Request {
    pub time: Time,
    pub bytes: Blob,
}
