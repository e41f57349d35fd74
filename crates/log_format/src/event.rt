//! The records of a log.

use nfs2_types::{Blob, Digest, Time, Word};
pub use xdr_cut::ScanErr as EventErr;

/// A record of a log. `r` is the number of a replica.
#[derive(Debug, Drop, PartialEq)]
pub enum Event {
    /// A client's request: the bytes of a call, at a time.
    Request {
        client: u32,
        time: Time,
        bytes: Blob,
    },
    /// The replica runs the next request that it has not run.
    Run {
        r: u32,
    },
    /// Every replica runs all requests that it has not run.
    RunAll,
    /// The server of the replica starts anew.
    Reboot {
        r: u32,
    },
    /// The replica gets at most `n` items towards a checkpoint.
    Fetch {
        r: u32,
        n: u32,
    },
    /// A Run with this time and these bytes in place of the request's.
    Rogue {
        r: u32,
        time: Time,
        bytes: Blob,
    },
    /// The replica passes the next request, and neither runs it nor casts a word for it.
    Skip {
        r: u32,
    },
    /// These bytes are written into a file of the replica's server, behind its back.
    Scratch {
        r: u32,
        index: u32,
        offset: u32,
        bytes: Blob,
    },
    /// The replica casts this word for the request at the place.
    LieReply {
        r: u32,
        place: u32,
        word: Word,
    },
    /// The replica casts this root for the checkpoint at the place.
    LieRoot {
        r: u32,
        place: u32,
        root: Digest,
    },
    /// The replica hands out these bytes for an item.
    LieItem {
        r: u32,
        level: u32,
        number: u32,
        bytes: Blob,
    },
    /// The replica's server loses everything.
    Wipe {
        r: u32,
    },
    /// A spare server of the bench takes the place of the replica's.
    Swap {
        r: u32,
        spare: u32,
    },
    /// The last record.
    End,
}
