//! The numbers by which a service is bounded.

/// The limits of a service: `n` entries, a checkpoint each `k` requests, `t` bytes in use,
/// and `f` replicas that may fail.
#[derive(Clone, Copy, Debug, PartialEq, Eq)]
pub struct Limits {
    pub n: u32,
    pub k: u32,
    pub t: u32,
    pub f: u32,
}
