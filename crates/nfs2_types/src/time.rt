//! Moments.

/// A moment, in seconds and microseconds; the microseconds are below 1,000,000 (RFC 1094, 2.3.4).
#[derive(Clone, Copy, Debug, PartialEq, Eq)]
pub struct Time {
    pub secs: u32,
    pub micros: u32,
}
