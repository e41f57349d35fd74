//! What a link carries.

use nfs2_types::Blob;

/// An address on a network: four bytes of IPv4, then the port with its high byte first.
pub type Peer = [u8; 6];

/// The most bytes of a datagram.
pub const DATAGRAM_MAX: usize = 65_536;

/// A datagram, with the peer at its other end.
#[derive(Debug, Drop, PartialEq)]
pub struct Datagram {
    pub from: Peer,
    pub bytes: Blob,
}
