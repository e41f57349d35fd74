//! Handles, and the objects that they name.

ghost use Rattle.std.specs.Prelude.{◌≡◌};
ghost use Rattle.nfs2_types.specs.Handle.{handle_bytes, oid_in};

/// The bytes by which a client names an object (RFC 1094, 2.3.3).
pub type Handle = [u8; 32];

/// A digest of SHA-256 (FIPS 180-4).
pub type Digest = [u8; 32];

/// An object of the service: an index of the array, and the generation of the entry there.
#[derive(Clone, Copy, Debug, PartialEq, Eq)]
pub struct Oid {
    pub index: u32,
    pub generation: u32,
}

/// The first bytes of each handle.
const MAGIC: [u8; 4] = *b"BASE";

/// The handle of an object. It takes no memory.
#[tactic(auto, unfolding(crate::specs::Handle::handle_bytes))]
pub fn handle_of(o: Oid) -> Handle
    ensures { result ≡ handle_bytes o }
{
    let mut handle = [0; 32];
    handle[..4].copy_from_slice(&MAGIC);
    handle[4..8].copy_from_slice(&o.index.to_be_bytes());
    handle[8..12].copy_from_slice(&o.generation.to_be_bytes());
    handle
}

/// The object whose handle this is, or `None` where the bytes are no handle of the service. It takes no memory.
#[tactic(auto, unfolding(crate::specs::Handle::oid_in))]
pub fn oid_of(h: &Handle) -> Option<Oid>
    ensures { result ≡ oid_in h.now }
{
    let o = Oid {
        index: u32::from_be_bytes([h[4], h[5], h[6], h[7]]),
        generation: u32::from_be_bytes([h[8], h[9], h[10], h[11]]),
    };
    if h.as_slice() == handle_of(o).as_slice() {
        Some(o)
    } else {
        None
    }
}
