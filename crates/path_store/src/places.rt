//! Where the row of a handle stands.

ghost use Rattle.std.specs.Prelude.{◌≡◌};
ghost use Rattle.path_store.specs.Tables.{place_of};

use nfs2_types::Handle;

/// The place that a handle carries: its bytes from 16 to 24, the most significant first.
pub fn place_of(handle: &Handle) -> usize
    ensures { result ≡ place_of handle.now }
{
    let mut place = [0; 8];
    place.copy_from_slice(&handle[16..24]);
    u64::from_be_bytes(place) as usize
}
