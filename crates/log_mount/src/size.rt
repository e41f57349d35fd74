//! How many bytes a node has.

ghost use Rattle.std.specs.Prelude.{◌≡◌, length, IfOk};
ghost use Rattle.log_tree.specs.Held.{bytes_of};
ghost use Rattle.log_store.specs.Store.{IsStore, Reads, live_in};
ghost use Rattle.log_files.specs.Chunked.{IsChunked};
ghost use Rattle.log_mount.specs.Told.{size_in};

use log_records::NodeId;
use log_store::LogStore;
use nfs2_types::Kind;
use outside::{Medium, MediumErr};

/// The most chunks of a file.
const CHUNKS_MAX: u32 = 17477;

/// The bytes of a file or of a link's text: those of its chunks.
fn count_bytes<M: Medium>(store: &mut LogStore<M>, id: &NodeId) -> Result<u32, MediumErr>
    requires store { IsStore M.content M.size store.old }
    requires chunked { let live = live_in M.content M.size store.old in
        IsChunked live id.now (length (bytes_of live id.now)) }
    ensures size { IfOk result (λ size. size ≡ length (bytes_of (live_in M.content M.size store.old) id.now)) }
    ensures reads { Reads M.content M.size M.faults store.old store.new result }
{
    let mut size = 0;
    for place in 0..CHUNKS_MAX {
        let Some(bytes) = store.chunk(id, place)? else {
            return Ok(size);
        };
        size += bytes.len() as u32;
    }
    Ok(size)
}

/// The bytes of a node of this kind.
pub(crate) fn size_of<M: Medium>(
    store: &mut LogStore<M>,
    id: &NodeId,
    kind: Kind,
) -> Result<u32, MediumErr>
    requires store { IsStore M.content M.size store.old }
    requires chunked { let live = live_in M.content M.size store.old in
        IsChunked live id.now (length (bytes_of live id.now)) }
    ensures size { IfOk result (λ size. size ≡ size_in (live_in M.content M.size store.old) id.now kind) }
    ensures reads { Reads M.content M.size M.faults store.old store.new result }
{
    match kind {
        Kind::Dir => Ok(0),
        Kind::File | Kind::Link => count_bytes(store, id),
    }
}
