//! The text of a link.

ghost use Rattle.std.specs.Prelude.{◌≡◌, ◌≤◌, ◌<◌, ◌+◌, length, OnOk};
ghost use Rattle.log_segments.specs.Segments.{half_size};
ghost use Rattle.log_store.specs.Store.{IsStore, Works, live_in, medium_of};
ghost use Rattle.log_files.specs.Chunked.{IsChunked};
ghost use Rattle.log_changes.specs.Made.{TextPut};

use log_files::write_bytes;
use log_records::NodeId;
use log_store::LogStore;
use outside::{Medium, MediumErr};
use std::alloc::Global;

/// Puts the text of a link whose node is not there yet.
pub(crate) fn put_text<M: Medium>(
    alloc: Global,
    store: &mut LogStore<M>,
    id: &NodeId,
    text: &[u8],
) -> Result<(), MediumErr>
    requires store { IsStore M.content M.size store.old }
    requires room { length (live_in M.content M.size store.old) + 5 ≤ half_size (M.size (medium_of store.old)) }
    requires chunked { IsChunked (live_in M.content M.size store.old) id.now 0 }
    requires short { length text.now ≤ 1024 }
    ensures put { let live = live_in M.content M.size in
        OnOk result (TextPut (live store.old) (live store.new) id.now text.now) }
    ensures works { Works M.content M.size M.faults store.old store.new result }
{
    let mut done = 0;
    while done < text.len() {
        let at = done as u32;
        let count = write_bytes(alloc, store, id, at, at, &text[done..])?;
        done += count as usize;
    }
    Ok(())
}
