//! Reading.

ghost use Rattle.std.specs.Prelude.{◌≡◌, ◌≤◌, ◌+◌, length, take, drop, IfOk};
ghost use Rattle.log_tree.specs.Held.{bytes_from, bytes_of};
ghost use Rattle.log_store.specs.Store.{IsStore, Reads, live_in};
ghost use Rattle.log_files.specs.Chunked.{AreThere, IsChunked};

use crate::write::chunk_or_none;
use log_records::NodeId;
use log_store::LogStore;
use nfs2_types::NoMemory;
use outside::{Medium, MediumErr};
use std::alloc::Global;

/// The bytes of so many chunks, from a place on.
fn chunks_from<M: Medium>(
    alloc: Global,
    store: &mut LogStore<M>,
    id: &NodeId,
    first: u32,
    count: u32,
) -> Result<Vec<u8>, MediumErr>
    requires store { IsStore M.content M.size store.old }
    requires few { first + count ≤ 17477 }
    requires there { AreThere (live_in M.content M.size store.old) id.now first count }
    ensures bytes { let live = live_in M.content M.size store.old in
        IfOk result (λ bytes. bytes.items ≡ bytes_from count live id.now first) }
    ensures reads { Reads M.content M.size M.faults store.old store.new result }
{
    let mut all = Vec::new(alloc);
    for step in 0..count {
        let bytes = chunk_or_none(alloc, store, id, first + step)?;
        let Ok(()) = all.extend_from_slice(bytes.as_slice()) else {
            return Err(MediumErr::NoMemory);
        };
    }
    Ok(all)
}

/// So many bytes from one on, or fewer where there are no more.
#[tactic(auto, using(std::proofs::lemmas::List::take_min))]
fn cut(alloc: Global, bytes: &[u8], start: usize, count: usize) -> Result<Vec<u8>, NoMemory>
    requires { start ≤ length bytes.now }
    ensures { IfOk result (λ part. part.items ≡ take count (drop start bytes.now)) }
{
    let rest = &bytes[start..];
    Ok(Vec::from_slice(alloc, &rest[..count.min(rest.len())])?)
}

/// The bytes from an offset up to the count or the end, of a file of `size` bytes.
pub fn read_bytes<M: Medium>(
    alloc: Global,
    store: &mut LogStore<M>,
    id: &NodeId,
    size: u32,
    offset: u32,
    count: u32,
) -> Result<Vec<u8>, MediumErr>
    requires store { IsStore M.content M.size store.old }
    requires chunked { IsChunked (live_in M.content M.size store.old) id.now size }
    ensures bytes { let live = live_in M.content M.size store.old in
        IfOk result (λ bytes. bytes.items ≡ take count (drop offset (bytes_of live id.now))) }
    ensures reads { Reads M.content M.size M.faults store.old store.new result }
{
    let end = size.min(offset.saturating_add(count));
    if end <= offset {
        return Ok(Vec::new(alloc));
    }
    let first = offset / 480;
    let chunks = (end - 1) / 480 + 1 - first;
    let bytes = chunks_from(alloc, store, id, first, chunks)?;
    let start = (offset % 480) as usize;
    let part = cut(alloc, bytes.as_slice(), start, (end - offset) as usize)?;
    Ok(part)
}
