//! Writing.

ghost use Rattle.std.specs.Prelude.{◌≡◌, ◌≤◌, ◌+◌, length, IfOk};
ghost use Rattle.nfs2_types.specs.Bytes.{overwritten};
ghost use Rattle.log_segments.specs.Newest.{find};
ghost use Rattle.log_records.specs.Layout.{chunk_key};
ghost use Rattle.log_store.specs.Store.{IsStore, HasRoom, Reads, Writes, live_in};
ghost use Rattle.log_files.specs.Chunked.{IsChunked, WroteBytes, bytes_in};

use log_records::{CHUNK_MAX, NodeId};
use log_store::LogStore;
use nfs2_types::NoMemory;
use outside::{Medium, MediumErr};
use std::alloc::Global;

/// Bytes with a piece in the place of those from an offset on, which lies among them or at their end.
fn patched(alloc: Global, bytes: &[u8], at: usize, piece: &[u8]) -> Result<Vec<u8>, NoMemory>
    requires { at ≤ length bytes.now }
    ensures { IfOk result (λ all. all.items ≡ overwritten at piece.now bytes.now) }
{
    let mut all = Vec::new(alloc);
    all.extend_from_slice(&bytes[..at])?;
    all.extend_from_slice(piece)?;
    let end = bytes.len().min(at + piece.len());
    all.extend_from_slice(&bytes[end..])?;
    Ok(all)
}

/// The bytes of a chunk, or none where it is not there.
pub(crate) fn chunk_or_none<M: Medium>(
    alloc: Global,
    store: &mut LogStore<M>,
    id: &NodeId,
    place: u32,
) -> Result<Vec<u8>, MediumErr>
    requires { IsStore M.content M.size store.old }
    ensures bytes { let live = live_in M.content M.size store.old in
        IfOk result (λ bytes. bytes.items ≡ bytes_in (find (chunk_key id.now place) live)) }
    ensures reads { Reads M.content M.size M.faults store.old store.new result }
{
    match store.chunk(id, place)? {
        Some(bytes) => Ok(bytes),
        None => Ok(Vec::new(alloc)),
    }
}

/// Puts bytes from the front of a piece at an offset, up to the end of a chunk, and answers how many. The file has
/// `size` bytes, and the offset lies among them or at their end.
pub fn write_bytes<M: Medium>(
    alloc: Global,
    store: &mut LogStore<M>,
    id: &NodeId,
    size: u32,
    offset: u32,
    piece: &[u8],
) -> Result<u32, MediumErr>
    requires store { IsStore M.content M.size store.old }
    requires room { HasRoom M.content M.size store.old }
    requires chunked { IsChunked (live_in M.content M.size store.old) id.now size }
    requires among { offset ≤ size }
    requires some { 1 ≤ length piece.now }
    requires end { offset + length piece.now ≤ 8388608 }
    ensures wrote { let live = live_in M.content M.size in
        IfOk result (WroteBytes (live store.old) (live store.new) id.now size offset piece.now) }
    ensures writes { Writes M.content M.size M.faults store.old store.new result }
{
    let place = offset / 480;
    let at = (offset % 480) as usize;
    let count = piece.len().min(CHUNK_MAX - at);
    let bytes = chunk_or_none(alloc, store, id, place)?;
    let bytes = patched(alloc, bytes.as_slice(), at, &piece[..count])?;
    store.put_chunk(id, place, bytes.as_slice())?;
    Ok(count as u32)
}
