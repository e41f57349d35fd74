//! Other sizes.

ghost use Rattle.std.specs.Prelude.{◌≡◌, ◌≤◌, ◌<◌, ◌+◌, ◌*◌, ◌/◌, ◌%◌, length, min, OnOk};
ghost use Rattle.log_segments.specs.Segments.{half_size};
ghost use Rattle.log_store.specs.Store.{IsStore, HasRoom, Works, live_in, medium_of};
ghost use Rattle.log_files.specs.Chunked.{IsChunked, ResizedBytes, chunks_of};

use crate::write::{chunk_or_none, write_bytes};
use log_records::NodeId;
use log_store::LogStore;
use outside::{Medium, MediumErr};
use std::alloc::Global;

/// Fills a file with zeros up to a size above its own.
fn fill_bytes<M: Medium>(
    alloc: Global,
    store: &mut LogStore<M>,
    id: &NodeId,
    size: u32,
    to: u32,
) -> Result<(), MediumErr>
    requires store { IsStore M.content M.size store.old }
    requires room { length (live_in M.content M.size store.old) + chunks_of to + 1
        < half_size (M.size (medium_of store.old)) + chunks_of size }
    requires chunked { IsChunked (live_in M.content M.size store.old) id.now size }
    requires above { size < to }
    requires end { to ≤ 8388608 }
    ensures filled { let live = live_in M.content M.size in
        OnOk result (ResizedBytes (live store.old) (live store.new) id.now size to) }
    ensures works { Works M.content M.size M.faults store.old store.new result }
{
    let zeros = [0; 480];
    let mut now = size;
    for place in size / 480..(to - 1) / 480 + 1 {
        let next = to.min(480 * (place + 1));
        let piece = &zeros[..(next - now) as usize];
        let _count = write_bytes(alloc, store, id, now, now, piece)?;
        now = next;
    }
    Ok(())
}

/// Takes out all chunks of a file but the first ones.
fn drop_chunks<M: Medium>(
    store: &mut LogStore<M>,
    id: &NodeId,
    size: u32,
    keep: u32,
) -> Result<(), MediumErr>
    requires store { IsStore M.content M.size store.old }
    requires room { HasRoom M.content M.size store.old }
    requires chunked { IsChunked (live_in M.content M.size store.old) id.now size }
    requires fewer { keep ≤ chunks_of size }
    ensures cut { let live = live_in M.content M.size in
        OnOk result (ResizedBytes (live store.old) (live store.new) id.now size (min size (480 * keep))) }
    ensures works { Works M.content M.size M.faults store.old store.new result }
{
    let chunks = (size + 479) / 480;
    for gone in 0..chunks - keep {
        store.drop_chunk(id, chunks - 1 - gone)?;
    }
    Ok(())
}

/// Cuts the last chunk of a file.
fn cut_last<M: Medium>(
    alloc: Global,
    store: &mut LogStore<M>,
    id: &NodeId,
    size: u32,
    to: u32,
) -> Result<(), MediumErr>
    requires store { IsStore M.content M.size store.old }
    requires room { HasRoom M.content M.size store.old }
    requires chunked { IsChunked (live_in M.content M.size store.old) id.now size }
    requires below { to < size }
    requires last { size ≤ 480 * (to / 480 + 1) }
    requires inside { 1 ≤ to % 480 }
    ensures cut { let live = live_in M.content M.size in
        OnOk result (ResizedBytes (live store.old) (live store.new) id.now size to) }
    ensures works { Works M.content M.size M.faults store.old store.new result }
{
    let place = to / 480;
    let bytes = chunk_or_none(alloc, store, id, place)?;
    let front = &bytes[..(to % 480) as usize];
    store.put_chunk(id, place, front)?;
    Ok(())
}

/// Cuts a file to a size below its own.
fn cut_bytes<M: Medium>(
    alloc: Global,
    store: &mut LogStore<M>,
    id: &NodeId,
    size: u32,
    to: u32,
) -> Result<(), MediumErr>
    requires store { IsStore M.content M.size store.old }
    requires room { HasRoom M.content M.size store.old }
    requires chunked { IsChunked (live_in M.content M.size store.old) id.now size }
    requires below { to < size }
    ensures cut { let live = live_in M.content M.size in
        OnOk result (ResizedBytes (live store.old) (live store.new) id.now size to) }
    ensures works { Works M.content M.size M.faults store.old store.new result }
{
    let keep = (to + 479) / 480;
    drop_chunks(store, id, size, keep)?;
    let left = size.min(480 * keep);
    if to < left {
        cut_last(alloc, store, id, left, to)?;
    }
    Ok(())
}

/// Gives a file, or a link's text, of `size` bytes another size: it is cut, or filled with zeros.
pub fn resize_bytes<M: Medium>(
    alloc: Global,
    store: &mut LogStore<M>,
    id: &NodeId,
    size: u32,
    to: u32,
) -> Result<(), MediumErr>
    requires store { IsStore M.content M.size store.old }
    requires room { HasRoom M.content M.size store.old }
    requires room_after { length (live_in M.content M.size store.old) + chunks_of to + 1
        < half_size (M.size (medium_of store.old)) + chunks_of size }
    requires chunked { IsChunked (live_in M.content M.size store.old) id.now size }
    requires end { to ≤ 8388608 }
    ensures resized { let live = live_in M.content M.size in
        OnOk result (ResizedBytes (live store.old) (live store.new) id.now size to) }
    ensures works { Works M.content M.size M.faults store.old store.new result }
{
    if size < to {
        fill_bytes(alloc, store, id, size, to)?;
        return Ok(());
    }
    if to < size {
        cut_bytes(alloc, store, id, size, to)?;
    }
    Ok(())
}
