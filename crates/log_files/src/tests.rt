//! A piece that is longer than a chunk, and a file that is filled and cut, over any medium and at one in memory.

ghost use Rattle.std.specs.Prelude.{◌≤◌, OnOk};
ghost use Rattle.log_segments.specs.Segments.{half_size};
ghost use Rattle.log_store.specs.Store.{IsStore, medium_of};

use super::*;
use log_records::NodeId;
use log_store::LogStore;
use outside::{Medium, MediumErr, MemMedium};
use std::alloc::Global;
use std::test::Fail;

const FILE: NodeId = [0, 0, 0, 0, 0, 0, 0, 2];

/// Writes 700 bytes to an empty store, and reads at most 100 bytes of what was taken, from the byte 470 on.
fn write_and_read<M: Medium>(
    alloc: Global,
    store: &mut LogStore<M>,
) -> Result<(u32, Vec<u8>), MediumErr>
    requires { 3 ≤ half_size (M.size (medium_of store.old)) }
    ensures { OnOk result (IsStore M.content M.size store.new) }
{
    store.clear()?;
    let count = write_bytes(alloc, store, &FILE, 0, 0, &[7; 700])?;
    let bytes = read_bytes(alloc, store, &FILE, count, 470, 100)?;
    Ok((count, bytes))
}

/// Puts three bytes, fills the file up to 1,000 bytes, cuts it to 2, and fills it up to 4. The bytes of it then, and
/// how many there were of 1,000.
fn fill_and_cut<M: Medium>(
    alloc: Global,
    store: &mut LogStore<M>,
) -> Result<(Vec<u8>, usize), MediumErr>
    requires { 9 ≤ half_size (M.size (medium_of store.old)) }
    ensures { OnOk result (IsStore M.content M.size store.new) }
{
    store.clear()?;
    let count = write_bytes(alloc, store, &FILE, 0, 0, b"abc")?;
    resize_bytes(alloc, store, &FILE, count, 1000)?;
    let long = read_bytes(alloc, store, &FILE, 1000, 0, 2000)?;
    let long = long.len();
    resize_bytes(alloc, store, &FILE, 1000, 2)?;
    resize_bytes(alloc, store, &FILE, 2, 4)?;
    let bytes = read_bytes(alloc, store, &FILE, 4, 0, 10)?;
    Ok((bytes, long))
}

#[test]
fn cut_bytes_do_not_come_back(rt: HostRuntime) -> Result<(), Fail> {
    let alloc = rt.alloc();
    let mut store = LogStore::new(alloc, MemMedium::new(alloc, 41, Vec::new(alloc)));
    let (bytes, long) = fill_and_cut(alloc, &mut store)?;
    assert_eq!(rt; long, 1000);
    assert_eq!(rt; bytes.as_slice(), b"ab\0\0".as_slice());
    assert!(rt; store.chunk(&FILE, 1)?.is_none());
    Ok(())
}

#[test]
fn a_write_ends_with_its_chunk(rt: HostRuntime) -> Result<(), Fail> {
    let alloc = rt.alloc();
    let mut store = LogStore::new(alloc, MemMedium::new(alloc, 41, Vec::new(alloc)));
    let (count, bytes) = write_and_read(alloc, &mut store)?;
    assert_eq!(rt; count, 480);
    assert_eq!(rt; bytes.as_slice(), [7; 10].as_slice());
    assert!(rt;
        matches!(store.chunk(&FILE, 0)?, Some(bytes) if bytes.as_slice() == [7; 480].as_slice())
    );
    assert!(rt; store.chunk(&FILE, 1)?.is_none());
    Ok(())
}
