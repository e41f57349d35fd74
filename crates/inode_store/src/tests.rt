//! Inodes over memory: made, written, cut and given back.

ghost use Rattle.std.specs.Prelude.{◌≡◌, ◌<◌, ◌≤◌, ℕ, None, IfOk};
ghost use Rattle.inode_store.specs.Inodes.{file_at};
ghost use Rattle.inode_store.specs.Keeps.{Keeps};

use super::*;
use block_alloc::BlockMap;
use nfs2_types::{Kind, NoMemory};
use outside::{Medium, MediumErr, MemMedium};
use pointer_tree::Area;
use std::alloc::{AllocError, Global};

#[derive(Debug, Drop)]
enum Fail {
    Medium(MediumErr),
    NoMemory,
}

impl From<MediumErr> for Fail {
    fn from(error: MediumErr) -> Fail {
        Fail::Medium(error)
    }
}

impl From<NoMemory> for Fail {
    fn from(_: NoMemory) -> Fail {
        Fail::NoMemory
    }
}

impl From<AllocError> for Fail {
    fn from(_: AllocError) -> Fail {
        Fail::NoMemory
    }
}

/// A store of eight inodes, of which the first is a directory.
fn formatted(alloc: Global, fails: Vec<u64>) -> Result<InodeStore<MemMedium>, Fail>
    ensures kept { IfOk result (λ s. Keeps s.area s.inodes (⟦<MemMedium as Medium>⟧.content s.medium)
        (⟦<MemMedium as Medium>⟧.size s.medium) s.map) }
    ensures inodes { IfOk result (λ s. s.inodes ≡ 8) }
    ensures free { IfOk result (λ s. (i : ℕ) → 1 ≤ i → i < 8 →
        file_at s.area (⟦<MemMedium as Medium>⟧.content s.medium) i ≡ None) }
{
    let mut store = InodeStore {
        medium: MemMedium::new(alloc, 1000, fails),
        map: BlockMap::new(alloc, 0)?,
        area: Area {
            first: 9,
            end: 1000,
        },
        inodes: 8,
    };
    store.format(alloc, &[b'x'; 512])?;
    Ok(store)
}

#[test]
fn bytes_are_read_as_they_were_written(rt: HostRuntime) -> Result<(), Fail> {
    let alloc = rt.alloc();
    let mut store = formatted(alloc, Vec::new(alloc))?;
    store.take(1, Kind::File)?;
    assert!(rt; 7 <= store.map.free());
    assert_eq!(rt; store.write(1, 0, b"hello")?, 5);
    assert!(rt; 1 < store.inodes);
    let bytes = store.read(alloc, 1, 3, 9)?;
    assert!(rt; *bytes.as_slice() == *b"lo".as_slice());
    Ok(())
}

#[test]
fn a_file_is_cut_and_given_back(rt: HostRuntime) -> Result<(), Fail> {
    let alloc = rt.alloc();
    let mut store = formatted(alloc, Vec::new(alloc))?;
    store.take(1, Kind::File)?;
    assert!(rt; 10 <= store.map.free());
    store.set_size(1, 70_000)?;
    assert!(rt; 1 < store.inodes);
    store.give(1)?;
    assert_eq!(rt; store.map.free(), 991);
    Ok(())
}
