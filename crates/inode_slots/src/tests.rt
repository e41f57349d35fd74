//! A directory of 300 names over memory, made, read and taken apart in another order.

ghost use Rattle.std.specs.Prelude.{IfOk, OnOk};
ghost use Rattle.inode_slots.specs.Directory.{IsIndexed};

use super::*;
use block_alloc::BlockMap;
use inode_dirs::{DirIndex, find_name};
use inode_store::InodeStore;
use nfs2_types::{NoMemory, is_bad, is_dot};
use outside::{Medium, MediumErr, MemMedium};
use pointer_tree::Area;
use std::alloc::{AllocError, Global};

#[derive(Debug, Drop)]
enum Fail {
    Medium(MediumErr),
    NoMemory,
    Refused,
}

impl From<MediumErr> for Fail {
    fn from(error: MediumErr) -> Fail {
        Fail::Medium(error)
    }
}

impl From<NoMemory> for Fail {
    fn from(_: NoMemory) -> Fail {
        Fail::NoMemory
    }
}

impl From<AllocError> for Fail {
    fn from(_: AllocError) -> Fail {
        Fail::NoMemory
    }
}

/// A store of eight inodes, of which the first is a directory without names, and the index of its names.
fn formatted(alloc: Global) -> Result<(InodeStore<MemMedium>, DirIndex), Fail>
    ensures { IfOk result (λ made. IsIndexed ⟦<MemMedium as Medium>⟧.content ⟦<MemMedium as Medium>⟧.size
        made.0 0 made.1) }
{
    let mut store = InodeStore {
        medium: MemMedium::new(alloc, 1000, Vec::new(alloc)),
        map: BlockMap::new(alloc, 0)?,
        area: Area {
            first: 9,
            end: 1000,
        },
        inodes: 8,
    };
    store.format(alloc, &[b'x'; 512])?;
    let index = DirIndex::new(alloc);
    Ok((store, index))
}

/// Gives inode 0 a name.
fn add<M: Medium>(
    store: &mut InodeStore<M>,
    index: &mut DirIndex,
    name: Vec<u8>,
    inode: u32,
) -> Result<(), Fail>
    requires { IsIndexed M.content M.size store.old 0 index.old }
    ensures { OnOk result (IsIndexed M.content M.size store.new 0 index.new) }
{
    if is_bad(&name) || 255 < name.len() || is_dot(&name) {
        return Err(Fail::Refused);
    }
    if find_name(index, &name).is_some() || store.map.free() < 14 {
        return Err(Fail::Refused);
    }
    let count = count_slots(store, 0)?;
    if 1000 < count {
        return Err(Fail::Refused);
    }
    add_name(store, index, 0, name, inode)?;
    Ok(())
}

/// Takes a name of inode 0 out.
fn remove<M: Medium>(
    alloc: Global,
    store: &mut InodeStore<M>,
    index: &mut DirIndex,
    name: &[u8],
) -> Result<(), Fail>
    requires { IsIndexed M.content M.size store.old 0 index.old }
    ensures { OnOk result (IsIndexed M.content M.size store.new 0 index.new) }
{
    if store.map.free() < 24 {
        return Err(Fail::Refused);
    }
    let Some(place) = index.get(name) else {
        return Err(Fail::Refused);
    };
    remove_name(alloc, store, index, 0, name, place)?;
    Ok(())
}

/// The inode to which a name leads, by the index and by the slot that the index says.
fn found<M: Medium>(
    alloc: Global,
    store: &mut InodeStore<M>,
    index: &DirIndex,
    name: &[u8],
) -> Result<Option<u32>, Fail>
    requires { IsIndexed M.content M.size store.old 0 index.now }
    ensures { OnOk result (IsIndexed M.content M.size store.new 0 index.now) }
{
    let Some(place) = index.get(name) else {
        return Ok(None);
    };
    let slot = slot_at(alloc, store, 0, place.slot)?;
    if slot.name.as_slice() == name && slot.inode == place.inode {
        return Ok(Some(place.inode));
    }
    Err(Fail::Refused)
}

/// One of 300 names, of 1 to 150 letters.
fn name_of(alloc: Global, number: u32) -> Result<Vec<u8>, AllocError> {
    let letter = if number < 150 { b'a' } else { b'b' };
    Vec::from_elem(alloc, letter, (number % 150 + 1) as usize)
}

/// Adds 300 names, the first of which leads to 1, the next to 2, and so on.
fn add_all<M: Medium>(
    alloc: Global,
    store: &mut InodeStore<M>,
    index: &mut DirIndex,
) -> Result<(), Fail>
    requires { IsIndexed M.content M.size store.old 0 index.old }
    ensures { OnOk result (IsIndexed M.content M.size store.new 0 index.new) }
{
    for number in 0..300 {
        add(store, index, name_of(alloc, number)?, number + 1)?;
    }
    Ok(())
}

/// Removes 150 of the names: those of a first turn, every seventh from the fourth on, or the rest.
fn remove_half<M: Medium>(
    alloc: Global,
    store: &mut InodeStore<M>,
    index: &mut DirIndex,
    first: bool,
) -> Result<(), Fail>
    requires { IsIndexed M.content M.size store.old 0 index.old }
    ensures { OnOk result (IsIndexed M.content M.size store.new 0 index.new) }
{
    let start: u32 = if first { 0 } else { 150 };
    for turn in 0..150 {
        let number = (7 * (start + turn) + 3) % 300;
        remove(alloc, store, index, &name_of(alloc, number)?)?;
    }
    Ok(())
}

/// How many names of the second turn lead where they should, and how many of the first are gone.
fn count_right<M: Medium>(
    alloc: Global,
    store: &mut InodeStore<M>,
    index: &DirIndex,
) -> Result<u32, Fail>
    requires { IsIndexed M.content M.size store.old 0 index.now }
    ensures { OnOk result (IsIndexed M.content M.size store.new 0 index.now) }
{
    let mut right: u32 = 0;
    for turn in 0..300 {
        let number = (7 * turn + 3) % 300;
        let expected = if turn < 150 { None } else { Some(number + 1) };
        if found(alloc, store, index, &name_of(alloc, number)?)? == expected {
            right = right.saturating_add(1);
        }
    }
    Ok(right)
}

#[test]
fn names_come_and_go_in_any_order(rt: HostRuntime) -> Result<(), Fail> {
    let alloc = rt.alloc();
    let (mut store, mut index) = formatted(alloc)?;
    add_all(alloc, &mut store, &mut index)?;
    remove_half(alloc, &mut store, &mut index, true)?;
    assert_eq!(rt; count_right(alloc, &mut store, &index)?, 300);
    remove_half(alloc, &mut store, &mut index, false)?;
    assert_eq!(rt; count_slots(&mut store, 0)?, 0);
    assert_eq!(rt; store.map.free(), 991);
    Ok(())
}
