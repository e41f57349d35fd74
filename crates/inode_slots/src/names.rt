//! A name of a directory is added or removed, in the bytes of its inode and in its index.

ghost use Rattle.std.specs.Prelude.{◌≡◌, ◌≢◌, ℕ, ◌+◌, ◌*◌, ◌^◌, ◌≤◌, List, true, None, Some, OnOk, length};
ghost use Rattle.std.specs.FinMap as map;
ghost use Rattle.std.specs.Option.{option_map};
ghost use Rattle.block_alloc.specs.Free.{free_count};
ghost use Rattle.nfs2_types.specs.Names.{is_name};
ghost use Rattle.outside.specs.Causes.{WriteHasCause};
ghost use Rattle.inode_dirs.specs.Files.{slots_at};
ghost use Rattle.inode_dirs.specs.Slots.{inode_by};
ghost use Rattle.inode_store.specs.Files.{with_bytes};
ghost use Rattle.inode_store.specs.Keeps.{Becomes};
ghost use Rattle.inode_store.specs.Store.{file_in};
ghost use Rattle.inode_slots.specs.Directory.{IsIndexed, with_slot, without_slot};

use crate::slots::{drop_slot, push_slot};
use inode_dirs::{DirIndex, Place};
use inode_store::InodeStore;
use outside::{Medium, MediumErr};
use std::alloc::Global;

/// Gives a directory a name that it lacks. After an error nothing is known of the inodes or of the index.
pub fn add_name<M: Medium>(
    store: &mut InodeStore<M>,
    index: &mut DirIndex,
    dir: u32,
    name: Vec<u8>,
    inode: u32,
) -> Result<(), MediumErr>
    requires directory { IsIndexed M.content M.size store.old dir index.old }
    requires name { is_name name.items ≡ true }
    requires new { inode_by index.old name.items ≡ None }
    requires end { 288 * length (slots_at (file_in M.content store.old dir)) + 288 ≤ 512 * 128 ^ 3 }
    requires room { 14 ≤ free_count store.old.map }
    ensures directory { OnOk result (IsIndexed M.content M.size store.new dir index.new) }
    ensures here { OnOk result (inode_by index.new name.items ≡ Some inode) }
    ensures names { OnOk result ((q : List ℕ) → q ≢ name.items → inode_by index.new q ≡ inode_by index.old q) }
    ensures file { OnOk result (Becomes store.new.area store.new.inodes (M.size store.new.medium) dir
        (option_map (with_bytes (with_slot name.items inode)) (file_in M.content store.old dir))
        (M.content store.old.medium) (M.content store.new.medium) store.new.map) }
    ensures area { store.new.area ≡ store.old.area }
    ensures inodes { store.new.inodes ≡ store.old.inodes }
    ensures size { M.size store.new.medium ≡ M.size store.old.medium }
    ensures cause { WriteHasCause (M.faults store.old.medium) (M.faults store.new.medium) result }
{
    let slot = push_slot(store, dir, &name, inode)?;
    index.insert(name, Place { slot, inode })?;
    Ok(())
}

/// Takes a name out of a directory, whose place the index has. After an error nothing is known of the inodes or of the
/// index.
pub fn remove_name<M: Medium>(
    alloc: Global,
    store: &mut InodeStore<M>,
    index: &mut DirIndex,
    dir: u32,
    name: &[u8],
    place: Place,
) -> Result<(), MediumErr>
    requires directory { IsIndexed M.content M.size store.old dir index.old }
    requires there { map.get index.old name.now ≡ Some place }
    requires room { 24 ≤ free_count store.old.map }
    ensures directory { OnOk result (IsIndexed M.content M.size store.new dir index.new) }
    ensures gone { OnOk result (inode_by index.new name.now ≡ None) }
    ensures names { OnOk result ((q : List ℕ) → q ≢ name.now → inode_by index.new q ≡ inode_by index.old q) }
    ensures file { OnOk result (Becomes store.new.area store.new.inodes (M.size store.new.medium) dir
        (option_map (with_bytes (without_slot place.slot)) (file_in M.content store.old dir))
        (M.content store.old.medium) (M.content store.new.medium) store.new.map) }
    ensures area { store.new.area ≡ store.old.area }
    ensures inodes { store.new.inodes ≡ store.old.inodes }
    ensures size { M.size store.new.medium ≡ M.size store.old.medium }
    ensures cause { WriteHasCause (M.faults store.old.medium) (M.faults store.new.medium) result }
{
    let last = drop_slot(alloc, store, dir, place.slot)?;
    let moved = Place {
        slot: place.slot,
        inode: last.inode,
    };
    index.insert(last.name, moved)?;
    index.remove(name);
    Ok(())
}
