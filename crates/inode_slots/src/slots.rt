//! The slots of a directory, in the bytes of its inode.

ghost use Rattle.std.specs.Prelude.{◌≡◌, ◌≢◌, ℕ, ◌+◌, ◌*◌, ◌^◌, ◌<◌, ◌≤◌, ◌++◌, ◌∷◌, [], Some, IsSome, IsSomeAnd, OnOk, IfOk, length, take, drop, slice_get};
ghost use Rattle.std.specs.Option.{option_map};
ghost use Rattle.block_alloc.specs.Free.{free_count};
ghost use Rattle.nfs2_types.specs.Bytes.{overwritten};
ghost use Rattle.outside.specs.Causes.{WriteHasCause};
ghost use Rattle.inode_dirs.specs.Files.{File, IsDirectory, slots_at};
ghost use Rattle.inode_dirs.specs.Slots.{IsDropped};
ghost use Rattle.inode_store.specs.Files.{with_bytes};
ghost use Rattle.inode_store.specs.Keeps.{Becomes};
ghost use Rattle.inode_store.specs.Store.{file_in, IsKept};
ghost use Rattle.inode_slots.specs.Directory.{with_slot, without_slot};

use inode_dirs::{Slot, format_slot, parse_slot};
use inode_store::InodeStore;
use outside::{Medium, MediumErr};
use std::alloc::Global;

/// How many slots a directory has. It reads one block.
pub fn count_slots<M: Medium>(store: &mut InodeStore<M>, dir: u32) -> Result<u32, MediumErr>
    requires kept { IsKept M.content M.size store.old }
    requires within { dir < store.old.inodes }
    requires used { IsSome (file_in M.content store.old dir) }
    ensures count { IfOk result (λ n. n ≡ length (slots_at (file_in M.content store.old dir))) }
    ensures content { M.content store.new.medium ≡ M.content store.old.medium }
    ensures size { M.size store.new.medium ≡ M.size store.old.medium }
    ensures map { store.new.map ≡ store.old.map }
    ensures area { store.new.area ≡ store.old.area }
    ensures inodes { store.new.inodes ≡ store.old.inodes }
    ensures cause { WriteHasCause (M.faults store.old.medium) (M.faults store.new.medium) result }
{
    let inode = store.used(dir)?;
    Ok(inode.size / 288)
}

/// The bytes of a slot.
fn slot_bytes_at<M: Medium>(
    alloc: Global,
    store: &mut InodeStore<M>,
    dir: u32,
    slot: u32,
) -> Result<Vec<u8>, MediumErr>
    requires kept { IsKept M.content M.size store.old }
    requires within { dir < store.old.inodes }
    requires directory { IsSomeAnd (file_in M.content store.old dir) IsDirectory }
    requires there { slot < length (slots_at (file_in M.content store.old dir)) }
    ensures bytes { IfOk result (λ v. option_map (λ f. take 288 (drop (288 * slot) f.bytes))
        (file_in M.content store.old dir) ≡ Some v.items) }
    ensures len { IfOk result (λ v. length v.items ≡ 288) }
    ensures content { M.content store.new.medium ≡ M.content store.old.medium }
    ensures size { M.size store.new.medium ≡ M.size store.old.medium }
    ensures map { store.new.map ≡ store.old.map }
    ensures area { store.new.area ≡ store.old.area }
    ensures inodes { store.new.inodes ≡ store.old.inodes }
    ensures cause { WriteHasCause (M.faults store.old.medium) (M.faults store.new.medium) result }
{
    let bytes = store.read(alloc, dir, 288 * slot, 288)?;
    Ok(bytes)
}

/// What a slot of a directory says.
pub fn slot_at<M: Medium>(
    alloc: Global,
    store: &mut InodeStore<M>,
    dir: u32,
    slot: u32,
) -> Result<Slot, MediumErr>
    requires kept { IsKept M.content M.size store.old }
    requires within { dir < store.old.inodes }
    requires directory { IsSomeAnd (file_in M.content store.old dir) IsDirectory }
    requires there { slot < length (slots_at (file_in M.content store.old dir)) }
    ensures slot { IfOk result (λ found. slice_get (slots_at (file_in M.content store.old dir)) slot ≡
        Some (found.name.items, found.inode)) }
    ensures content { M.content store.new.medium ≡ M.content store.old.medium }
    ensures size { M.size store.new.medium ≡ M.size store.old.medium }
    ensures map { store.new.map ≡ store.old.map }
    ensures area { store.new.area ≡ store.old.area }
    ensures inodes { store.new.inodes ≡ store.old.inodes }
    ensures cause { WriteHasCause (M.faults store.old.medium) (M.faults store.new.medium) result }
{
    let bytes = slot_bytes_at(alloc, store, dir, slot)?;
    let found = parse_slot(alloc, &bytes)?;
    Ok(found)
}

/// Puts the bytes of a slot over those of a directory or behind them.
fn put_slot<M: Medium>(
    store: &mut InodeStore<M>,
    dir: u32,
    offset: u32,
    bytes: &[u8],
) -> Result<(), MediumErr>
    requires kept { IsKept M.content M.size store.old }
    requires within { dir < store.old.inodes }
    requires used { IsSome (file_in M.content store.old dir) }
    requires inside { (f : File) → file_in M.content store.old dir ≡ Some f → offset ≤ length f.bytes }
    requires len { length bytes.now ≡ 288 }
    requires end { offset + 288 ≤ 512 * 128 ^ 3 }
    requires room { 14 ≤ free_count store.old.map }
    ensures file { OnOk result (Becomes store.new.area store.new.inodes (M.size store.new.medium) dir
        (option_map (with_bytes (overwritten offset bytes.now)) (file_in M.content store.old dir))
        (M.content store.old.medium) (M.content store.new.medium) store.new.map) }
    ensures room { OnOk result (free_count store.old.map ≤ free_count store.new.map + 14) }
    ensures area { store.new.area ≡ store.old.area }
    ensures inodes { store.new.inodes ≡ store.old.inodes }
    ensures size { M.size store.new.medium ≡ M.size store.old.medium }
    ensures cause { WriteHasCause (M.faults store.old.medium) (M.faults store.new.medium) result }
{
    let count = store.write(dir, offset, bytes)?;
    if count == 288 {
        return Ok(());
    }
    store.write(dir, offset + count, &bytes[count as usize..])?;
    Ok(())
}

/// Puts a slot behind the others of a directory, and answers its place.
pub(crate) fn push_slot<M: Medium>(
    store: &mut InodeStore<M>,
    dir: u32,
    name: &[u8],
    inode: u32,
) -> Result<u32, MediumErr>
    requires kept { IsKept M.content M.size store.old }
    requires within { dir < store.old.inodes }
    requires directory { IsSomeAnd (file_in M.content store.old dir) IsDirectory }
    requires name { length name.now ≤ 255 }
    requires end { 288 * length (slots_at (file_in M.content store.old dir)) + 288 ≤ 512 * 128 ^ 3 }
    requires room { 14 ≤ free_count store.old.map }
    ensures place { IfOk result (λ n. n ≡ length (slots_at (file_in M.content store.old dir))) }
    ensures slots { OnOk result (slots_at (file_in M.content store.new dir) ≡
        slots_at (file_in M.content store.old dir) ++ (name.now, inode) ∷ []) }
    ensures directory { OnOk result (IsSomeAnd (file_in M.content store.new dir) IsDirectory) }
    ensures file { OnOk result (Becomes store.new.area store.new.inodes (M.size store.new.medium) dir
        (option_map (with_bytes (with_slot name.now inode)) (file_in M.content store.old dir))
        (M.content store.old.medium) (M.content store.new.medium) store.new.map) }
    ensures area { store.new.area ≡ store.old.area }
    ensures inodes { store.new.inodes ≡ store.old.inodes }
    ensures size { M.size store.new.medium ≡ M.size store.old.medium }
    ensures cause { WriteHasCause (M.faults store.old.medium) (M.faults store.new.medium) result }
{
    let count = count_slots(store, dir)?;
    put_slot(store, dir, 288 * count, &format_slot(name, inode))?;
    Ok(count)
}

/// Takes a slot out by moving the last one to its place, and answers what the last one was.
pub(crate) fn drop_slot<M: Medium>(
    alloc: Global,
    store: &mut InodeStore<M>,
    dir: u32,
    slot: u32,
) -> Result<Slot, MediumErr>
    requires kept { IsKept M.content M.size store.old }
    requires within { dir < store.old.inodes }
    requires directory { IsSomeAnd (file_in M.content store.old dir) IsDirectory }
    requires there { slot < length (slots_at (file_in M.content store.old dir)) }
    requires room { 24 ≤ free_count store.old.map }
    ensures slots { IfOk result (λ last. IsDropped (slots_at (file_in M.content store.old dir)) slot
        last.name.items last.inode (slots_at (file_in M.content store.new dir))) }
    ensures directory { OnOk result (IsSomeAnd (file_in M.content store.new dir) IsDirectory) }
    ensures file { OnOk result (Becomes store.new.area store.new.inodes (M.size store.new.medium) dir
        (option_map (with_bytes (without_slot slot)) (file_in M.content store.old dir))
        (M.content store.old.medium) (M.content store.new.medium) store.new.map) }
    ensures area { store.new.area ≡ store.old.area }
    ensures inodes { store.new.inodes ≡ store.old.inodes }
    ensures size { M.size store.new.medium ≡ M.size store.old.medium }
    ensures cause { WriteHasCause (M.faults store.old.medium) (M.faults store.new.medium) result }
{
    let rest = count_slots(store, dir)? - 1;
    let bytes = slot_bytes_at(alloc, store, dir, rest)?;
    let last = parse_slot(alloc, &bytes)?;
    put_slot(store, dir, 288 * slot, &bytes)?;
    store.set_size(dir, 288 * rest)?;
    Ok(last)
}
