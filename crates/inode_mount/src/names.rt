//! The names of a medium's directories are entered in the tables.

ghost use Rattle.std.specs.Prelude.{◌≡◌, ◌+◌, ◌<◌, ◌↔◌, Some, IsTrue, OnOk, length};
ghost use Rattle.nfs2_types.specs.declared.fattr.Kind.TheVariants.{Dir};
ghost use Rattle.outside.specs.Causes.{WriteHasCause};
ghost use Rattle.inode_dirs.specs.Files.{slots_at};
ghost use Rattle.inode_tree.specs.Kept.{tables_of};
ghost use Rattle.inode_tree.specs.Planned.{epoch_of};
ghost use Rattle.inode_mount.specs.Reading.{files_in, AreNamed, IsReadable};

use inode_dirs::Place;
use inode_slots::{count_slots, slot_at};
use inode_tree::InodeTree;
use nfs2_types::Kind;
use outside::{Medium, MediumErr};

/// Enters the name of a directory's next slot.
fn enter_slot<M: Medium>(tree: &mut InodeTree<M>, dir: u32, slot: u32) -> Result<(), MediumErr>
    requires readable { IsReadable M.content M.size tree.old }
    requires within { dir < tree.old.store.inodes }
    requires dir { (tables_of tree.old.tables).kind dir ≡ Some Dir }
    requires there { slot < length (slots_at (files_in M.content tree.old.store dir)) }
    requires so_far { AreNamed tree.old.store.inodes (files_in M.content tree.old.store) dir slot
        (tables_of tree.old.tables) }
    ensures so_far { OnOk result (AreNamed tree.old.store.inodes (files_in M.content tree.old.store) dir (slot + 1)
        (tables_of tree.new.tables)) }
    ensures kinds { OnOk result ((tables_of tree.new.tables).kind ≡ (tables_of tree.old.tables).kind) }
    ensures epoch { epoch_of tree.new.tables ≡ epoch_of tree.old.tables }
    ensures content { M.content tree.new.store.medium ≡ M.content tree.old.store.medium }
    ensures map { tree.new.store.map ≡ tree.old.store.map }
    ensures limits { tree.new.limits ≡ tree.old.limits }
    ensures area { tree.new.store.area ≡ tree.old.store.area }
    ensures inodes { tree.new.store.inodes ≡ tree.old.store.inodes }
    ensures size { M.size tree.new.store.medium ≡ M.size tree.old.store.medium }
    ensures cause { WriteHasCause (M.faults tree.old.store.medium) (M.faults tree.new.store.medium) result }
{
    let found = slot_at(tree.alloc, &mut tree.store, dir, slot)?;
    let place = Place {
        slot,
        inode: found.inode,
    };
    let Some(kind) = tree.tables.kind(place.inode) else {
        unreachable!()
    };
    tree.tables.enter_name(dir, found.name, place, kind)?;
    Ok(())
}

/// Whether it is the kind of a directory.
fn is_dir(kind: Option<Kind>) -> bool
    ensures { IsTrue result ↔ (kind ≡ Some Dir) }
{
    match kind {
        Some(Kind::Dir) => true,
        Some(Kind::File | Kind::Link) | None => false,
    }
}

/// Enters the names of a directory, slot by slot.
fn enter_slots<M: Medium>(tree: &mut InodeTree<M>, dir: u32) -> Result<(), MediumErr>
    requires readable { IsReadable M.content M.size tree.old }
    requires within { dir < tree.old.store.inodes }
    requires dir { (tables_of tree.old.tables).kind dir ≡ Some Dir }
    requires so_far { AreNamed tree.old.store.inodes (files_in M.content tree.old.store) dir 0
        (tables_of tree.old.tables) }
    ensures so_far { OnOk result (AreNamed tree.old.store.inodes (files_in M.content tree.old.store) (dir + 1) 0
        (tables_of tree.new.tables)) }
    ensures epoch { epoch_of tree.new.tables ≡ epoch_of tree.old.tables }
    ensures content { M.content tree.new.store.medium ≡ M.content tree.old.store.medium }
    ensures map { tree.new.store.map ≡ tree.old.store.map }
    ensures limits { tree.new.limits ≡ tree.old.limits }
    ensures area { tree.new.store.area ≡ tree.old.store.area }
    ensures inodes { tree.new.store.inodes ≡ tree.old.store.inodes }
    ensures size { M.size tree.new.store.medium ≡ M.size tree.old.store.medium }
    ensures cause { WriteHasCause (M.faults tree.old.store.medium) (M.faults tree.new.store.medium) result }
{
    let count = count_slots(&mut tree.store, dir)?;
    for slot in 0..count {
        enter_slot(tree, dir, slot)?;
    }
    Ok(())
}

/// Enters the names of an inode, if it is a directory.
fn enter_dir<M: Medium>(tree: &mut InodeTree<M>, dir: u32) -> Result<(), MediumErr>
    requires readable { IsReadable M.content M.size tree.old }
    requires within { dir < tree.old.store.inodes }
    requires so_far { AreNamed tree.old.store.inodes (files_in M.content tree.old.store) dir 0
        (tables_of tree.old.tables) }
    ensures so_far { OnOk result (AreNamed tree.old.store.inodes (files_in M.content tree.old.store) (dir + 1) 0
        (tables_of tree.new.tables)) }
    ensures epoch { epoch_of tree.new.tables ≡ epoch_of tree.old.tables }
    ensures content { M.content tree.new.store.medium ≡ M.content tree.old.store.medium }
    ensures map { tree.new.store.map ≡ tree.old.store.map }
    ensures limits { tree.new.limits ≡ tree.old.limits }
    ensures area { tree.new.store.area ≡ tree.old.store.area }
    ensures inodes { tree.new.store.inodes ≡ tree.old.store.inodes }
    ensures size { M.size tree.new.store.medium ≡ M.size tree.old.store.medium }
    ensures cause { WriteHasCause (M.faults tree.old.store.medium) (M.faults tree.new.store.medium) result }
{
    let kind = tree.tables.kind(dir);
    if is_dir(kind) {
        enter_slots(tree, dir)?;
        return Ok(());
    }
    Ok(())
}

/// Enters the names of all directories, where all used inodes are entered.
pub(crate) fn enter_names<M: Medium>(tree: &mut InodeTree<M>) -> Result<(), MediumErr>
    requires readable { IsReadable M.content M.size tree.old }
    requires entered { AreNamed tree.old.store.inodes (files_in M.content tree.old.store) 0 0
        (tables_of tree.old.tables) }
    ensures named { OnOk result (AreNamed tree.old.store.inodes (files_in M.content tree.old.store)
        tree.old.store.inodes 0 (tables_of tree.new.tables)) }
    ensures epoch { epoch_of tree.new.tables ≡ epoch_of tree.old.tables }
    ensures content { M.content tree.new.store.medium ≡ M.content tree.old.store.medium }
    ensures map { tree.new.store.map ≡ tree.old.store.map }
    ensures limits { tree.new.limits ≡ tree.old.limits }
    ensures area { tree.new.store.area ≡ tree.old.store.area }
    ensures inodes { tree.new.store.inodes ≡ tree.old.store.inodes }
    ensures size { M.size tree.new.store.medium ≡ M.size tree.old.store.medium }
    ensures cause { WriteHasCause (M.faults tree.old.store.medium) (M.faults tree.new.store.medium) result }
{
    for inode in 0..tree.store.inodes {
        enter_dir(tree, inode)?;
    }
    Ok(())
}
