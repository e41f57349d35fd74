//! The names of a directory, the newest first.

ghost use Rattle.std.specs.Prelude.{◌≡◌, ◌+◌, ◌≤◌, IfOk};
ghost use Rattle.server_trait.specs.Calls.{ListNames, Lists};
ghost use Rattle.server_trait.specs.Tree.{names_at};
ghost use Rattle.log_records.specs.Layout.{key_size};
ghost use Rattle.log_tree.specs.Held.{names_of};
ghost use Rattle.log_store.specs.Store.{IsStore, Reads, live_in, records_in};
ghost use Rattle.log_held.specs.Sound.{ArePlaced};
ghost use Rattle.log_changes.specs.Kept.{Changes, IsKept, log_live, log_tree};
ghost use Rattle.log_calls.specs.Rows.{IsNamePlace, row_from, row_in};
ghost use Rattle.log_calls.specs.State.{Does};

use crate::answers::answered;
use crate::found::{find_dir, handle_of};
use log_changes::LogTree;
use log_records::{NodeId, read_child};
use log_store::LogStore;
use nfs2_types::{Blob, Handle, NoMemory};
use outside::{Block, Medium, MediumErr};
use server_trait::{Listed, SrvErr};
use std::alloc::Global;

/// What a record says of a name, as a row of a list.
fn row_of(alloc: Global, block: &Block) -> Result<Listed, NoMemory>
    requires long { 9 ≤ key_size block.now }
    requires room { key_size block.now + 8 ≤ 509 }
    ensures { IfOk result (λ row. row ≡ row_in block.now) }
{
    let size = 256 * (block[1] as usize) + (block[2] as usize);
    let name = Blob::from_slice(alloc, &block[12..3 + size])?;
    Ok(Listed {
        name,
        handle: handle_of(&read_child(block)),
    })
}

/// The row of the record at a place, which is a live one of a name.
fn row_at<M: Medium>(
    alloc: Global,
    store: &mut LogStore<M>,
    place: u32,
) -> Result<Listed, MediumErr>
    requires store { IsStore M.content M.size store.old }
    requires placed { ArePlaced (live_in M.content M.size store.old) }
    requires named { IsNamePlace (records_in M.content M.size store.old) place }
    ensures row { IfOk result (λ row. row ≡ row_from (records_in M.content M.size store.old) place) }
    ensures reads { Reads M.content M.size M.faults store.old store.new result }
{
    let block = store.read(place)?;
    Ok(row_of(alloc, &block)?)
}

/// The names of a directory, those of the newest records first. It reads a block for each name.
fn rows_of<M: Medium>(
    alloc: Global,
    store: &mut LogStore<M>,
    dir: &NodeId,
) -> Result<Vec<Listed>, MediumErr>
    requires store { IsStore M.content M.size store.old }
    requires placed { ArePlaced (live_in M.content M.size store.old) }
    ensures rows { IfOk result (λ rows. Lists rows.items (names_of (live_in M.content M.size store.old) dir.now)) }
    ensures reads { Reads M.content M.size M.faults store.old store.new result }
{
    let places = store.name_places(dir)?;
    let mut rows = Vec::new(alloc);
    for place in &places {
        rows.push(row_at(alloc, store, *place)?)?;
    }
    Ok(rows)
}

/// The names of a directory of a tree.
fn names_of<M: Medium>(tree: &mut LogTree<M>, dir: &NodeId) -> Result<Vec<Listed>, MediumErr>
    requires { IsKept M.content M.size tree.old }
    ensures rows { IfOk result (λ rows. Lists rows.items (names_of (log_live M.content M.size tree.old) dir.now)) }
    ensures tree { log_tree M.content M.size tree.new ≡ log_tree M.content M.size tree.old }
    ensures kept { IsKept M.content M.size tree.new }
    ensures changes { Changes M.size M.faults tree.old tree.new result }
{
    let rows = rows_of(tree.alloc, &mut tree.store, dir)?;
    Ok(rows)
}

/// The names of a directory, each once, the newest first. Errors: Stale, NotDir.
pub fn list<M: Medium>(tree: &mut LogTree<M>, dir: &Handle) -> Result<Vec<Listed>, SrvErr>
    requires { IsKept M.content M.size tree.old }
    ensures { Does M.content M.size M.faults (λ a. ListNames a dir.now) tree.old result tree.new }
{
    let within = find_dir(tree, dir)?;
    answered(names_of(tree, &within.id))
}
