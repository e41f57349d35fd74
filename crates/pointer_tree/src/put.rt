//! One block of a tree is written.

ghost use Rattle.std.specs.Prelude.{◌≡◌, ◌≢◌, ◌<◌, ◌≤◌, ◌+◌, ◌^◌, ℕ, length, OnOk, IfOk};
ghost use Rattle.block_alloc.specs.Free.{free_count};
ghost use Rattle.outside.specs.Causes.{WriteHasCause};
ghost use Rattle.pointer_tree.specs.Tree.{IsBlock, pointer};
ghost use Rattle.pointer_tree.specs.Changes.{IsTop, Fits, Stands, Roots, Puts};

use crate::node::{Area, load, place, pointer_of, set_pointer, zero_block};
use block_alloc::BlockMap;
use outside::{Block, Medium, MediumErr};

/// The top of a tree, or where it has none a new one of zeros.
fn rooted<M: Medium>(
    medium: &mut M,
    map: &mut BlockMap,
    area: Area,
    top: u32,
) -> Result<u32, MediumErr>
    requires fits { Fits area (M.size medium.old) map.old }
    requires top_is { IsTop area top }
    requires room { 0 < free_count map.old }
    ensures ok { IfOk result (λ at. (d : ℕ) → Stands area d top (M.content medium.old) map.old →
        Roots area d top (M.content medium.old) map.old at (M.content medium.new) map.new) }
    ensures at { IfOk result (λ at. IsBlock area at) }
    ensures room { free_count map.old ≤ free_count map.new + 1 }
    ensures len { length map.new ≡ length map.old }
    ensures size { M.size medium.new ≡ M.size medium.old }
    ensures cause { WriteHasCause (M.faults medium.old) (M.faults medium.new) result }
{
    if top != 0 {
        return Ok(top);
    }
    match map.take() {
        Some(block) => {
            medium.write(block, &zero_block())?;
            Ok(block)
        }
        None => unreachable!(),
    }
}

/// Writes a node with another pointer.
fn relink<M: Medium>(
    medium: &mut M,
    area: Area,
    at: u32,
    mut node: Block,
    index: u32,
    next: u32,
) -> Result<(), MediumErr>
    requires at_in { at < M.size medium.old }
    requires index_in { index < 128 }
    requires next_in { IsTop area next }
    ensures here { OnOk result (pointer area (M.content medium.new at) index ≡ next) }
    ensures there { OnOk result ((i : ℕ) → i ≢ index →
        pointer area (M.content medium.new at) i ≡ pointer area node i) }
    ensures others { (q : ℕ) → q ≢ at → M.content medium.new q ≡ M.content medium.old q }
    ensures size { M.size medium.new ≡ M.size medium.old }
    ensures cause { WriteHasCause (M.faults medium.old) (M.faults medium.new) result }
{
    set_pointer(&mut node, index, area, next);
    medium.write(at, &node)
}

/// Gives block `index` of a tree these bytes, and answers the tree's top. It takes at most `depth + 1` blocks, and
/// writes a node only where one of its pointers changes. After an error nothing is known of the tree.
pub fn put_block<M: Medium>(
    medium: &mut M,
    map: &mut BlockMap,
    area: Area,
    depth: u32,
    top: u32,
    index: u32,
    bytes: &Block,
) -> Result<u32, MediumErr>
    requires fits { Fits area (M.size medium.old) map.old }
    requires stands { Stands area depth top (M.content medium.old) map.old }
    requires depth_in { depth ≤ 3 }
    requires index_in { index < 128 ^ depth }
    requires room { depth < free_count map.old }
    ensures ok { IfOk result (λ next.
        Puts area depth top index bytes.now (M.content medium.old) map.old next (M.content medium.new) map.new) }
    ensures room { free_count map.old ≤ free_count map.new + (depth + 1) }
    ensures len { length map.new ≡ length map.old }
    ensures size { M.size medium.new ≡ M.size medium.old }
    ensures cause { WriteHasCause (M.faults medium.old) (M.faults medium.new) result }
{
    let at = rooted(medium, map, area, top)?;
    if depth == 0 {
        medium.write(at, bytes)?;
        return Ok(at);
    }
    let node = load(medium, at)?;
    let (number, rest) = place(depth, index);
    let child = pointer_of(&node, number, area);
    let next = put_block(medium, map, area, depth - 1, child, rest, bytes)?;
    if next != child {
        relink(medium, area, at, node, number, next)?;
    }
    Ok(at)
}
