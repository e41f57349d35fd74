//! A tree gets deeper.

ghost use Rattle.std.specs.Prelude.{◌≡◌, ◌<◌, ◌≤◌, ◌+◌, ◌^◌, ℕ, length, IfOk};
ghost use Rattle.block_alloc.specs.Free.{free_count};
ghost use Rattle.outside.specs.Causes.{WriteHasCause};
ghost use Rattle.pointer_tree.specs.Changes.{IsTop, Fits, Stands, Raises, Deepens};

use crate::node::{Area, set_pointer, span, zero_block};
use block_alloc::BlockMap;
use outside::{Medium, MediumErr};

/// Puts a tree under one more node, of which it is the first child, and answers its top. After an error nothing is
/// known of the tree.
pub fn raise_tree<M: Medium>(
    medium: &mut M,
    map: &mut BlockMap,
    area: Area,
    top: u32,
) -> Result<u32, MediumErr>
    requires fits { Fits area (M.size medium.old) map.old }
    requires top_is { IsTop area top }
    requires room { 0 < free_count map.old }
    ensures ok { IfOk result (λ at. (d : ℕ) → Stands area d top (M.content medium.old) map.old →
        Raises area d top (M.content medium.old) map.old at (M.content medium.new) map.new) }
    ensures room { free_count map.old ≤ free_count map.new + 1 }
    ensures len { length map.new ≡ length map.old }
    ensures size { M.size medium.new ≡ M.size medium.old }
    ensures cause { WriteHasCause (M.faults medium.old) (M.faults medium.new) result }
{
    if top == 0 {
        return Ok(0);
    }
    match map.take() {
        Some(block) => {
            let mut node = zero_block();
            set_pointer(&mut node, 0, area, top);
            medium.write(block, &node)?;
            Ok(block)
        }
        None => unreachable!(),
    }
}

/// Puts a tree under as many nodes as it needs to have a place for block `index`, and answers its depth and its top.
/// After an error nothing is known of the tree.
pub fn deepen_tree<M: Medium>(
    medium: &mut M,
    map: &mut BlockMap,
    area: Area,
    depth: u32,
    top: u32,
    index: u32,
) -> Result<(u32, u32), MediumErr>
    requires fits { Fits area (M.size medium.old) map.old }
    requires stands { Stands area depth top (M.content medium.old) map.old }
    requires depth_in { depth ≤ 3 }
    requires index_in { index < 128 ^ 3 }
    requires room { 3 ≤ free_count map.old }
    ensures ok { IfOk result (λ at.
        Deepens area depth top (M.content medium.old) map.old at.0 at.1 (M.content medium.new) map.new) }
    ensures place { IfOk result (λ at. index < 128 ^ at.0) }
    ensures depth_in { IfOk result (λ at. at.0 ≤ 3) }
    ensures fits { IfOk result (λ _. Fits area (M.size medium.new) map.new) }
    ensures room { free_count map.old ≤ free_count map.new + 3 }
    ensures len { length map.new ≡ length map.old }
    ensures size { M.size medium.new ≡ M.size medium.old }
    ensures cause { WriteHasCause (M.faults medium.old) (M.faults medium.new) result }
{
    let mut depth = depth;
    let mut top = top;
    'levels: while span(depth) <= index {
        top = raise_tree(medium, map, area, top)?;
        depth += 1;
    }
    Ok((depth, top))
}
