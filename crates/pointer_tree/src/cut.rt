//! Blocks at the end of a tree are given back.

ghost use Rattle.std.specs.Prelude.{◌≡◌, ◌<◌, ◌≤◌, ◌-◌, ◌*◌, ◌^◌, length, IfOk};
ghost use Rattle.outside.specs.Causes.{WriteHasCause};
ghost use Rattle.pointer_tree.specs.Changes.{Lies, Stands, Cuts};

use crate::node::{Area, load, pointer_of, set_pointer, span};
use block_alloc::BlockMap;
use outside::{Medium, MediumErr};

/// How many of the blocks below `keep` fall into a child.
fn part_of(depth: u32, keep: u32, index: u32) -> u32
    requires depth_in { depth ≤ 3 }
    requires index_in { index < 128 }
    ensures { result ≡ keep - index * 128 ^ depth }
{
    let before = u64::from(index) * u64::from(span(depth));
    u64::from(keep).saturating_sub(before) as u32
}

/// Gives back the blocks of a tree from number `keep` on, with the nodes that are left without blocks, and answers the
/// tree's top. After an error nothing is known of the tree.
pub fn cut_tree<M: Medium>(
    medium: &mut M,
    map: &mut BlockMap,
    area: Area,
    depth: u32,
    top: u32,
    keep: u32,
) -> Result<u32, MediumErr>
    requires lies { Lies area (M.size medium.old) map.old }
    requires stands { Stands area depth top (M.content medium.old) map.old }
    requires depth_in { depth ≤ 3 }
    ensures ok { IfOk result (λ left.
        Cuts area depth top keep (M.content medium.old) map.old left (M.content medium.new) map.new) }
    ensures len { length map.new ≡ length map.old }
    ensures size { M.size medium.new ≡ M.size medium.old }
    ensures cause { WriteHasCause (M.faults medium.old) (M.faults medium.new) result }
{
    if top == 0 {
        return Ok(0);
    }
    if keep >= span(depth) {
        return Ok(top);
    }
    if depth == 0 {
        map.give(top);
        return Ok(0);
    }
    let mut node = load(medium, top)?;
    for index in 0..128 {
        let child = pointer_of(&node, index, area);
        let part = part_of(depth - 1, keep, index);
        let left = cut_tree(medium, map, area, depth - 1, child, part)?;
        set_pointer(&mut node, index, area, left);
    }
    if keep == 0 {
        map.give(top);
        return Ok(0);
    }
    medium.write(top, &node)?;
    Ok(top)
}
