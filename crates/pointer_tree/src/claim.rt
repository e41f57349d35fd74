//! The blocks that a tree uses are claimed.

ghost use Rattle.std.specs.Prelude.{◌≡◌, ◌<◌, ◌≤◌, ◌+◌, ◌*◌, length, OnOk};
ghost use Rattle.outside.specs.Causes.{WriteHasCause};
ghost use Rattle.pointer_tree.specs.Changes.{IsTop, Lies, Claims};

use crate::node::{Area, load, pointer_of};
use block_alloc::BlockMap;
use outside::{Medium, MediumErr};

/// Claims each block that a tree uses. It reads the tree's nodes, and no block of data but one that is a top.
pub fn claim_tree<M: Medium>(
    medium: &mut M,
    map: &mut BlockMap,
    area: Area,
    depth: u32,
    top: u32,
) -> Result<(), MediumErr>
    requires lies { Lies area (M.size medium.old) map.old }
    requires top_is { IsTop area top }
    requires depth_in { depth ≤ 3 }
    ensures ok { OnOk result (Claims area depth top (M.content medium.old) map.old map.new) }
    ensures content { M.content medium.new ≡ M.content medium.old }
    ensures len { length map.new ≡ length map.old }
    ensures size { M.size medium.new ≡ M.size medium.old }
    ensures cause { WriteHasCause (M.faults medium.old) (M.faults medium.new) result }
{
    if top == 0 {
        return Ok(());
    }
    map.claim(top);
    if depth == 0 {
        return Ok(());
    }
    let node = load(medium, top)?;
    for index in 0..128 {
        let child = pointer_of(&node, index, area);
        claim_tree(medium, map, area, depth - 1, child)?;
    }
    Ok(())
}
