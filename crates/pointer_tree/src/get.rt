//! One block of a tree is read.

ghost use Rattle.std.specs.Prelude.{◌≡◌, ◌<◌, ◌≤◌, ◌^◌, IfOk};
ghost use Rattle.outside.specs.Causes.{WriteHasCause};
ghost use Rattle.pointer_tree.specs.Tree.{block};
ghost use Rattle.pointer_tree.specs.Changes.{IsTop};

use crate::node::{Area, load, place, pointer_of, zero_block};
use outside::{Block, Medium, MediumErr};

/// The bytes of block `index` of a tree, which are zeros where there is no block. It reads at most `depth + 1` blocks.
pub fn get_block<M: Medium>(
    medium: &mut M,
    area: Area,
    depth: u32,
    top: u32,
    index: u32,
) -> Result<Block, MediumErr>
    requires area_in { area.end ≤ M.size medium.old }
    requires not_zero { 1 ≤ area.first }
    requires top_is { IsTop area top }
    requires depth_in { depth ≤ 3 }
    requires index_in { index < 128 ^ depth }
    ensures bytes { IfOk result (λ bytes. bytes ≡ block area (M.content medium.old) depth top index) }
    ensures content { M.content medium.new ≡ M.content medium.old }
    ensures size { M.size medium.new ≡ M.size medium.old }
    ensures cause { WriteHasCause (M.faults medium.old) (M.faults medium.new) result }
{
    if top == 0 {
        return Ok(zero_block());
    }
    let node = load(medium, top)?;
    if depth == 0 {
        return Ok(node);
    }
    let (number, rest) = place(depth, index);
    let child = pointer_of(&node, number, area);
    get_block(medium, area, depth - 1, child, rest)
}
