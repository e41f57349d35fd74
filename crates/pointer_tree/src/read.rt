//! A range of a tree's bytes is read.

ghost use Rattle.std.specs.Prelude.{◌≡◌, ◌<◌, ◌≤◌, ◌+◌, ◌*◌, ◌^◌, ◌-◌, IfOk};
ghost use Rattle.outside.specs.Causes.{WriteHasCause};
ghost use Rattle.pointer_tree.specs.Tree.{block};
ghost use Rattle.pointer_tree.specs.Changes.{IsTop};
ghost use Rattle.pointer_tree.specs.Bytes.{bytes_from};

use crate::get::get_block;
use crate::node::Area;
use outside::{Medium, MediumErr};
use std::alloc::Global;

/// Where the part of a block ends that begins at `start` and is to have at most `left` bytes.
fn stop(start: u32, left: u32) -> u32
    requires start_in { start < 512 }
    requires some { 0 < left }
    ensures past { start < result }
    ensures within { result ≤ 512 }
    ensures most { result ≤ start + left }
{
    if left < 512 - start {
        start + left
    } else {
        512
    }
}

/// The bytes of a tree from a place to another. It reads `depth + 1` blocks for each block of them.
pub fn read_bytes<M: Medium>(
    alloc: Global,
    medium: &mut M,
    area: Area,
    depth: u32,
    top: u32,
    from: u32,
    to: u32,
) -> Result<Vec<u8>, MediumErr>
    requires area_in { area.end ≤ M.size medium.old }
    requires not_zero { 1 ≤ area.first }
    requires top_is { IsTop area top }
    requires depth_in { depth ≤ 3 }
    requires from_in { from ≤ to }
    requires to_in { to ≤ 512 * 128 ^ depth }
    ensures bytes { IfOk result (λ bytes.
        bytes.items ≡ bytes_from (block area (M.content medium.old) depth top) from (to - from)) }
    ensures content { M.content medium.new ≡ M.content medium.old }
    ensures size { M.size medium.new ≡ M.size medium.old }
    ensures cause { WriteHasCause (M.faults medium.old) (M.faults medium.new) result }
{
    let mut out = Vec::new(alloc);
    let mut at = from;
    while at < to {
        let node = get_block(medium, area, depth, top, at / 512)?;
        let start = at % 512;
        let end = stop(start, to - at);
        match out.extend_from_slice(&node[start as usize..end as usize]) {
            Ok(()) => {}
            Err(_) => return Err(MediumErr::NoMemory),
        }
        at += end - start;
    }
    Ok(out)
}
