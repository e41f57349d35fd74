//! A node of a tree: a block of 128 pointers.

ghost use Rattle.std.specs.Prelude.{◌≡◌, ◌≢◌, ◌<◌, ◌≤◌, ◌*◌, ◌^◌, ◌/◌, ◌%◌, ◌-◌, ℕ, IfOk};
ghost use Rattle.outside.specs.Causes.{WriteHasCause};
ghost use Rattle.pointer_tree.specs.Tree.{pointer, zeros};
ghost use Rattle.pointer_tree.specs.Changes.{IsTop};

use outside::{Block, Medium, MediumErr};

/// The blocks that trees are made of: from `first` to below `end`.
#[derive(Clone, Copy, Debug)]
pub struct Area {
    pub first: u32,
    pub end: u32,
}

/// How many blocks a full tree of that depth keeps.
pub(crate) fn span(depth: u32) -> u32
    requires { depth ≤ 3 }
    ensures { result ≡ 128 ^ depth }
{
    match depth {
        0 => 1,
        1 => 128,
        2 => 16_384,
        _ => 2_097_152,
    }
}

/// The child that keeps a block below a node, and the block's number there.
pub(crate) fn place(depth: u32, index: u32) -> (u32, u32)
    requires depth_in { (0 < depth) × (depth ≤ 3) }
    requires index_in { index < 128 ^ depth }
    ensures child { result.0 ≡ index / 128 ^ (depth - 1) }
    ensures child_in { result.0 < 128 }
    ensures rest { result.1 ≡ index % 128 ^ (depth - 1) }
    ensures rest_in { result.1 < 128 ^ (depth - 1) }
{
    let span = span(depth - 1);
    (index / span, index % span)
}

/// A block of zeros, which is a node without pointers.
#[tactic(auto, unfolding(crate::specs::Tree::zeros))]
pub(crate) fn zero_block() -> Block
    ensures { result ≡ zeros }
{
    [0; 512]
}

/// The pointer at an index of a node: big-endian, and 0 where it names no block of the area.
#[tactic(auto, unfolding(crate::specs::Tree::pointer))]
pub(crate) fn pointer_of(node: &Block, index: u32, area: Area) -> u32
    requires { index < 128 }
    ensures is { result ≡ pointer area node.now index }
    ensures top_is { IsTop area result }
{
    let at = 4 * index as usize;
    let word = u32::from_be_bytes([node[at], node[at + 1], node[at + 2], node[at + 3]]);
    if area.first <= word && word < area.end {
        word
    } else {
        0
    }
}

/// Sets the pointer at an index of a node.
pub(crate) fn set_pointer(node: &mut Block, index: u32, area: Area, next: u32)
    requires index_in { index < 128 }
    requires next_in { IsTop area next }
    ensures here { pointer area node.new index ≡ next }
    ensures there { (i : ℕ) → i ≢ index → pointer area node.new i ≡ pointer area node.old i }
{
    let at = 4 * index as usize;
    let bytes = next.to_be_bytes();
    node[at] = bytes[0];
    node[at + 1] = bytes[1];
    node[at + 2] = bytes[2];
    node[at + 3] = bytes[3];
}

/// The bytes of a block of the medium.
pub(crate) fn load<M: Medium>(medium: &mut M, block: u32) -> Result<Block, MediumErr>
    requires { block < M.size medium.old }
    ensures bytes { IfOk result (λ bytes. bytes ≡ M.content medium.old block) }
    ensures content { M.content medium.new ≡ M.content medium.old }
    ensures size { M.size medium.new ≡ M.size medium.old }
    ensures cause { WriteHasCause (M.faults medium.old) (M.faults medium.new) result }
{
    let mut bytes = [0; 512];
    medium.read(block, &mut bytes)?;
    Ok(bytes)
}
