//! What a record says.

ghost use Rattle.std.specs.Prelude.{◌≡◌, IfOk};
ghost use Rattle.log_segments.specs.Record.{is_end, is_gone, key_of};

use crate::key::Key;
use nfs2_types::NoMemory;
use outside::Block;
use std::alloc::Global;

/// Whether no record stands here or behind.
pub(crate) fn is_end(block: &Block) -> bool
    ensures { result ≡ is_end block.now }
{
    block[0] == 0
}

/// Whether the record takes its key away.
pub(crate) fn is_gone(block: &Block) -> bool
    ensures { result ≡ is_gone block.now }
{
    block[0] == 1
}

/// The key of a record.
#[tactic(auto, using(std::proofs::lemmas::List::take_min), unfolding(crate::specs::Record::key_of))]
pub(crate) fn key_of(alloc: Global, block: &Block) -> Result<Key, NoMemory>
    ensures { IfOk result (λ key. key ≡ key_of block.now) }
{
    let size = 256 * (block[1] as usize) + (block[2] as usize);
    let rest = &block[3..];
    let key = &rest[..size.min(rest.len())];
    Key::from_slice(alloc, key)
}
