//! What records say.

ghost use Rattle.std.specs.Prelude.{◌≡◌, ◌==◌, ◌≤◌, ◌+◌, IfOk, length, get_or, take, drop};
ghost use Rattle.log_segments.specs.Record.{key_of};
ghost use Rattle.log_records.specs.Layout.{key_size, kind_of, word_at, value_of, node_in, child_in, chunk_in};

use crate::key::NodeId;
use crate::node::NodeRecord;
use nfs2_types::{Kind, NoMemory};
use outside::Block;
use std::alloc::Global;

/// Whether a record is about a node itself.
pub fn is_of_node(block: &Block) -> bool
    requires { 1 ≤ key_size block.now }
    ensures { result ≡ (get_or (key_of block.now) 0 0 == 1) }
{
    block[3] == 1
}

/// Whether a record is about a name.
pub fn is_of_name(block: &Block) -> bool
    requires { 1 ≤ key_size block.now }
    ensures { result ≡ (get_or (key_of block.now) 0 0 == 2) }
{
    block[3] == 2
}

/// The id of the node that a record is about, or whose name or chunk it is about.
pub fn read_id(block: &Block) -> NodeId
    requires { 9 ≤ key_size block.now }
    ensures { result ≡ take 8 (drop 1 (key_of block.now)) }
{
    let mut id = [0; 8];
    id.copy_from_slice(&block[4..12]);
    id
}

/// The value of a record.
fn value(block: &Block) -> &[u8]
    requires { key_size block.now ≤ 509 }
    ensures value { result.now ≡ value_of block.now }
    ensures size { length result.now + key_size block.now ≡ 509 }
{
    let size = 256 * (block[1] as usize) + (block[2] as usize);
    &block[3 + size..]
}

/// The number in four bytes of a value, from this one on.
fn word(value: &[u8], at: usize) -> u32
    requires { at + 4 ≤ length value.now }
    ensures { result ≡ word_at at value.now }
{
    let mut word = [0; 4];
    word.copy_from_slice(&value[at..at + 4]);
    u32::from_be_bytes(word)
}

/// The kind of node that a byte stands for.
fn kind(byte: u8) -> Kind
    ensures { result ≡ kind_of byte }
{
    match byte {
        1 => Kind::File,
        2 => Kind::Dir,
        _ => Kind::Link,
    }
}

/// What a record says of a node.
#[tactic(auto, unfolding(crate::specs::Layout::node_in))]
pub fn read_node(block: &Block) -> NodeRecord
    requires { key_size block.now + 13 ≤ 509 }
    ensures { result ≡ node_in (value_of block.now) }
{
    let value = value(block);
    NodeRecord {
        kind: kind(value[0]),
        mode: word(value, 1),
        uid: word(value, 5),
        gid: word(value, 9),
    }
}

/// The node to which a name leads.
pub fn read_child(block: &Block) -> NodeId
    requires { key_size block.now + 8 ≤ 509 }
    ensures { result ≡ child_in (value_of block.now) }
{
    let mut child = [0; 8];
    child.copy_from_slice(&value(block)[..8]);
    child
}

/// The bytes of a chunk.
pub fn read_chunk(alloc: Global, block: &Block) -> Result<Vec<u8>, NoMemory>
    requires { key_size block.now + 2 ≤ 509 }
    ensures { IfOk result (λ bytes. bytes.items ≡ chunk_in (value_of block.now)) }
{
    let value = value(block);
    let size = 256 * (value[0] as usize) + (value[1] as usize);
    let rest = &value[2..];
    Ok(Vec::from_slice(alloc, &rest[..size.min(rest.len())])?)
}
