//! The keys of records.

ghost use Rattle.std.specs.Prelude.{◌≡◌, ◌∷◌, ◌++◌, IfOk};
ghost use Rattle.log_records.specs.Layout as layout;

use log_segments::Key;
use nfs2_types::NoMemory;
use std::alloc::{AllocError, Global};

/// The number of a node, the high byte first.
pub type NodeId = [u8; 8];

/// The byte that says what a record is about, a node's id, and more bytes.
fn joined(alloc: Global, about: u8, id: &NodeId, rest: &[u8]) -> Result<Key, NoMemory>
    ensures { IfOk result (λ key. key ≡ about ∷ (id.now ++ rest.now)) }
{
    let mut bytes = Vec::new(alloc);
    bytes.push(about)?;
    bytes.extend_from_slice(id)?;
    bytes.extend_from_slice(rest)?;
    Ok(Key::new(bytes))
}

/// The key of a node.
pub fn node_key(alloc: Global, id: &NodeId) -> Result<Key, NoMemory>
    ensures { IfOk result (λ key. key ≡ layout.node_key id.now) }
{
    joined(alloc, 1, id, &[])
}

/// The key of a name of a directory.
pub fn name_key(alloc: Global, dir: &NodeId, name: &[u8]) -> Result<Key, NoMemory>
    ensures { IfOk result (λ key. key ≡ layout.name_key dir.now name.now) }
{
    joined(alloc, 2, dir, name)
}

/// The key of a chunk of a node's bytes.
pub fn chunk_key(alloc: Global, id: &NodeId, place: u32) -> Result<Key, NoMemory>
    ensures { IfOk result (λ key. key ≡ layout.chunk_key id.now place) }
{
    joined(alloc, 3, id, &place.to_be_bytes())
}
