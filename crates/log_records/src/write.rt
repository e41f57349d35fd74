//! Records as they are written.

ghost use Rattle.std.specs.Prelude.{◌≡◌, ◌∷◌, ◌++◌, ◌≤◌, ◌+◌, [], length, take};
ghost use Rattle.log_records.specs.Layout as layout;
ghost use Rattle.log_records.specs.Spelling.{record_of, byte_of, node_value, chunk_value};

use crate::key::NodeId;
use crate::node::NodeRecord;
use log_segments::Key;
use nfs2_types::Kind;
use outside::Block;

/// The most bytes of a chunk.
pub const CHUNK_MAX: usize = 480;

/// The mark of a record that takes its key away, and of one that stands.
const GONE: u8 = 1;

const STANDS: u8 = 2;

/// A block with this mark, key and value, and zeros behind them.
fn block_of(mark: u8, key: &[u8], value: &[u8]) -> Block
    requires { 3 + length key.now + length value.now ≤ 512 }
    ensures { result ≡ record_of mark key.now value.now }
{
    let mut block = [0; 512];
    block[0] = mark;
    block[1] = (key.len() / 256) as u8;
    block[2] = (key.len() % 256) as u8;
    let end = 3 + key.len();
    block[3..end].copy_from_slice(key);
    block[end..end + value.len()].copy_from_slice(value);
    block
}

/// A record that takes a key away.
pub fn gone_record(key: &Key) -> Block
    requires { length key.now ≤ 509 }
    ensures { result ≡ record_of 1 key.now [] }
{
    block_of(GONE, key.as_slice(), &[])
}

/// The value of a node.
fn value_of(node: &NodeRecord) -> [u8; 13]
    ensures { result ≡ node_value node.now }
{
    let mut value = [0; 13];
    value[0] = match node.kind {
        Kind::File => 1,
        Kind::Dir => 2,
        Kind::Link => 3,
    };
    value[1..5].copy_from_slice(&node.mode.to_be_bytes());
    value[5..9].copy_from_slice(&node.uid.to_be_bytes());
    value[9..13].copy_from_slice(&node.gid.to_be_bytes());
    value
}

/// A record of a node.
pub fn node_record(id: &NodeId, node: &NodeRecord) -> Block
    ensures { result ≡ record_of 2 (layout.node_key id.now) (node_value node.now) }
{
    let mut key = [1; 9];
    key[1..].copy_from_slice(id);
    block_of(STANDS, &key, &value_of(node))
}

/// The key of a name, with zeros behind it.
fn name_bytes(dir: &NodeId, name: &[u8]) -> [u8; 264]
    requires { length name.now ≤ 255 }
    ensures { take (9 + length name.now) result ≡ layout.name_key dir.now name.now }
{
    let mut bytes = [0; 264];
    bytes[0] = 2;
    bytes[1..9].copy_from_slice(dir);
    bytes[9..9 + name.len()].copy_from_slice(name);
    bytes
}

/// A record of a name of a directory, which leads to a node.
pub fn name_record(dir: &NodeId, name: &[u8], child: &NodeId) -> Block
    requires { length name.now ≤ 255 }
    ensures { result ≡ record_of 2 (layout.name_key dir.now name.now) child.now }
{
    let key = name_bytes(dir, name);
    block_of(STANDS, &key[..9 + name.len()], child)
}

/// The value of a chunk, with zeros behind it.
fn chunk_bytes(bytes: &[u8]) -> [u8; 482]
    requires { length bytes.now ≤ CHUNK_MAX }
    ensures { take (2 + length bytes.now) result ≡ chunk_value bytes.now }
{
    let mut value = [0; 482];
    value[0] = (bytes.len() / 256) as u8;
    value[1] = (bytes.len() % 256) as u8;
    value[2..2 + bytes.len()].copy_from_slice(bytes);
    value
}

/// The key of a chunk.
fn place_bytes(id: &NodeId, place: u32) -> [u8; 13]
    ensures { result ≡ layout.chunk_key id.now place }
{
    let mut key = [3; 13];
    key[1..9].copy_from_slice(id);
    key[9..13].copy_from_slice(&place.to_be_bytes());
    key
}

/// A record of a chunk of a node's bytes.
pub fn chunk_record(id: &NodeId, place: u32, bytes: &[u8]) -> Block
    requires { length bytes.now ≤ CHUNK_MAX }
    ensures { result ≡ record_of 2 (layout.chunk_key id.now place) (chunk_value bytes.now) }
{
    let value = chunk_bytes(bytes);
    block_of(STANDS, &place_bytes(id, place), &value[..2 + bytes.len()])
}
