//! A slot of a directory, and its bytes.

ghost use Rattle.std.specs.Prelude.{◌≡◌, ◌≤◌, length, IfOk};
ghost use Rattle.inode_dirs.specs.SlotBytes.{slot_in, slot_bytes};

use nfs2_types::NoMemory;
use std::alloc::Global;

/// A name and the inode that it leads to.
#[derive(Debug, Drop)]
pub struct Slot {
    pub name: Vec<u8>,
    pub inode: u32,
}

/// What the 288 bytes of a slot say.
pub fn parse_slot(alloc: Global, bytes: &[u8]) -> Result<Slot, NoMemory>
    requires { length bytes.now ≡ 288 }
    ensures { IfOk result (λ slot. slot_in bytes.now ≡ (slot.name.items, slot.inode)) }
{
    let end = 8 + bytes[4] as usize;
    let name = Vec::from_slice(alloc, &bytes[8..end])?;
    let inode = u32::from_be_bytes([bytes[0], bytes[1], bytes[2], bytes[3]]);
    Ok(Slot { name, inode })
}

/// The 288 bytes of a slot.
pub fn format_slot(name: &[u8], inode: u32) -> [u8; 288]
    requires { length name.now ≤ 255 }
    ensures { result ≡ slot_bytes name.now inode }
{
    let mut bytes = [0; 288];
    bytes[..4].copy_from_slice(&inode.to_be_bytes());
    bytes[4] = name.len() as u8;
    bytes[8..8 + name.len()].copy_from_slice(name);
    bytes
}
