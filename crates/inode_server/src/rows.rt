//! The rows of a list.

ghost use Rattle.std.specs.Prelude.{◌≡◌, ◌/◌, ◌<◌, ◌≤◌, ℕ, List, Some, IfOk, length, map, slice_get};
ghost use Rattle.inode_dirs.specs.SlotBytes.{slot_in, slots_in};
ghost use Rattle.inode_tree.specs.Kept.{tables_of};
ghost use Rattle.inode_server.specs.Rows.{row_of};

use inode_dirs::parse_slot;
use inode_tree::InodeTables;
use nfs2_types::{Blob, NoMemory};
use server_trait::Listed;
use std::alloc::Global;

/// The row of a slot.
fn listed(alloc: Global, tables: &InodeTables, slot: &[u8]) -> Result<Listed, NoMemory>
    requires size { length slot.now ≡ 288 }
    requires led { (slot_in slot.now).1 < (tables_of tables.now).counts.inodes }
    ensures { IfOk result (λ r. r ≡ row_of (tables_of tables.now).handle (slot_in slot.now)) }
{
    let slot = parse_slot(alloc, slot)?;
    let handle = tables.handle(slot.inode);
    Ok(Listed {
        name: Blob::new(slot.name),
        handle,
    })
}

/// The rows of the slots that a directory's bytes hold, each of which leads to an inode.
pub(crate) fn rows_of(
    alloc: Global,
    tables: &InodeTables,
    bytes: &[u8],
) -> Result<Vec<Listed>, NoMemory>
    requires led { (k : ℕ) (s : List ℕ × ℕ) → slice_get (slots_in (length bytes.now / 288) bytes.now) k ≡ Some s →
        s.1 < (tables_of tables.now).counts.inodes }
    ensures { IfOk result (λ rows. rows.items ≡
        map (row_of (tables_of tables.now).handle) (slots_in (length bytes.now / 288) bytes.now)) }
{
    let mut rows = Vec::new(alloc);
    for slot in 0..bytes.len() / 288 {
        let row = listed(alloc, tables, &bytes[288 * slot..288 * slot + 288])?;
        rows.push(row)?;
    }
    Ok(rows)
}
