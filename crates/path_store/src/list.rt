//! The rows of a list.

ghost use Rattle.std.specs.Prelude.{◌≡◌, ◌++◌, IfOk, OnOk, option_map, option_to_list, map as each};
ghost use Rattle.slab.specs.Slab.{get as slot};
ghost use Rattle.path_store.specs.Walks.{listed_at, pair};

use crate::row::PathRow;
use nfs2_types::{Blob, Handle, NoMemory};
use server_trait::Listed;
use slab::Slab;
use std::alloc::Global;

/// The name of a path that begins with so many bytes and a slash, where its row is of the directory. Errors: NoMemory.
pub fn listed_row(
    alloc: Global,
    rows: &Slab<PathRow>,
    dir: &Handle,
    size: usize,
    path: &[u8],
    key: usize,
) -> Result<Option<Listed>, NoMemory>
    ensures { IfOk result (λ o. option_map pair o ≡ listed_at (slot rows.now key) dir.now size path.now) }
{
    let Some(row) = rows.get(key).copied() else {
        return Ok(None);
    };
    if row.dir != *dir {
        return Ok(None);
    }
    if path.len() <= size {
        return Ok(None);
    }
    let name = Blob::from_slice(alloc, &path[size + 1..])?;
    Ok(Some(Listed {
        name,
        handle: row.to,
    }))
}

/// Puts a row after the others, if there is one. Errors: NoMemory.
pub fn push_listed(listed: &mut Vec<Listed>, row: Option<Listed>) -> Result<(), NoMemory>
    ensures { OnOk result (each pair listed.new.items
        ≡ each pair listed.old.items ++ option_to_list (option_map pair row)) }
{
    let Some(row) = row else {
        return Ok(());
    };
    let Ok(()) = listed.push(row) else {
        return Err(NoMemory);
    };
    Ok(())
}
