//! What a walk after a reboot has found.

ghost use Rattle.std.specs.Prelude.{◌<◌, length, OnOk};
ghost use Rattle.restart.specs.Walk.{IsNoted};

use nfs2_types::Handle;
use std::alloc::AllocError;
use std::collections::BTreeMap;

/// The row of each node's number, the new handle of each row that was found, and the rows of the directories among
/// these, in the order found.
#[derive(Drop)]
pub struct Found {
    pub rows: BTreeMap<u64, u32>,
    pub handles: Vec<Option<Handle>>,
    pub dirs: Vec<u32>,
}

/// Notes the new handle of a row, unless it was found before.
pub fn note(found: &mut Found, index: u32, handle: Handle, is_dir: bool) -> Result<(), AllocError>
    requires { index < length found.old.handles.items }
    ensures { OnOk result (IsNoted found.old index handle is_dir found.new) }
{
    if found.handles[index as usize].is_some() {
        return Ok(());
    }
    if is_dir {
        found.dirs.push(index)?;
    }
    found.handles[index as usize] = Some(handle);
    Ok(())
}
