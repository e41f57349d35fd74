//! A whole chunk, written.

ghost use Rattle.std.specs.Prelude.{◌≤◌, ◌+◌, OnOk};
ghost use Rattle.server_trait.specs.Step.{HasTree};

use nfs2_types::Handle;
use server_trait::FileServer;
use std::test::Fail;

/// Writes 480 bytes to a file at an offset, which is one record where the offset is a multiple of 480.
pub fn put_chunk<S: FileServer>(
    server: &mut S,
    file: &Handle,
    offset: u32,
    byte: u8,
) -> Result<(), Fail>
    requires tree { HasTree (S.state server.old) }
    requires end { offset + 480 ≤ 8388608 }
    ensures { OnOk result (HasTree (S.state server.new)) }
{
    let count = server.write(file, offset, &[byte; 480])?;
    if count != 480 {
        return Err("a whole chunk".into());
    }
    Ok(())
}
