//! WRITE (RFC 1094, 2.2.9).

ghost use Rattle.std.specs.Prelude.{◌≡◌, true, List, IfOk};
ghost use Rattle.nfs2_types.specs.Call.{call_fits};
ghost use Rattle.nfs2_types.specs.Call as calls;
ghost use Rattle.nfs2_types.specs.declared.Cred.{Cred};
ghost use Rattle.abs_model.specs.declared.entry.Entry.{Entry};
ghost use Rattle.conf_map.specs.Notice.{Watched};
ghost use Rattle.conf_map.specs.Performs.{CanPerform, Performs};
ghost use Rattle.conf_map.specs.Stands.{StandsValid};

use crate::target::to_write;
use conf_map::{Modify, fattr_at};
use nfs2_types::{Handle, Limits, NfsResult, Time};
use node_changes::write_file;
use server_trait::{ConfTable, Srv, WrapErr};

/// Puts bytes at an offset of a file, whose times become the time of the call.
pub fn write<M: Modify>(
    server: &mut Srv,
    table: &mut ConfTable,
    limits: &Limits,
    time: Time,
    file: &Handle,
    offset: u32,
    bytes: &[u8],
    saver: &mut M,
) -> Result<NfsResult, WrapErr>
    requires can { CanPerform limits.now (state server.old) table.old time }
    requires fits { call_fits (calls.write file.now offset bytes.now) ≡ true }
    ensures performs { IfOk result (λ r. (A : List Entry) (cred : Cred) →
        StandsValid limits.now (state server.old).tree table.old A →
        Performs M.told M.noticed limits.now cred time (calls.write file.now offset bytes.now) A r
        (state server.new).tree table.new saver.old saver.new) }
    ensures watched { Watched (state server.old) (state server.new) result }
{
    let target = match to_write(server, table, limits, file, offset, bytes)? {
        Ok(target) => target,
        Err(refused) => return Ok(NfsResult::Refused(refused)),
    };
    saver.modify(server, table, target.at.index)?;
    write_file(
        server,
        table,
        &target.at,
        target.attr.size,
        offset,
        bytes,
        time,
    )?;
    let fattr = fattr_at(server, table, &target.at)?;
    Ok(NfsResult::Attr(fattr))
}
