//! The procedures that write a file or set attributes (RFC 1094, 2.2).

ghost use Rattle.std.specs.Prelude.{◌≡◌, true, List, IfOk};
ghost use Rattle.nfs2_types.specs.Call.{call_of, call_fits};
ghost use Rattle.abs_model.specs.declared.entry.Entry.{Entry};
ghost use Rattle.conf_map.specs.Notice.{Watched};
ghost use Rattle.conf_map.specs.Performs.{CanPerform, Performs};
ghost use Rattle.conf_map.specs.Stands.{StandsValid};
ghost use Rattle.wrap_write.specs.Kinds.{is_write_call};

use crate::set_attr::set_attr;
use crate::write::write;
use conf_map::Modify;
use nfs2_types::{Args, Cred, Limits, NfsResult, Time};
use server_trait::{ConfTable, Srv, WrapErr};

/// Does a call that writes a file or sets attributes, and tells `saver` of its object before the first change.
/// After `Down`, where the server failed, and after `NoMemory` server and table stand for nothing.
pub fn write_proc<M: Modify>(
    server: &mut Srv,
    table: &mut ConfTable,
    limits: &Limits,
    cred: &Cred,
    time: Time,
    args: &Args,
    saver: &mut M,
) -> Result<NfsResult, WrapErr>
    requires can { CanPerform limits.now (state server.old) table.old time }
    requires call { is_write_call (call_of args.now) ≡ true }
    requires fits { call_fits (call_of args.now) ≡ true }
    ensures performs { IfOk result (λ r. (A : List Entry) →
        StandsValid limits.now (state server.old).tree table.old A →
        Performs M.told M.noticed limits.now cred.now time (call_of args.now) A r
        (state server.new).tree table.new saver.old saver.new) }
    ensures watched { Watched (state server.old) (state server.new) result }
{
    match args {
        Args::SetAttr { node, sattr } => {
            let set = set_attr(server, table, limits, time, node, sattr, saver)?;
            Ok(set)
        }
        Args::Write {
            file,
            offset,
            bytes,
        } => {
            let written = write(server, table, limits, time, file, *offset, bytes, saver)?;
            Ok(written)
        }
        _ => unreachable!(),
    }
}
