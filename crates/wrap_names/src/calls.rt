//! The procedures on names (RFC 1094, 2.2).

ghost use Rattle.std.specs.Prelude.{◌≡◌, true, List, IfOk};
ghost use Rattle.nfs2_types.specs.Call.{call_of, call_fits};
ghost use Rattle.abs_model.specs.declared.entry.Entry.{Entry};
ghost use Rattle.conf_map.specs.Stands.{StandsValid};
ghost use Rattle.conf_map.specs.Performs.{CanPerform, Performs};
ghost use Rattle.conf_map.specs.Notice.{Watched};
ghost use Rattle.wrap_names.specs.Kinds.{is_names_call};

use crate::link::link;
use crate::remove::remove;
use crate::remove_dir::remove_dir;
use crate::rename::rename;
use conf_map::Modify;
use nfs2_types::{Args, Cred, Limits, NfsResult, Time};
use server_trait::{ConfTable, FileServer, Srv, WrapErr};
use wrap_make::{create, make_dir, symlink};

/// Does a call on a name, and tells `saver` of each object before the first change.
/// After `Down`, where the server failed, and after `NoMemory` server and table stand for nothing.
pub fn names_proc<M: Modify>(
    server: &mut Srv,
    table: &mut ConfTable,
    limits: &Limits,
    cred: &Cred,
    time: Time,
    args: &Args,
    saver: &mut M,
) -> Result<NfsResult, WrapErr>
    requires can { CanPerform limits.now (state server.old) table.old time }
    requires call { is_names_call (call_of args.now) ≡ true }
    requires fits { call_fits (call_of args.now) ≡ true }
    ensures performs { IfOk result (λ r. (A : List Entry) →
        StandsValid limits.now (state server.old).tree table.old A →
        Performs M.told M.noticed limits.now cred.now time (call_of args.now)
        A r (state server.new).tree table.new saver.old saver.new) }
    ensures watched { Watched (state server.old) (state server.new) result }
{
    match args {
        Args::Create { dir, name, sattr } => {
            create(server, table, limits, cred, time, dir, name, sattr, saver)
        }
        Args::Symlink {
            dir,
            name,
            text,
            sattr,
        } => symlink(
            server, table, limits, cred, time, dir, name, text, sattr, saver,
        ),
        Args::MkDir { dir, name, sattr } => {
            make_dir(server, table, limits, cred, time, dir, name, sattr, saver)
        }
        Args::Remove { dir, name } => {
            let removed = remove(server, table, limits, time, dir, name, saver)?;
            Ok(removed)
        }
        Args::RmDir { dir, name } => {
            let removed = remove_dir(server, table, limits, time, dir, name, saver)?;
            Ok(removed)
        }
        Args::Rename {
            from,
            name,
            to,
            to_name,
        } => {
            let moved = rename(server, table, limits, time, from, name, to, to_name, saver)?;
            Ok(moved)
        }
        Args::Link { node, dir, name } => {
            let linked = link(server, table, limits, time, node, dir, name, saver)?;
            Ok(linked)
        }
        _ => unreachable!(),
    }
}
