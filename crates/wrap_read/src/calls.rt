//! Reading calls by procedure.

ghost use Rattle.std.specs.Prelude.{◌≡◌, List, true, IfOk, OnOk};
ghost use Rattle.nfs2_types.specs.Call.{call_of, call_fits};
ghost use Rattle.nfs2_types.specs.declared.Cred.{Cred};
ghost use Rattle.nfs2_types.specs.declared.Time.{Time};
ghost use Rattle.abs_model.specs.declared.entry.Entry.{Entry};
ghost use Rattle.abs_model.specs.Machine.{result_of};
ghost use Rattle.conf_map.specs.Notice.{Watched};
ghost use Rattle.conf_map.specs.Stands.{AreWithin, StandsValid};
ghost use Rattle.wrap_read.specs.Reads.{is_read_call};

use crate::content::{read, read_link};
use crate::get_attr::get_attr;
use crate::lookup::lookup;
use crate::read_dir::read_dir;
use crate::stat_fs::stat_fs;
use nfs2_types::{Args, Limits, NfsResult};
use server_trait::{ConfTable, Srv, WrapErr};

/// Answers a call that only reads, on a server and a table that stand for a valid array.
pub fn read_proc(
    server: &mut Srv,
    table: &ConfTable,
    limits: &Limits,
    args: &Args,
) -> Result<NfsResult, WrapErr>
    requires stands { (A : List Entry) × StandsValid limits.now (state server.old).tree table.now A }
    requires within { AreWithin limits.now }
    requires reads { is_read_call (call_of args.now) ≡ true }
    requires fits { call_fits (call_of args.now) ≡ true }
    ensures result { IfOk result (λ r. (A : List Entry) (cred : Cred) (t : Time) →
        StandsValid limits.now (state server.old).tree table.now A →
        r ≡ result_of A limits.now cred t (call_of args.now)) }
    ensures same { OnOk result ((state server.new).tree ≡ (state server.old).tree) }
    ensures watched { Watched (state server.old) (state server.new) result }
{
    match *args {
        Args::GetAttr { node } => get_attr(server, table, &node),
        Args::Lookup { dir, name } => lookup(server, table, &dir, name),
        Args::ReadLink { node } => read_link(server, table, &node),
        Args::Read {
            file,
            offset,
            count,
        } => read(server, table, &file, offset, count),
        Args::ReadDir { dir, cookie, count } => read_dir(server, table, &dir, cookie, count),
        Args::StatFs { node } => Ok(stat_fs(table, limits, &node)),
        _ => Ok(NfsResult::Nothing),
    }
}
