//! RMDIR (RFC 1094, 2.2.16).

ghost use Rattle.std.specs.Prelude.{◌≡◌, List, true, nat_le, length, IfOk, OnOk};
ghost use Rattle.nfs2_types.specs.Call.{call_fits};
ghost use Rattle.nfs2_types.specs.Call as calls;
ghost use Rattle.nfs2_types.specs.declared.Cred.{Cred};
ghost use Rattle.abs_model.specs.declared.entry.Entry.{Entry};
ghost use Rattle.conf_map.specs.Found.{Finds};
ghost use Rattle.conf_map.specs.Performs.{CanPerform, Performs};
ghost use Rattle.conf_map.specs.Stands.{StandValid, StandsValid};
ghost use Rattle.conf_map.specs.Notice.{Watched};
ghost use Rattle.wrap_names.specs.Present.{no_removal, remove_dir_tests, IsDirName};

use crate::drop::tell_and_drop;
use crate::find::{Found, find_old};
use conf_map::{Modify, attr_of};
use nfs2_types::{Handle, Kind, Limits, NfsResult, Stat, Time, stat};
use server_trait::{ConfTable, FileServer, NodeAttr, Srv, WrapErr};

/// Why a node is not removed as a directory, if it isn't: NOTDIR, or NOTEMPTY of a directory with names.
fn dir_refusal(attr: &NodeAttr) -> Option<Stat>
    ensures { result ≡ no_removal attr.now }
{
    match attr.kind {
        Kind::Dir => {
            if attr.size > 0 {
                Some(stat::NOTEMPTY)
            } else {
                None
            }
        }
        _ => Some(stat::NOTDIR),
    }
}

/// The directory of an RMDIR, or the status of the first refusal: STALE, NOTDIR, ACCES, PERM, NOENT, NOTDIR or
/// NOTEMPTY.
fn find_dir(
    server: &mut Srv,
    table: &ConfTable,
    dir: &Handle,
    name: &[u8],
) -> Result<Result<Found, Stat>, WrapErr>
    requires stands { (A : List Entry) × StandValid (state server.old).tree table.now A }
    requires short { nat_le (length name.now) 255 ≡ true }
    ensures found { IfOk result (λ r. (A : List Entry) →
        StandValid (state server.old).tree table.now A →
        Finds (remove_dir_tests A dir.now name.now) (IsDirName A table.now.rows.items dir.now name.now) r) }
    ensures same { OnOk result ((state server.new).tree ≡ (state server.old).tree) }
    ensures watched { Watched (state server.old) (state server.new) result }
{
    let old = match find_old(server, table, dir, name)? {
        Ok(old) => old,
        Err(refused) => return Ok(Err(refused)),
    };
    let attr = attr_of(server, &old.at.handle)?;
    match dir_refusal(&attr) {
        Some(refused) => Ok(Err(refused)),
        None => Ok(Ok(old)),
    }
}

/// Takes out a directory without names.
pub fn remove_dir<M: Modify>(
    server: &mut Srv,
    table: &mut ConfTable,
    limits: &Limits,
    time: Time,
    dir: &Handle,
    name: &[u8],
    saver: &mut M,
) -> Result<NfsResult, WrapErr>
    requires can { CanPerform limits.now (state server.old) table.old time }
    requires fits { call_fits (calls.remove_dir dir.now name.now) ≡ true }
    ensures performs { IfOk result (λ r. (A : List Entry) (cred : Cred) →
        StandsValid limits.now (state server.old).tree table.old A →
        Performs M.told M.noticed limits.now cred time (calls.remove_dir dir.now name.now)
        A r (state server.new).tree table.new saver.old saver.new) }
    ensures watched { Watched (state server.old) (state server.new) result }
{
    let old = match find_dir(server, table, dir, name)? {
        Ok(old) => old,
        Err(refused) => return Ok(NfsResult::Refused(refused)),
    };
    tell_and_drop(server, table, &old, name, time, saver)?;
    Ok(NfsResult::Done)
}
