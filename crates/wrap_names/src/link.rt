//! LINK (RFC 1094, 2.2.13).

ghost use Rattle.std.specs.Prelude.{◌≡◌, ◌++◌, ◌∷◌, [], List, true, nat_le, length, IfOk, OnOk};
ghost use Rattle.nfs2_types.specs.Call.{call_fits};
ghost use Rattle.nfs2_types.specs.Call as calls;
ghost use Rattle.nfs2_types.specs.declared.Cred.{Cred};
ghost use Rattle.abs_model.specs.declared.entry.Entry.{Entry};
ghost use Rattle.abs_model.specs.Array.{changed};
ghost use Rattle.abs_model.specs.Machine.{refusals};
ghost use Rattle.conf_map.specs.Stands.{Stands, StandValid, StandsValid, AreWithin};
ghost use Rattle.conf_map.specs.Tallied.{Tallied};
ghost use Rattle.conf_map.specs.Performs.{CanPerform, Performs};
ghost use Rattle.conf_map.specs.Notice.{Watched, NoticedAll};
ghost use Rattle.wrap_names.specs.Adds.{object_tests, new_tests, IsAlone, IsNew, IsLink};
ghost use Rattle.conf_map.specs.Found.{Finds};
ghost use Rattle.node_changes.specs.Links.{names_both, CanLink};

use crate::find::Found;
use conf_map::{Located, Modify, find_name, is_dir, locate, no_room, tell_both};
use nfs2_types::{Handle, Limits, NfsResult, Stat, Time, stat};
use node_changes::add_link;
use server_trait::{ConfTable, FileServer, Srv, WrapErr};

/// The bytes that a name uses.
const NAME_BYTES: u32 = 512;

/// The object of a LINK, or the status of the first refusal that says nothing of the name: STALE of either, or PERM of
/// a directory.
fn find_object(
    server: &mut Srv,
    table: &ConfTable,
    node: &Handle,
    dir: &Handle,
) -> Result<Result<Located, Stat>, WrapErr>
    requires stands { (A : List Entry) × StandValid (state server.old).tree table.now A }
    ensures found { IfOk result (λ r. (A : List Entry) →
        StandValid (state server.old).tree table.now A →
        Finds (object_tests A node.now dir.now) (IsAlone A table.now.rows.items node.now dir.now) r) }
    ensures same { OnOk result ((state server.new).tree ≡ (state server.old).tree) }
    ensures watched { Watched (state server.old) (state server.new) result }
{
    let Some(at) = locate(table, node) else {
        return Ok(Err(stat::STALE));
    };
    if locate(table, dir).is_none() {
        return Ok(Err(stat::STALE));
    }
    if is_dir(server, table, &at)? {
        return Ok(Err(stat::PERM));
    }
    Ok(Ok(at))
}

/// The directory of a name that is new in it, or the status of the first refusal: STALE, NOTDIR, ACCES, PERM or EXIST.
fn find_new(
    server: &mut Srv,
    table: &ConfTable,
    dir: &Handle,
    name: &[u8],
) -> Result<Result<Located, Stat>, WrapErr>
    requires stands { (A : List Entry) × StandValid (state server.old).tree table.now A }
    requires short { nat_le (length name.now) 255 ≡ true }
    ensures found { IfOk result (λ r. (A : List Entry) →
        StandValid (state server.old).tree table.now A →
        Finds (new_tests A dir.now name.now) (IsNew A table.now.rows.items dir.now name.now) r) }
    ensures same { OnOk result ((state server.new).tree ≡ (state server.old).tree) }
    ensures watched { Watched (state server.old) (state server.new) result }
{
    let named = match find_name(server, table, dir, name, stat::PERM)? {
        Ok(named) => named,
        Err(refused) => return Ok(Err(refused)),
    };
    match named.at {
        Some(_) => Ok(Err(stat::EXIST)),
        None => Ok(Ok(named.dir)),
    }
}

/// The directory and the object of a LINK, or the status of the first refusal.
fn find_link(
    server: &mut Srv,
    table: &ConfTable,
    limits: &Limits,
    node: &Handle,
    dir: &Handle,
    name: &[u8],
) -> Result<Result<Found, Stat>, WrapErr>
    requires stands { (A : List Entry)
        × StandsValid limits.now (state server.old).tree table.now A }
    requires within { AreWithin limits.now }
    requires short { nat_le (length name.now) 255 ≡ true }
    ensures found { IfOk result (λ r. (A : List Entry) →
        StandsValid limits.now (state server.old).tree table.now A →
        Finds (refusals A limits.now (calls.link node.now dir.now name.now))
        (IsLink A limits.now table.now.rows.items node.now dir.now name.now) r) }
    ensures same { OnOk result ((state server.new).tree ≡ (state server.old).tree) }
    ensures watched { Watched (state server.old) (state server.new) result }
{
    let at = match find_object(server, table, node, dir)? {
        Ok(at) => at,
        Err(refused) => return Ok(Err(refused)),
    };
    let d = match find_new(server, table, dir, name)? {
        Ok(d) => d,
        Err(refused) => return Ok(Err(refused)),
    };
    if no_room(table, limits, 0, NAME_BYTES) {
        return Ok(Err(stat::NOSPC));
    }
    Ok(Ok(Found { dir: d, at }))
}

/// Tells of the directory and of the object, and gives it one name more.
fn tell_and_link<M: Modify>(
    server: &mut Srv,
    table: &mut ConfTable,
    new: &Found,
    name: &[u8],
    time: Time,
    saver: &mut M,
) -> Result<(), WrapErr>
    requires { (A : List Entry)
        × CanLink (state server.old) table.old A name.now new.now.dir new.now.at }
    ensures stands { OnOk result ((A : List Entry) →
        CanLink (state server.old) table.old A name.now new.now.dir new.now.at →
        Stands (state server.new).tree table.new
        (changed (names_both A new.now.dir.index name.now new.now.at.index time) A)) }
    ensures tallied { OnOk result ((A : List Entry) →
        CanLink (state server.old) table.old A name.now new.now.dir new.now.at →
        Tallied table.new (changed (names_both A new.now.dir.index name.now new.now.at.index time) A)) }
    ensures told { OnOk result (M.told saver.new
        ≡ M.told saver.old ++ (new.now.dir.index ∷ new.now.at.index ∷ [])) }
    ensures noticed { OnOk result ((A : List Entry) → StandValid (state server.old).tree table.old A →
        NoticedAll M.noticed A saver.old (new.now.dir.index ∷ new.now.at.index ∷ []) saver.new) }
    ensures watched { Watched (state server.old) (state server.new) result }
{
    tell_both(server, table, new.dir.index, new.at.index, saver)?;
    add_link(server, table, &new.dir, name, &new.at, time)?;
    Ok(())
}

/// Gives a file or a link one name more.
pub fn link<M: Modify>(
    server: &mut Srv,
    table: &mut ConfTable,
    limits: &Limits,
    time: Time,
    node: &Handle,
    dir: &Handle,
    name: &[u8],
    saver: &mut M,
) -> Result<NfsResult, WrapErr>
    requires can { CanPerform limits.now (state server.old) table.old time }
    requires fits { call_fits (calls.link node.now dir.now name.now) ≡ true }
    ensures performs { IfOk result (λ r. (A : List Entry) (cred : Cred) →
        StandsValid limits.now (state server.old).tree table.old A →
        Performs M.told M.noticed limits.now cred time (calls.link node.now dir.now name.now)
        A r (state server.new).tree table.new saver.old saver.new) }
    ensures watched { Watched (state server.old) (state server.new) result }
{
    let new = match find_link(server, table, limits, node, dir, name)? {
        Ok(new) => new,
        Err(refused) => return Ok(NfsResult::Refused(refused)),
    };
    tell_and_link(server, table, &new, name, time, saver)?;
    Ok(NfsResult::Done)
}
