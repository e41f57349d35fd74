//! RENAME (RFC 1094, 2.2.12).

ghost use Rattle.std.specs.Prelude.{◌≡◌, ◌++◌, ℕ, true, List, IfOk, OnOk};
ghost use Rattle.nfs2_types.specs.Call.{call_fits};
ghost use Rattle.nfs2_types.specs.Call as calls;
ghost use Rattle.nfs2_types.specs.declared.Cred.{Cred};
ghost use Rattle.abs_model.specs.declared.entry.Entry.{Entry};
ghost use Rattle.abs_model.specs.Array.{changed};
ghost use Rattle.conf_map.specs.Stands.{Stands, StandValid, StandsValid};
ghost use Rattle.conf_map.specs.Tallied.{Tallied};
ghost use Rattle.conf_map.specs.Performs.{CanPerform, Performs};
ghost use Rattle.conf_map.specs.Notice.{Watched, NoticedAll};
ghost use Rattle.node_changes.specs.Moves.{CanMove};
ghost use Rattle.wrap_names.specs.Renames.{moves, cleared, told_ends, CanReplace};

use crate::ends::Ends;
use crate::plan::plan;
use crate::tell::tell_ends;
use conf_map::Modify;
use nfs2_types::{Handle, Limits, NfsResult, Time};
use node_changes::{drop_name, move_name};
use server_trait::{ConfTable, FileServer, Srv, WrapErr};

/// Takes out the second name, and with its last name what it leads to, where it is there.
fn make_way(
    server: &mut Srv,
    table: &mut ConfTable,
    ends: &Ends,
    to_name: &[u8],
    time: Time,
) -> Result<(), WrapErr>
    requires { (A : List Entry) × (name : List ℕ)
        × CanReplace (state server.old) table.old A name to_name.now ends.now }
    ensures way { OnOk result ((A : List Entry) (name : List ℕ) →
        CanReplace (state server.old) table.old A name to_name.now ends.now →
        CanMove (state server.new) table.new
        (cleared A ends.now.to.index to_name.now ends.now.over time)
        name to_name.now ends.now.from ends.now.to ends.now.at) }
    ensures watched { Watched (state server.old) (state server.new) result }
{
    match ends.over {
        Some(over) => {
            drop_name(server, table, &ends.to, to_name, &over, time)?;
            Ok(())
        }
        None => Ok(()),
    }
}

/// Tells of what a move changes, and moves the name.
fn tell_and_move<M: Modify>(
    server: &mut Srv,
    table: &mut ConfTable,
    ends: &Ends,
    name: &[u8],
    to_name: &[u8],
    time: Time,
    saver: &mut M,
) -> Result<(), WrapErr>
    requires { (A : List Entry) × CanReplace (state server.old) table.old A name.now to_name.now ends.now }
    ensures stands { OnOk result ((A : List Entry) →
        CanReplace (state server.old) table.old A name.now to_name.now ends.now →
        Stands (state server.new).tree table.new (changed (moves A name.now to_name.now ends.now time) A)) }
    ensures tallied { OnOk result ((A : List Entry) →
        CanReplace (state server.old) table.old A name.now to_name.now ends.now →
        Tallied table.new (changed (moves A name.now to_name.now ends.now time) A)) }
    ensures told { OnOk result (M.told saver.new ≡ M.told saver.old ++ told_ends ends.now) }
    ensures noticed { OnOk result ((A : List Entry) → StandValid (state server.old).tree table.old A →
        NoticedAll M.noticed A saver.old (told_ends ends.now) saver.new) }
    ensures watched { Watched (state server.old) (state server.new) result }
{
    tell_ends(server, table, ends, saver)?;
    make_way(server, table, ends, to_name, time)?;
    move_name(
        server, table, &ends.from, name, &ends.to, to_name, &ends.at, time,
    )?;
    Ok(())
}

/// Moves a name. What the second name led to is replaced; where both names lead to one object nothing changes.
pub fn rename<M: Modify>(
    server: &mut Srv,
    table: &mut ConfTable,
    limits: &Limits,
    time: Time,
    from: &Handle,
    name: &[u8],
    to: &Handle,
    to_name: &[u8],
    saver: &mut M,
) -> Result<NfsResult, WrapErr>
    requires can { CanPerform limits.now (state server.old) table.old time }
    requires fits { call_fits (calls.rename from.now name.now to.now to_name.now) ≡ true }
    ensures performs { IfOk result (λ r. (A : List Entry) (cred : Cred) →
        StandsValid limits.now (state server.old).tree table.old A →
        Performs M.told M.noticed limits.now cred time (calls.rename from.now name.now to.now to_name.now)
        A r (state server.new).tree table.new saver.old saver.new) }
    ensures watched { Watched (state server.old) (state server.new) result }
{
    let planned = match plan(server, table, from, name, to, to_name)? {
        Ok(planned) => planned,
        Err(refused) => return Ok(NfsResult::Refused(refused)),
    };
    let Some(ends) = planned else {
        return Ok(NfsResult::Done);
    };
    tell_and_move(server, table, &ends, name, to_name, time, saver)?;
    Ok(NfsResult::Done)
}
