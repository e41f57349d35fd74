//! Objects are made in the staging directory.

ghost use Rattle.std.specs.Prelude.{◌≡◌, ◌<◌, ◌^◌, List, Some, length, IsSomeAnd, OnOk};
ghost use Rattle.server_trait.specs.Tree.{Tree};
ghost use Rattle.abs_model.specs.declared.entry.Entry.{Entry};
ghost use Rattle.abs_model.specs.declared.entry.NameRow.{NameRow};
ghost use Rattle.conf_map.specs.Notice.{Watched};
ghost use Rattle.rebuilding.specs.Make.{CanMake, CanMakeAt, made_at, made_to, staged_at, staged_to};
ghost use Rattle.staging.specs.Staged.{StagedAt};

use abs_model::Entry;
use nfs2_types::Handle;
use server_trait::{ConfTable, Srv, WrapErr};
use staging::{begin, fill, is_null_entry, renew};
use std::alloc::Global;

/// Makes what is to stand at an index, with its bytes, unless what is there stays.
fn make_at(
    alloc: Global,
    server: &mut Srv,
    table: &mut ConfTable,
    staging: &Handle,
    index: u32,
    stay: bool,
    entry: &Entry,
) -> Result<(), WrapErr>
    requires can { IsSomeAnd (state server.old).tree (λ t. (A : List Entry) × (S : List NameRow)
        × CanMakeAt t (state server.old).limits staging.now table.old A S index stay entry.now) }
    ensures made { OnOk result ((t : Tree) (A : List Entry) (S : List NameRow) →
        (state server.old).tree ≡ Some t →
        CanMakeAt t (state server.old).limits staging.now table.old A S index stay entry.now →
        StagedAt (state server.new).tree staging.now table.new (made_at A index stay entry.now)
        (staged_at S index stay entry.now)) }
    ensures watched { Watched (state server.old) (state server.new) result }
{
    if stay {
        return Ok(());
    }
    if is_null_entry(entry) {
        return match renew(server, table, staging, index, entry) {
            Ok(()) => Ok(()),
            Err(_) => Err(WrapErr::NoMemory),
        };
    }
    begin(alloc, server, table, staging, index, entry)?;
    fill(server, table, staging, index, entry)?;
    Ok(())
}

/// Makes all objects that do not stay in the staging directory, each under its index in decimal, with its bytes or
/// text, and directories without names.
pub fn make(
    alloc: Global,
    server: &mut Srv,
    table: &mut ConfTable,
    staging: &Handle,
    after: &[Entry],
    stays: &[bool],
) -> Result<(), WrapErr>
    requires can { IsSomeAnd (state server.old).tree (λ t. (A : List Entry) × (S : List NameRow)
        × CanMake t (state server.old).limits staging.now table.old A S after.now stays.now) }
    requires few { length after.now < 2 ^ 32 }
    requires size { length stays.now ≡ length after.now }
    ensures made { OnOk result ((t : Tree) (A : List Entry) (S : List NameRow) →
        (state server.old).tree ≡ Some t →
        CanMake t (state server.old).limits staging.now table.old A S after.now stays.now →
        StagedAt (state server.new).tree staging.now table.new (made_to A after.now stays.now (length after.now))
        (staged_to S after.now stays.now (length after.now))) }
    ensures watched { Watched (state server.old) (state server.new) result }
{
    for i in 0..after.len() {
        match make_at(alloc, server, table, staging, i as u32, stays[i], &after[i]) {
            Ok(()) => {}
            Err(error) => return Err(error),
        }
    }
    Ok(())
}
