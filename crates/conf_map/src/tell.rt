//! Notices of the objects that a call changes.

ghost use Rattle.std.specs.Prelude.{◌≡◌, ◌<◌, ◌++◌, ◌∷◌, [], ℕ, List, OnOk, length};
ghost use Rattle.abs_model.specs.declared.entry.Entry.{Entry};
ghost use Rattle.conf_map.specs.Notice.{Watched, NoticedAll};
ghost use Rattle.conf_map.specs.Stands.{StandValid};

use crate::modify::Modify;
use server_trait::{ConfTable, FileServer, Srv, WrapErr};

/// Tells of two objects, before either is changed.
pub fn tell_both<M: Modify>(
    server: &mut Srv,
    table: &ConfTable,
    first: u32,
    second: u32,
    saver: &mut M,
) -> Result<(), WrapErr>
    requires stands { (A : List Entry) × StandValid (state server.old).tree table.now A }
    requires first { first < length table.now.rows.items }
    requires second { second < length table.now.rows.items }
    ensures told { OnOk result (M.told saver.new ≡ M.told saver.old ++ (first ∷ second ∷ [])) }
    ensures noticed { OnOk result ((A : List Entry) →
        StandValid (state server.old).tree table.now A →
        NoticedAll M.noticed A saver.old (first ∷ second ∷ []) saver.new) }
    ensures same { OnOk result ((state server.new).tree ≡ (state server.old).tree) }
    ensures watched { Watched (state server.old) (state server.new) result }
{
    saver.modify(server, table, first)?;
    saver.modify(server, table, second)?;
    Ok(())
}
