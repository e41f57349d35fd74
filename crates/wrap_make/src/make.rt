//! A new object in its place, of which is told first.

ghost use Rattle.std.specs.Prelude.{◌≡◌, ◌++◌, ◌∷◌, [], List, IfOk, OnOk};
ghost use Rattle.abs_model.specs.declared.entry.Entry.{Entry};
ghost use Rattle.conf_map.specs.Notice.{Watched, NoticedAll};
ghost use Rattle.conf_map.specs.Stands.{StandValid};
ghost use Rattle.node_changes.specs.Objects.{new_of, object_of};
ghost use Rattle.wrap_make.specs.Places.{CanMake, IsAddedNext};

use abs_model::Attr;
use conf_map::{Located, Modify, tell_both};
use node_changes::{NewObject, Place, add_new};
use server_trait::{ConfTable, Srv, WrapErr};

/// Tells of the directory and of the new object, and makes the object in its place, at the next generation there.
pub fn tell_and_add<M: Modify>(
    server: &mut Srv,
    table: &mut ConfTable,
    place: &Place,
    name: &[u8],
    new: &NewObject,
    attr: &Attr,
    saver: &mut M,
) -> Result<Located, WrapErr>
    requires { (A : List Entry) × CanMake (state server.old) table.old A name.now (new_of new.now) place.now }
    ensures added { IfOk result (λ at. (A : List Entry) →
        CanMake (state server.old) table.old A name.now (new_of new.now) place.now →
        IsAddedNext A place.now name.now attr.now.ctime (object_of (new_of new.now) attr.now)
        (state server.new).tree table.new at) }
    ensures told { OnOk result (M.told saver.new
        ≡ M.told saver.old ++ (place.now.dir.index ∷ place.now.index ∷ [])) }
    ensures noticed { OnOk result ((A : List Entry) → StandValid (state server.old).tree table.old A →
        NoticedAll M.noticed A saver.old (place.now.dir.index ∷ place.now.index ∷ []) saver.new) }
    ensures watched { Watched (state server.old) (state server.new) result }
{
    tell_both(server, table, place.dir.index, place.index, saver)?;
    let generation = table.rows[place.index as usize].generation + 1;
    table.lowest = place.index;
    let at = add_new(server, table, place, generation, name, new, attr)?;
    Ok(at)
}
