//! Puts entries into a server.

ghost use Rattle.std.specs.Prelude.{◌≡◌, List, Err, OnOk};
ghost use Rattle.abs_model.specs.declared.entry.Entry.{Entry};
ghost use Rattle.abs_model.specs.Array.{changed};
ghost use Rattle.abs_model.specs.Valid.{Valid};
ghost use Rattle.conf_map.specs.Stands.{StandsValid};
ghost use Rattle.inverse_fn.specs.declared.failure.PutErr.TheVariants.{Invalid};
ghost use Rattle.inverse_fn.specs.Puts.{CanPutObjs, PutWatched};

use crate::changes::with_changes;
use crate::failure::{PutErr, put_err};
use crate::reading::entries_of;
use abs_model::{Change, Entry};
use abs_queries::is_valid;
use nfs2_types::Limits;
use rebuilding::rebuild;
use server_trait::{ConfTable, Srv, WrapErr};
use std::alloc::Global;

/// Puts entries: makes server and table stand for the array in which these stand in place of those of their indexes,
/// whatever kind of server it is. All entries are read, the changed array is tested, and only then is the server wiped
/// and the array built anew; a file with several names is made once, and linked for the others. `Invalid` comes where
/// the changed array is not valid, and then nothing has changed. After another error server and table stand for
/// nothing.
pub fn put_objs(
    alloc: Global,
    server: &mut Srv,
    table: &mut ConfTable,
    limits: &Limits,
    changes: Vec<Change>,
) -> Result<(), PutErr>
    requires can { CanPutObjs limits.now (state server.old) table.old }
    ensures stands { OnOk result ((A : List Entry) → StandsValid limits.now (state server.old).tree table.old A →
        StandsValid limits.now (state server.new).tree table.new (changed changes.items A)) }
    ensures invalid { result ≡ Err Invalid → (A : List Entry) →
        StandsValid limits.now (state server.old).tree table.old A → Valid limits.now (changed changes.items A) → ⊥ }
    ensures unchanged { result ≡ Err Invalid → (state server.new).tree ≡ (state server.old).tree }
    ensures table { result ≡ Err Invalid → table.new ≡ table.old }
    ensures watched { PutWatched (state server.old) (state server.new) result }
{
    let entries = match entries_of(alloc, server, table) {
        Ok(entries) => entries,
        Err(error) => return Err(put_err(error)),
    };
    let entries = with_changes(entries, changes);
    let valid = match is_valid(alloc, entries.as_slice(), limits) {
        Ok(valid) => valid,
        Err(_) => return Err(PutErr::NoMemory),
    };
    if valid {
        match rebuild(alloc, server, table, limits, entries.as_slice()) {
            Ok(()) => return Ok(()),
            Err(error) => return Err(put_err(error)),
        }
    }
    Err(PutErr::Invalid)
}
