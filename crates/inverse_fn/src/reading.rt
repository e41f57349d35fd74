//! All entries of an array.

ghost use Rattle.std.specs.Prelude.{◌≡◌, ◌<◌, ◌^◌, ◌++◌, ◌∷◌, [], List, IfOk, OnOk, length};
ghost use Rattle.abs_model.specs.declared.entry.Entry.{Entry};
ghost use Rattle.conf_map.specs.Notice.{Watched};
ghost use Rattle.conf_map.specs.Stands.{StandValid};

use abs_model::Entry;
use abstraction_fn::entry_of;
use server_trait::{ConfTable, Srv, WrapErr};
use std::alloc::{AllocError, Global};

/// Keeps one more entry.
fn add(entries: &mut Vec<Entry>, entry: Entry) -> Result<(), AllocError>
    ensures { OnOk result (entries.new.items ≡ entries.old.items ++ entry ∷ []) }
{
    entries.push(entry)?;
    Ok(())
}

/// The entries of the array for which server and table stand. It changes nothing.
pub fn entries_of(alloc: Global, server: &mut Srv, table: &ConfTable) -> Result<Vec<Entry>, WrapErr>
    requires stands { (A : List Entry) × StandValid (state server.old).tree table.now A }
    requires few { length table.now.rows.items < 2 ^ 32 }
    ensures entries { IfOk result (λ v. (A : List Entry) →
        StandValid (state server.old).tree table.now A → v.items ≡ A) }
    ensures same { OnOk result ((state server.new).tree ≡ (state server.old).tree) }
    ensures watched { Watched (state server.old) (state server.new) result }
{
    let mut entries = Vec::new(alloc);
    for i in 0..table.rows.len() {
        let entry = match entry_of(alloc, server, table, i as u32) {
            Ok(entry) => entry,
            Err(error) => return Err(error),
        };
        add(&mut entries, entry)?;
    }
    Ok(entries)
}
