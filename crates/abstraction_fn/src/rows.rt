//! Reads the names of a directory.

ghost use Rattle.std.specs.Prelude.{◌≡◌, List, true, OnOk, IfOk, map};
ghost use Rattle.abs_model.specs.declared.Entry.{Entry};
ghost use Rattle.abs_model.specs.Array.{entry_at};
ghost use Rattle.abs_model.specs.Objects.{is_dir, names_of as names_in};
ghost use Rattle.conf_map.specs.Stands.{StandValid};
ghost use Rattle.conf_map.specs.Notice.{Watched};
ghost use Rattle.conf_map.specs.Tables.{IsLive};
ghost use Rattle.abstraction_fn.specs.Rows as specs;

use abs_model::{NameRow, Names};
use conf_map::{Located, index_of, names_of};
use server_trait::{ConfTable, Listed, Srv, WrapErr};
use std::alloc::{AllocError, Global};

/// The generation of the row at an index, and 0 past the rows.
fn generation_at(table: &ConfTable, index: u32) -> u32
    ensures { result ≡ specs.generation_at table.now.rows.items index }
{
    match table.rows.get(index as usize) {
        Some(row) => row.generation,
        None => 0,
    }
}

/// The row of a name that the server lists.
fn row_of(table: &ConfTable, listed: Listed) -> NameRow
    ensures { result ≡ specs.row_by table.now listed }
{
    let index = index_of(table, &listed.handle).unwrap_or(0);
    NameRow {
        name: listed.name,
        index,
        generation: generation_at(table, index),
    }
}

/// The rows of names that the server lists.
fn rows_in(alloc: Global, table: &ConfTable, names: Vec<Listed>) -> Result<Vec<NameRow>, AllocError>
    ensures { IfOk result (λ v. v.items ≡ map (specs.row_by table.now) names.items) }
{
    let mut rows = Vec::new(alloc);
    for listed in names {
        rows.push(row_of(table, listed))?;
    }
    Ok(rows)
}

/// The names of a live directory.
pub fn rows_of(
    alloc: Global,
    server: &mut Srv,
    table: &ConfTable,
    dir: &Located,
) -> Result<Names, WrapErr>
    requires dir { (A : List Entry) × (StandValid (state server.old).tree table.now A)
        × (is_dir (entry_at A dir.now.index) ≡ true) }
    requires live { IsLive table.now.rows.items dir.now }
    ensures rows { IfOk result (λ names. (A : List Entry) →
        StandValid (state server.old).tree table.now A → is_dir (entry_at A dir.now.index) ≡ true →
        names ≡ names_in (entry_at A dir.now.index)) }
    ensures same { OnOk result ((state server.new).tree ≡ (state server.old).tree) }
    ensures watched { Watched (state server.old) (state server.new) result }
{
    let listed = names_of(server, table, dir)?;
    let rows = rows_in(alloc, table, listed)?;
    Ok(Names::new(rows))
}
