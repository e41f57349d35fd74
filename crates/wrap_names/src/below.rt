//! Whether a directory lies below another, by the parents that a table keeps.

ghost use Rattle.std.specs.Prelude.{◌≡◌, List, Option, true, length};
ghost use Rattle.server_trait.specs.Tree.{Tree};
ghost use Rattle.abs_model.specs.declared.entry.Entry.{Entry};
ghost use Rattle.abs_model.specs.Array.{entry_at, climbs_to};
ghost use Rattle.abs_model.specs.Objects as objects;
ghost use Rattle.conf_map.specs.Stands.{StandValid};
ghost use Rattle.wrap_names.specs.RowParents.{parent_in, climbs_in};

use server_trait::ConfTable;

/// The parent that a row keeps, or 0 past the last row.
fn parent_of(table: &ConfTable, index: u32) -> u32
    ensures { result ≡ parent_in table.now.rows.items index }
{
    match table.rows.get(index as usize) {
        Some(row) => row.parent,
        None => 0,
    }
}

/// Whether one comes to a row from another by their parents, in at most as many steps as there are rows. The climb ends
/// at a row that is its own parent.
fn climbs(table: &ConfTable, moved: u32, dir: u32) -> bool
    ensures { result ≡ climbs_in table.now.rows.items moved (length table.now.rows.items) dir }
{
    let mut here = dir;
    for _step in 0..table.rows.len() {
        if here == moved {
            return true;
        }
        let up = parent_of(table, here);
        if up == here {
            return false;
        }
        here = up;
    }
    here == moved
}

/// Whether a live directory is another or lies below it. It asks the server nothing.
pub fn is_below(table: &ConfTable, moved: u32, dir: u32) -> bool
    ensures { (s : Option Tree) (A : List Entry) → StandValid s table.now A →
        objects.is_dir (entry_at A dir) ≡ true → result ≡ climbs_to A moved (length A) dir }
{
    climbs(table, moved, dir)
}
