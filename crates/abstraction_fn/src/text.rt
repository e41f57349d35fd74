//! Reads the texts of entries.

ghost use Rattle.std.specs.Prelude.{◌≡◌, ◌<◌, List, OnOk, IfOk, length};
ghost use Rattle.abs_model.specs.declared.Entry.{Entry};
ghost use Rattle.abs_model.specs.Array.{entry_at};
ghost use Rattle.abs_text.specs.Text.{entry_text};
ghost use Rattle.conf_map.specs.Stands.{StandValid};
ghost use Rattle.conf_map.specs.Notice.{Watched};

use crate::entry::entry_of;
use abs_text::write_entry;
use server_trait::{ConfTable, Srv, WrapErr};
use std::alloc::Global;

/// The text of the entry at an index, of whatever array server and table stand for. It changes nothing.
pub fn get_obj(
    alloc: Global,
    server: &mut Srv,
    table: &ConfTable,
    index: u32,
) -> Result<Vec<u8>, WrapErr>
    requires stands { (A : List Entry) × StandValid (state server.old).tree table.now A }
    requires within { index < length table.now.rows.items }
    ensures text { IfOk result (λ text. (A : List Entry) → StandValid (state server.old).tree table.now A →
        text.items ≡ entry_text index (entry_at A index)) }
    ensures same { OnOk result ((state server.new).tree ≡ (state server.old).tree) }
    ensures watched { Watched (state server.old) (state server.new) result }
{
    let entry = entry_of(alloc, server, table, index)?;
    let text = write_entry(alloc, index, &entry)?;
    Ok(text)
}
