//! What a server tells of an object.

ghost use Rattle.std.specs.Prelude.{◌≡◌, List, IfOk, OnOk};
ghost use Rattle.abs_model.specs.declared.entry.Entry.{Entry};
ghost use Rattle.abs_model.specs.Array.{entry_at};
ghost use Rattle.conf_map.specs.Found.{IsSeen};
ghost use Rattle.conf_map.specs.Notice.{Watched};
ghost use Rattle.conf_map.specs.Shown.{IsTold};
ghost use Rattle.conf_map.specs.Stands.{StandValid};
ghost use Rattle.conf_map.specs.Tables.{IsLive};

use crate::ask::attr_of;
use crate::table::Located;
use server_trait::{ConfTable, NodeAttr, Srv, WrapErr};

/// What the server tells of a live object: its kind, its mode and owners, and its bytes.
pub fn object_at(server: &mut Srv, table: &ConfTable, at: &Located) -> Result<NodeAttr, WrapErr>
    requires stands { (A : List Entry) × StandValid (state server.old).tree table.now A }
    requires live { IsLive table.now.rows.items at.now }
    ensures seen { IfOk result (λ a. (A : List Entry) →
        StandValid (state server.old).tree table.now A → IsSeen (entry_at A at.now.index) a) }
    ensures told { IfOk result (λ a. (A : List Entry) →
        StandValid (state server.old).tree table.now A → IsTold A table.now.rows.items at.now.index a) }
    ensures same { OnOk result ((state server.new).tree ≡ (state server.old).tree) }
    ensures watched { Watched (state server.old) (state server.new) result }
{
    let attr = attr_of(server, &at.handle)?;
    Ok(attr)
}
