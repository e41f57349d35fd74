//! What RENAME has to do.

ghost use Rattle.std.specs.Prelude.{◌≡◌, true, nat_le, List, length, IfOk, OnOk};
ghost use Rattle.abs_model.specs.declared.entry.Entry.{Entry};
ghost use Rattle.conf_map.specs.Notice.{Watched};
ghost use Rattle.conf_map.specs.Stands.{StandValid};
ghost use Rattle.wrap_names.specs.Renames.{leads_to, rename_tests, IsPlanned};
ghost use Rattle.conf_map.specs.Found.{Finds};

use crate::ends::{Ends, ends_of};
use crate::replace::move_refusal;
use nfs2_types::{Handle, Stat};
use server_trait::{ConfTable, FileServer, Srv, WrapErr};

/// Whether the second name leads to the object to which the first leads.
fn leads_to_one(ends: &Ends) -> bool
    ensures { result ≡ leads_to ends.now.over ends.now.at.index }
{
    match ends.over {
        Some(over) => ends.at.index == over.index,
        None => false,
    }
}

/// The ends of a move, `None` where both names lead to one object, or the status of the first refusal.
pub fn plan(
    server: &mut Srv,
    table: &ConfTable,
    from: &Handle,
    name: &[u8],
    to: &Handle,
    to_name: &[u8],
) -> Result<Result<Option<Ends>, Stat>, WrapErr>
    requires stands { (A : List Entry) × StandValid (state server.old).tree table.now A }
    requires short { nat_le (length name.now) 255 ≡ true }
    requires to_short { nat_le (length to_name.now) 255 ≡ true }
    ensures found { IfOk result (λ r. (A : List Entry) →
        StandValid (state server.old).tree table.now A →
        Finds (rename_tests A from.now name.now to.now to_name.now)
        (IsPlanned A table.now.rows.items from.now name.now to.now to_name.now) r) }
    ensures same { OnOk result ((state server.new).tree ≡ (state server.old).tree) }
    ensures watched { Watched (state server.old) (state server.new) result }
{
    let ends = match ends_of(server, table, from, name, to, to_name)? {
        Ok(ends) => ends,
        Err(refused) => return Ok(Err(refused)),
    };
    if leads_to_one(&ends) {
        return Ok(Ok(None));
    }
    match move_refusal(server, table, &ends)? {
        Some(refused) => Ok(Err(refused)),
        None => Ok(Ok(Some(ends))),
    }
}
