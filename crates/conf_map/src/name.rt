//! Names of calls, and where they lead.

ghost use Rattle.std.specs.Prelude.{◌≡◌, List, true, nat_le, length, IfOk, OnOk};
ghost use Rattle.abs_model.specs.declared.entry.Entry.{Entry};
ghost use Rattle.conf_map.specs.Found.{Finds, name_tests, IsNamed};
ghost use Rattle.conf_map.specs.Notice.{Watched};
ghost use Rattle.conf_map.specs.Stands.{StandValid};

use crate::dirs::{follow, in_dir};
use crate::table::Located;
use nfs2_types::{Handle, Stat, is_dot};
use server_trait::{ConfTable, FileServer, Srv, WrapErr};

/// A directory, and the object to which a name leads in it, if it has the name.
#[derive(Clone, Copy, Debug)]
pub struct Named {
    pub dir: Located,
    pub at: Option<Located>,
}

/// Where a name leads that may not be a dot, or the status of the first refusal: STALE, NOTDIR, ACCES, or `dot` for a
/// dot.
pub fn find_name(
    server: &mut Srv,
    table: &ConfTable,
    dir: &Handle,
    name: &[u8],
    dot: Stat,
) -> Result<Result<Named, Stat>, WrapErr>
    requires stands { (A : List Entry) × StandValid (state server.old).tree table.now A }
    requires short { nat_le (length name.now) 255 ≡ true }
    ensures found { IfOk result (λ r. (A : List Entry) →
        StandValid (state server.old).tree table.now A →
        Finds (name_tests A dir.now name.now dot) (IsNamed A table.now.rows.items dir.now name.now) r) }
    ensures same { OnOk result ((state server.new).tree ≡ (state server.old).tree) }
    ensures watched { Watched (state server.old) (state server.new) result }
{
    let d = match in_dir(server, table, dir, name)? {
        Ok(d) => d,
        Err(refused) => return Ok(Err(refused)),
    };
    if is_dot(name) {
        return Ok(Err(dot));
    }
    let at = follow(server, table, &d, name)?;
    Ok(Ok(Named { dir: d, at }))
}
