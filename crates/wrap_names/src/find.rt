//! Names that a call takes out, and where they lead.

ghost use Rattle.std.specs.Prelude.{◌≡◌, List, true, nat_le, length, IfOk, OnOk};
ghost use Rattle.abs_model.specs.declared.entry.Entry.{Entry};
ghost use Rattle.abs_model.specs.Machine.{old_name_tests};
ghost use Rattle.conf_map.specs.Notice.{Watched};
ghost use Rattle.conf_map.specs.Stands.{StandValid};
ghost use Rattle.conf_map.specs.Found.{Finds};
ghost use Rattle.wrap_names.specs.Present.{IsOld};

use conf_map::{Located, find_name};
use nfs2_types::{Handle, Stat, stat};
use server_trait::{ConfTable, FileServer, Srv, WrapErr};

/// A directory, and the object to which one of its names leads.
#[derive(Clone, Copy, Debug)]
pub struct Found {
    pub dir: Located,
    pub at: Located,
}

/// Where a name leads, or the status of the first refusal: STALE, NOTDIR, ACCES, PERM, or NOENT without the name.
pub fn find_old(
    server: &mut Srv,
    table: &ConfTable,
    dir: &Handle,
    name: &[u8],
) -> Result<Result<Found, Stat>, WrapErr>
    requires stands { (A : List Entry) × StandValid (state server.old).tree table.now A }
    requires short { nat_le (length name.now) 255 ≡ true }
    ensures found { IfOk result (λ r. (A : List Entry) →
        StandValid (state server.old).tree table.now A →
        Finds (old_name_tests A dir.now name.now) (IsOld A table.now.rows.items dir.now name.now) r) }
    ensures same { OnOk result ((state server.new).tree ≡ (state server.old).tree) }
    ensures watched { Watched (state server.old) (state server.new) result }
{
    let named = match find_name(server, table, dir, name, stat::PERM)? {
        Ok(named) => named,
        Err(refused) => return Ok(Err(refused)),
    };
    match named.at {
        Some(at) => Ok(Ok(Found { dir: named.dir, at })),
        None => Ok(Err(stat::NOENT)),
    }
}
