//! CREATE (RFC 1094, 2.2.10).

ghost use Rattle.std.specs.Prelude.{◌≡◌, true, List, IfOk};
ghost use Rattle.nfs2_types.specs.Call.{call_fits};
ghost use Rattle.nfs2_types.specs.Call as calls;
ghost use Rattle.abs_model.specs.declared.entry.Entry.{Entry};
ghost use Rattle.conf_map.specs.Stands.{StandsValid};
ghost use Rattle.conf_map.specs.Performs.{CanPerform, Performs};
ghost use Rattle.conf_map.specs.Notice.{Watched};

use crate::make::tell_and_add;
use crate::new_attr::attr_for;
use crate::resize::tell_and_resize;
use crate::spot::{Spot, find_spot};
use conf_map::{Modify, node_of};
use nfs2_types::{Cred, Handle, Limits, NfsResult, Sattr, Time};
use node_changes::NewObject;
use server_trait::{ConfTable, FileServer, Srv, WrapErr};

/// Makes a file, or gives a file that is there its size. A present file keeps its mode and its owners.
/// Tells `saver` of each object before the first change. After `Down`, where the server failed, and after `NoMemory`
/// server and table stand for nothing.
pub fn create<M: Modify>(
    server: &mut Srv,
    table: &mut ConfTable,
    limits: &Limits,
    cred: &Cred,
    time: Time,
    dir: &Handle,
    name: &[u8],
    sattr: &Sattr,
    saver: &mut M,
) -> Result<NfsResult, WrapErr>
    requires can { CanPerform limits.now (state server.old) table.old time }
    requires fits { call_fits (calls.create dir.now name.now sattr.now) ≡ true }
    ensures performs { IfOk result (λ r. (A : List Entry) →
        StandsValid limits.now (state server.old).tree table.old A →
        Performs M.told M.noticed limits.now cred.now time (calls.create dir.now name.now sattr.now)
        A r (state server.new).tree table.new saver.old saver.new) }
    ensures watched { Watched (state server.old) (state server.new) result }
{
    let spot = match find_spot(server, table, limits, dir, name, sattr)? {
        Ok(spot) => spot,
        Err(refused) => return Ok(NfsResult::Refused(refused)),
    };
    match spot {
        Spot::Free(place) => {
            let size = sattr.size.unwrap_or(0);
            let new = NewObject::File { size };
            let attr = attr_for(&new, cred, time, sattr);
            let made = tell_and_add(server, table, &place, name, &new, &attr, saver)?;
            let node = node_of(server, table, &made)?;
            Ok(node)
        }
        Spot::Taken(at, before) => {
            tell_and_resize(server, table, &at, before, sattr.size, time, saver)?;
            let node = node_of(server, table, &at)?;
            Ok(node)
        }
    }
}
