//! GETATTR (RFC 1094, 2.2.2).

ghost use Rattle.std.specs.Prelude.{◌≡◌, List, IfOk, OnOk};
ghost use Rattle.nfs2_types.specs.Call as calls;
ghost use Rattle.nfs2_types.specs.declared.Cred.{Cred};
ghost use Rattle.nfs2_types.specs.declared.Limits.{Limits};
ghost use Rattle.nfs2_types.specs.declared.Time.{Time};
ghost use Rattle.abs_model.specs.declared.entry.Entry.{Entry};
ghost use Rattle.abs_model.specs.Machine.{result_of};
ghost use Rattle.conf_map.specs.Notice.{Watched};
ghost use Rattle.conf_map.specs.Stands.{StandValid};

use conf_map::{fattr_at, locate};
use nfs2_types::{Handle, NfsResult, stat};
use server_trait::{ConfTable, Srv, WrapErr};

/// The attributes of an object.
pub fn get_attr(server: &mut Srv, table: &ConfTable, node: &Handle) -> Result<NfsResult, WrapErr>
    requires { (A : List Entry) × StandValid (state server.old).tree table.now A }
    ensures result { IfOk result (λ r. (A : List Entry) (limits : Limits) (cred : Cred) (t : Time) →
        StandValid (state server.old).tree table.now A →
        r ≡ result_of A limits cred t (calls.get_attr node.now)) }
    ensures same { OnOk result ((state server.new).tree ≡ (state server.old).tree) }
    ensures watched { Watched (state server.old) (state server.new) result }
{
    let Some(at) = locate(table, node) else {
        return Ok(NfsResult::Refused(stat::STALE));
    };
    let fattr = fattr_at(server, table, &at)?;
    Ok(NfsResult::Attr(fattr))
}
