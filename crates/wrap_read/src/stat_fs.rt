//! STATFS (RFC 1094, 2.2.18).

ghost use Rattle.std.specs.Prelude.{◌≡◌, ◌≤◌, ◌-◌, ◌/◌, List, Option};
ghost use Rattle.nfs2_types.specs.Call as calls;
ghost use Rattle.nfs2_types.specs.declared.Cred.{Cred};
ghost use Rattle.nfs2_types.specs.declared.Time.{Time};
ghost use Rattle.server_trait.specs.Tree.{Tree};
ghost use Rattle.abs_model.specs.declared.entry.Entry.{Entry};
ghost use Rattle.abs_model.specs.Machine.{result_of};
ghost use Rattle.conf_map.specs.Stands.{StandsValid};

use abs_model::TRANSFER_LIMIT;
use conf_map::locate;
use nfs2_types::{Handle, Limits, NfsResult, stat};
use server_trait::ConfTable;

/// The bytes of a block, in which space is told.
const BLOCK: u32 = 512;

/// How many blocks are free.
fn free_blocks(table: &ConfTable, limits: &Limits) -> u32
    requires { table.now.used ≤ limits.now.t }
    ensures { result ≡ (limits.now.t - table.now.used) / 512 }
{
    (limits.t - table.used as u32) / BLOCK
}

/// The space of the service: transfers of 8,192 bytes, blocks of 512, and how many there are and are free. It asks
/// the server nothing, and takes no memory.
pub fn stat_fs(table: &ConfTable, limits: &Limits, node: &Handle) -> NfsResult
    requires { table.now.used ≤ limits.now.t }
    ensures { (A : List Entry) (s : Option Tree) (cred : Cred) (t : Time) → StandsValid limits.now s table.now A →
        result ≡ result_of A limits.now cred t (calls.stat_fs node.now) }
{
    let Some(_) = locate(table, node) else {
        return NfsResult::Refused(stat::STALE);
    };
    let left = free_blocks(table, limits);
    NfsResult::Space {
        tsize: TRANSFER_LIMIT,
        bsize: BLOCK,
        blocks: limits.t / BLOCK,
        bfree: left,
        bavail: left,
    }
}
