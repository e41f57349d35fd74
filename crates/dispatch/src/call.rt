//! A call in, and its reply out.

ghost use Rattle.std.specs.Prelude.{◌≡◌, true, List, IfOk};
ghost use Rattle.nfs2_types.specs.Times.{is_time};
ghost use Rattle.abs_model.specs.declared.Entry.{Entry};
ghost use Rattle.conf_map.specs.Stands.{StandsValid, AreWithin, HasRoom};
ghost use Rattle.conf_map.specs.Notice.{Watched};
ghost use Rattle.dispatch.specs.Steps.{Answers};
ghost use Rattle.dispatch.specs.Answer.{answer as answer_of};

use crate::mount::mount_word;
use crate::nfs::nfs_word;
use crate::reply::{refuse, written};
use conf_map::Modify;
use nfs2_types::{Limits, Time, Word};
use rpc_core::{CallHead, NFS, read_call};
use server_trait::{ConfTable, Srv, WrapErr};
use std::alloc::Global;

/// The reply to the bytes of a request, or silence. It asks the server of this table, tells `saver` of each object
/// before it changes, and leaves server and table standing for nothing after an error. `Down`: the server failed.
pub fn answer<M: Modify>(
    alloc: Global,
    server: &mut Srv,
    table: &mut ConfTable,
    limits: &Limits,
    time: Time,
    call: &[u8],
    saver: &mut M,
) -> Result<Word, WrapErr>
    requires stands { (A : List Entry) × StandsValid limits.now (state server.old).tree table.old A }
    requires within { AreWithin limits.now }
    requires room { HasRoom limits.now (state server.old).limits }
    requires time { is_time time ≡ true }
    ensures answers { IfOk result (λ word. (A : List Entry) →
        StandsValid limits.now (state server.old).tree table.old A →
        Answers M.told M.noticed limits.now A (answer_of A limits.now time call.now)
        word (state server.new).tree table.new saver.old saver.new) }
    ensures watched { Watched (state server.old) (state server.new) result }
{
    match read_call(call) {
        CallHead::Silent => Ok(Word::Silent),
        CallHead::Refuse { xid, why } => written(refuse(alloc, xid, &why)),
        CallHead::Call {
            xid,
            prog,
            proc,
            cred,
            args_at,
            ..
        } => {
            let args = &call[args_at..];
            if prog == NFS {
                nfs_word(
                    alloc, server, table, limits, time, xid, &cred, proc, args, saver,
                )
            } else {
                written(mount_word(alloc, table, xid, proc, args))
            }
        }
    }
}
