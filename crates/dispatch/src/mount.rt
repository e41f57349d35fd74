//! Calls of MOUNT (RFC 1094, appendix A), which change nothing.

ghost use Rattle.std.specs.Prelude.{◌≡◌, ◌≤◌, ◌++◌, List, Option, IfOk};
ghost use Rattle.nfs2_types.specs.declared.Word.TheVariants.{Reply};
ghost use Rattle.xdr_core.specs.Grammar.{reads_all};
ghost use Rattle.rpc_core.specs.Reply.{success_text};
ghost use Rattle.mount1_proto.specs.Calls.{call_of};
ghost use Rattle.mount1_proto.specs.Forms.{mount_form};
ghost use Rattle.mount1_proto.specs.Results.{mount_text};
ghost use Rattle.abs_model.specs.declared.Entry.{Entry};
ghost use Rattle.abs_model.specs.Array.{handle_at};
ghost use Rattle.server_trait.specs.Tree.{Tree};
ghost use Rattle.conf_map.specs.Stands.{StandValid};
ghost use Rattle.dispatch.specs.Answer.{mount_word as mount_word_of};

use crate::reply::refuse;
use mount1_proto::{MountArgs, read_mount, write_mount};
use nfs2_types::{Blob, Handle, NoMemory, Oid, Word, handle_of};
use rpc_core::{Refusal, begin_success};
use server_trait::ConfTable;
use std::alloc::Global;
use xdr_core::Writer;

/// The handle by which clients name the root.
fn root_of(table: &ConfTable) -> Handle
    requires { (tree : Option Tree) × (A : List Entry) × StandValid tree table.now A }
    ensures { (tree : Option Tree) (A : List Entry) → StandValid tree table.now A → result ≡ handle_at A 0 }
{
    handle_of(Oid {
        index: 0,
        generation: table.rows[0].generation,
    })
}

/// The reply with the result of a call.
fn accept(alloc: Global, xid: u32, args: &MountArgs, root: Handle) -> Result<Word, NoMemory>
    ensures { IfOk result (λ word. word ≡ Reply (success_text xid ++ mount_text (call_of args.now) root)) }
{
    let mut reply = Writer::new(alloc);
    begin_success(&mut reply, xid)?;
    write_mount(&mut reply, args, root)?;
    Ok(Word::Reply(Blob::new(reply.into_bytes())))
}

/// The reply to a call of this procedure with these arguments.
pub fn mount_word(
    alloc: Global,
    table: &ConfTable,
    xid: u32,
    proc: u32,
    args: &[u8],
) -> Result<Word, NoMemory>
    requires proc { proc ≤ 5 }
    requires stands { (tree : Option Tree) × (A : List Entry) × StandValid tree table.now A }
    ensures { IfOk result (λ word. (tree : Option Tree) (A : List Entry) → StandValid tree table.now A →
        word ≡ mount_word_of A xid (reads_all (mount_form proc) args.now)) }
{
    match read_mount(proc, args) {
        Err(_) => refuse(alloc, xid, &Refusal::GarbageArgs),
        Ok(args) => accept(alloc, xid, &args, root_of(table)),
    }
}
