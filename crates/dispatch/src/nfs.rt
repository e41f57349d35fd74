//! Calls of NFS (RFC 1094, 2.2).

ghost use Rattle.std.specs.Prelude.{◌≡◌, ◌≤◌, ◌++◌, true, List, IfOk};
ghost use Rattle.nfs2_types.specs.Call.{call_of, call_fits};
ghost use Rattle.nfs2_types.specs.declared.Word.TheVariants.{Reply};
ghost use Rattle.xdr_core.specs.Grammar.{reads_all};
ghost use Rattle.rpc_core.specs.Reply.{success_text};
ghost use Rattle.nfs2_args.specs.Forms.{args_form};
ghost use Rattle.nfs2_results.specs.Spelling.{result_text, HasSpelling};
ghost use Rattle.abs_model.specs.declared.Entry.{Entry};
ghost use Rattle.conf_map.specs.Performs.{CanPerform, Performs};
ghost use Rattle.conf_map.specs.Stands.{StandsValid};
ghost use Rattle.conf_map.specs.Notice.{Watched};
ghost use Rattle.dispatch.specs.Steps.{Answers};
ghost use Rattle.dispatch.specs.Answer.{by_args};

use crate::reply::{refuse, written};
use conf_map::Modify;
use nfs2_args::read_args;
use nfs2_results::write_result;
use nfs2_types::{Args, Blob, Cred, Limits, NfsResult, NoMemory, Time, Word};
use rpc_core::{Refusal, begin_success};
use server_trait::{ConfTable, Srv, WrapErr};
use std::alloc::Global;
use wrap_names::names_proc;
use wrap_read::read_proc;
use wrap_write::write_proc;
use xdr_core::Writer;

/// The reply with the result of a call.
fn accept(alloc: Global, xid: u32, outcome: &NfsResult) -> Result<Word, NoMemory>
    requires { HasSpelling outcome.now }
    ensures { IfOk result (λ word. word ≡ Reply (success_text xid ++ result_text outcome.now)) }
{
    let mut reply = Writer::new(alloc);
    begin_success(&mut reply, xid)?;
    write_result(&mut reply, outcome)?;
    Ok(Word::Reply(Blob::new(reply.into_bytes())))
}

/// Performs a procedure.
fn procedure<M: Modify>(
    server: &mut Srv,
    table: &mut ConfTable,
    limits: &Limits,
    cred: &Cred,
    time: Time,
    args: &Args,
    saver: &mut M,
) -> Result<NfsResult, WrapErr>
    requires can { CanPerform limits.now (state server.old) table.old time }
    requires fits { call_fits (call_of args.now) ≡ true }
    ensures performs { IfOk result (λ r. (A : List Entry) → StandsValid limits.now (state server.old).tree table.old A →
        Performs M.told M.noticed limits.now cred.now time (call_of args.now) A r
        (state server.new).tree table.new saver.old saver.new) }
    ensures watched { Watched (state server.old) (state server.new) result }
{
    match args {
        Args::SetAttr { .. } => write_proc(server, table, limits, cred, time, args, saver),
        Args::Write { .. } => write_proc(server, table, limits, cred, time, args, saver),
        Args::Create { .. } => names_proc(server, table, limits, cred, time, args, saver),
        Args::Remove { .. } => names_proc(server, table, limits, cred, time, args, saver),
        Args::Rename { .. } => names_proc(server, table, limits, cred, time, args, saver),
        Args::Link { .. } => names_proc(server, table, limits, cred, time, args, saver),
        Args::Symlink { .. } => names_proc(server, table, limits, cred, time, args, saver),
        Args::MkDir { .. } => names_proc(server, table, limits, cred, time, args, saver),
        Args::RmDir { .. } => names_proc(server, table, limits, cred, time, args, saver),
        _ => read_proc(server, table, limits, args),
    }
}

/// The reply to a call of this procedure with these arguments. After an error server and table stand for nothing.
pub fn nfs_word<M: Modify>(
    alloc: Global,
    server: &mut Srv,
    table: &mut ConfTable,
    limits: &Limits,
    time: Time,
    xid: u32,
    cred: &Cred,
    proc: u32,
    args: &[u8],
    saver: &mut M,
) -> Result<Word, WrapErr>
    requires can { CanPerform limits.now (state server.old) table.old time }
    requires proc { proc ≤ 17 }
    ensures answers { IfOk result (λ word. (A : List Entry) →
        StandsValid limits.now (state server.old).tree table.old A →
        Answers M.told M.noticed limits.now A
        (by_args A limits.now time xid cred.now (reads_all (args_form proc) args.now))
        word (state server.new).tree table.new saver.old saver.new) }
    ensures watched { Watched (state server.old) (state server.new) result }
{
    match read_args(proc, args) {
        Err(_) => written(refuse(alloc, xid, &Refusal::GarbageArgs)),
        Ok(args) => {
            let outcome = procedure(server, table, limits, cred, time, &args, saver)?;
            written(accept(alloc, xid, &outcome))
        }
    }
}
