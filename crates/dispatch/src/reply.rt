//! Replies that refuse a call, and replies that could not be written.

ghost use Rattle.std.specs.Prelude.{◌≡◌, IfOk, OnErr, Ok, Err};
ghost use Rattle.nfs2_types.specs.declared.Word.TheVariants.{Reply};
ghost use Rattle.rpc_core.specs.Reply.{refusal_text};

use nfs2_types::{Blob, NoMemory, Word};
use rpc_core::{Refusal, write_refusal};
use server_trait::WrapErr;
use std::alloc::Global;

/// The reply that refuses a call.
pub fn refuse(alloc: Global, xid: u32, why: &Refusal) -> Result<Word, NoMemory>
    ensures { IfOk result (λ word. word ≡ Reply (refusal_text xid why.now)) }
{
    let reply = write_refusal(alloc, xid, why)?;
    Ok(Word::Reply(Blob::new(reply)))
}

/// A word that was written, or want of memory.
pub fn written(word: Result<Word, NoMemory>) -> Result<Word, WrapErr>
    ensures ok { IfOk word (λ w. result ≡ Ok w) }
    ensures err { OnErr word (result ≡ Err WrapErr.NoMemory) }
{
    word.map_err(|_| WrapErr::NoMemory)
}
