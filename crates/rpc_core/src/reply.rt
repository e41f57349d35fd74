//! Writes replies, as far as they depend on no procedure.
ghost use Rattle.std.specs.Prelude.{◌≡◌, ◌++◌, IfOk, OnOk, OnErr};
ghost use Rattle.rpc_core.specs.Reply.{refusal_text, success_text};

use crate::head::Refusal;
use nfs2_types::NoMemory;
use std::alloc::Global;
use xdr_core::Writer;

/// Appends the words of a refusal.
fn put_refusal(w: &mut Writer, xid: u32, why: &Refusal) -> Result<(), NoMemory>
    ensures { OnOk result (w.new ≡ w.old ++ refusal_text xid why.now) }
{
    match *why {
        Refusal::RpcMismatch => w.words(&[xid, 1, 1, 0, 2, 2]),
        Refusal::ProgUnavail => w.words(&[xid, 1, 0, 0, 0, 1]),
        Refusal::ProgMismatch { low, high } => w.words(&[xid, 1, 0, 0, 0, 2, low, high]),
        Refusal::ProcUnavail => w.words(&[xid, 1, 0, 0, 0, 3]),
        Refusal::BadCred => w.words(&[xid, 1, 1, 1, 1]),
        Refusal::GarbageArgs => w.words(&[xid, 1, 0, 0, 0, 4]),
    }
}

/// The reply that refuses the call of this xid (RFC 5531, 9).
pub fn write_refusal(alloc: Global, xid: u32, why: &Refusal) -> Result<Vec<u8>, NoMemory>
    ensures { IfOk result (λ v. v.items ≡ refusal_text xid why.now) }
{
    let mut w = Writer::new(alloc);
    put_refusal(&mut w, xid, why)?;
    Ok(w.into_bytes())
}

/// Appends what stands before the result of a call that succeeded (RFC 5531, 9).
pub fn begin_success(w: &mut Writer, xid: u32) -> Result<(), NoMemory>
    ensures text { OnOk result (w.new ≡ w.old ++ success_text xid) }
    ensures err { OnErr result (w.new ≡ w.old) }
{
    w.words(&[xid, 1, 0, 0, 0, 0])
}
