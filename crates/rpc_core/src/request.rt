//! Writes calls.
ghost use Rattle.std.specs.Prelude.{◌≡◌, ◌≤◌, ◌++◌, [], IfOk, OnOk, length, vec_len};
ghost use Rattle.xdr_core.specs.Items.{spell_word, spell_opaque};
ghost use Rattle.xdr_core.specs.Grammar.{Spells};
ghost use Rattle.rpc_core.specs.Cred.{auth_sys};
ghost use Rattle.rpc_core.specs.Call.{IsHead, IsServed};
ghost use Rattle.rpc_core.specs.Request.{machine, cred_text, IsCredText, call_front};

use crate::head::CallHead;
use nfs2_types::{Cred, NoMemory};
use std::alloc::Global;
use xdr_core::Writer;

/// The body of a credential of AUTH_SYS.
#[tactic(auto, unfolding(crate::specs::Request::cred_text))]
fn cred_body(alloc: Global, uid: u32, gid: u32, gids: &[u32]) -> Result<Vec<u8>, NoMemory>
    requires { length gids.now ≤ 16 }
    ensures text { IfOk result (λ v. v.items
        ≡ cred_text (record { uid = uid; gid = gid; gids = gids.now })) }
    ensures spelled { OnOk result (IsCredText (record { uid = uid; gid = gid; gids = gids.now })) }
{
    let mut w = Writer::new(alloc);
    w.word(0)?;
    w.opaque(b"gen")?;
    w.words(&[uid, gid, gids.len() as u32])?;
    w.words(gids)?;
    Ok(w.into_bytes())
}

/// The call up to its arguments.
#[tactic(auto, unfolding(crate::specs::Request::call_front))]
fn front(
    alloc: Global,
    xid: u32,
    prog: u32,
    vers: u32,
    proc: u32,
    cred: &Cred,
) -> Result<Vec<u8>, NoMemory>
    ensures text { IfOk result (λ v. v.items ≡ call_front xid prog vers proc cred.now) }
    ensures spelled { OnOk result (IsCredText cred.now) }
{
    prove!(cred.gids.len() <= 16);
    let body = cred_body(alloc, cred.uid, cred.gid, cred.gids.as_slice())?;
    let mut w = Writer::new(alloc);
    w.words(&[xid, 0, 2, prog, vers, proc, 1])?;
    w.opaque(&body)?;
    w.word(0)?;
    w.opaque(&[])?;
    Ok(w.into_bytes())
}

/// Puts these bytes behind the others.
fn append(bytes: &mut Vec<u8>, more: &[u8]) -> Result<(), NoMemory>
    ensures { OnOk result (bytes.new.items ≡ bytes.old.items ++ more.now) }
{
    bytes.extend_from_slice(more)?;
    Ok(())
}

/// A call with these arguments, made with AUTH_SYS, a stamp of 0 and the machine name `gen`
/// (RFC 5531, 9 and appendix A). Where the procedure is served, `read_call` gives it back.
pub fn write_call(
    alloc: Global,
    xid: u32,
    prog: u32,
    vers: u32,
    proc: u32,
    cred: &Cred,
    args: &[u8],
) -> Result<Vec<u8>, NoMemory>
    ensures text { IfOk result (λ v. v.items ≡ call_front xid prog vers proc cred.now ++ args.now) }
    ensures again { IsServed prog vers proc → IfOk result (λ v. IsHead v.items
        (CallHead.Call xid prog vers proc cred.now (length (call_front xid prog vers proc cred.now)))) }
{
    let mut bytes = front(alloc, xid, prog, vers, proc, cred)?;
    append(&mut bytes, args)?;
    Ok(bytes)
}
