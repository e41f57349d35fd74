use crate::{CallHead, begin_success, read_call, write_call, write_refusal};
use nfs2_types::{Blob16, Cred};
use std::alloc::{AllocError, Global};
use std::process::Abort;
use std::test::Fail;
use xdr_core::Writer;

/// The word of the letters `gen` and the byte that fills it up.
const GEN: u32 = 0x67656e00;

fn bytes_of(alloc: Global, words: &[u32]) -> Result<Vec<u8>, AllocError> {
    let mut bytes = Vec::new(alloc);
    for word in words {
        bytes.extend_from_slice(&word.to_be_bytes())?;
    }
    Ok(bytes)
}

fn refused(rt: &impl Abort, alloc: Global, call: &[u32], reply: &[u32]) -> Result<(), Fail> {
    let call = bytes_of(alloc, call)?;
    let reply = bytes_of(alloc, reply)?;
    match read_call(&call) {
        CallHead::Refuse { xid, why } => {
            let written = write_refusal(alloc, xid, &why)?;
            assert_eq!(rt; written.as_slice(), reply.as_slice());
        }
        _ => assert!(rt; false, "not refused"),
    }
    Ok(())
}

fn silent(rt: &impl Abort, alloc: Global, call: &[u32]) -> Result<(), Fail> {
    let call = bytes_of(alloc, call)?;
    assert!(rt; matches!(read_call(&call), CallHead::Silent));
    Ok(())
}

// RFC 5531, 9: each check of the header, and all of them at once.
#[test]
fn refusals(rt: HostRuntime) -> Result<(), Fail> {
    let alloc = rt.alloc();
    let mismatch = [2, 1, 1, 0, 2, 2];
    refused(&rt, alloc, &[2, 0, 3, 100003, 2, 1, 0, 0, 0, 0], &mismatch)?;
    refused(
        &rt,
        alloc,
        &[2, 0, 2, 100099, 2, 1, 0, 0, 0, 0],
        &[2, 1, 0, 0, 0, 1],
    )?;
    refused(
        &rt,
        alloc,
        &[2, 0, 2, 100003, 3, 1, 0, 0, 0, 0],
        &[2, 1, 0, 0, 0, 2, 2, 2],
    )?;
    refused(
        &rt,
        alloc,
        &[2, 0, 2, 100003, 2, 18, 0, 0, 0, 0],
        &[2, 1, 0, 0, 0, 3],
    )?;
    refused(
        &rt,
        alloc,
        &[2, 0, 2, 100003, 2, 1, 6, 0, 0, 0],
        &[2, 1, 1, 1, 1],
    )?;
    refused(&rt, alloc, &[2, 0, 3, 100099, 3, 18, 6, 0, 0, 0], &mismatch)?;
    silent(&rt, alloc, &[2, 1, 3, 100099, 3, 18, 6, 0, 0, 0])?;
    silent(&rt, alloc, &[2, 0, 3, 100099, 3, 18, 6, 0, 0])
}

// RFC 5531, appendix A: a word behind the groups, and seventeen of them.
#[test]
fn bad_credentials(rt: HostRuntime) -> Result<(), Fail> {
    let alloc = rt.alloc();
    let bad = [2, 1, 1, 1, 1];
    let longer = [2, 0, 2, 100003, 2, 1, 1, 28, 0, 3, GEN, 10, 20, 0, 5, 0, 0];
    refused(&rt, alloc, &longer, &bad)?;
    let mut many = [1; 33];
    many[..14].copy_from_slice(&[2, 0, 2, 100003, 2, 1, 1, 92, 0, 3, GEN, 10, 20, 17]);
    many[31] = 0;
    many[32] = 0;
    refused(&rt, alloc, &many, &bad)
}

// RFC 5531, 9 and appendix A: a call with two further groups, written and read.
#[test]
fn calls(rt: HostRuntime) -> Result<(), Fail> {
    let alloc = rt.alloc();
    let words = [
        9, 0, 2, 100003, 2, 4, 1, 32, 0, 3, GEN, 10, 20, 2, 30, 40, 0, 0, 77,
    ];
    let bytes = bytes_of(alloc, &words)?;
    let mut gids = Blob16::new();
    gids.push(30);
    gids.push(40);
    let cred = Cred {
        uid: 10,
        gid: 20,
        gids,
    };
    let written = write_call(alloc, 9, 100003, 2, 4, &cred, &[0, 0, 0, 77])?;
    assert_eq!(rt; written.as_slice(), bytes.as_slice());
    match read_call(&bytes) {
        CallHead::Call {
            proc,
            cred,
            args_at,
            ..
        } => {
            assert_eq!(rt; (proc, cred.uid, cred.gid, args_at), (4, 10, 20, 72));
            assert_eq!(rt; cred.gids.as_slice(), [30, 40].as_slice());
        }
        _ => assert!(rt; false, "no call"),
    }
    Ok(())
}

// RFC 5531, 9: an accepted reply, its empty verifier and SUCCESS.
#[test]
fn success(rt: HostRuntime) -> Result<(), Fail> {
    let mut w = Writer::new(rt.alloc());
    begin_success(&mut w, 7)?;
    let front = bytes_of(rt.alloc(), &[7, 1, 0, 0, 0, 0])?;
    assert_eq!(rt; w.into_bytes().as_slice(), front.as_slice());
    Ok(())
}
