//! Calls by hand from RFC 1094, appendix A.

ghost use Rattle.std.specs.Prelude.{◌≤◌};

use crate::{MountArgs, read_mount, write_mount};
use nfs2_types::Handle;
use std::alloc::Global;
use std::process::Abort;
use std::test::Fail;
use xdr_core::{Writer, XdrErr, XdrKind};

/// The root's handle, of index 0 and generation 1.
const ROOT: Handle = *b"BASE\0\0\0\0\0\0\0\x01\0\0\0\0\0\0\0\0\0\0\0\0\0\0\0\0\0\0\0\0";

/// The path "/export", with one byte of padding.
const EXPORT: &[u8] = b"\0\0\0\x07/export\0";

/// These bytes are read as these arguments.
fn reads(rt: &impl Abort, proc: u32, bytes: &[u8], args: MountArgs<'_>)
    requires { proc ≤ 5 }
{
    assert!(rt; read_mount(proc, bytes) == Ok(args), "procedure {proc}");
}

/// These bytes are refused, with the place and the kind of the first wrong item.
fn refused(rt: &impl Abort, proc: u32, bytes: &[u8], at: usize, kind: XdrKind)
    requires { proc ≤ 5 }
{
    assert_eq!(rt; read_mount(proc, bytes).err(), Some(XdrErr { at, kind }));
}

#[test]
fn arguments(rt: HostRuntime) {
    reads(&rt, 0, b"", MountArgs::Null);
    reads(&rt, 1, EXPORT, MountArgs::Mnt { path: b"/export" });
    reads(&rt, 1, b"\0\0\0\0", MountArgs::Mnt { path: b"" });
    reads(&rt, 2, b"", MountArgs::Dump);
    reads(&rt, 3, EXPORT, MountArgs::Umnt { path: b"/export" });
    reads(&rt, 4, b"", MountArgs::UmntAll);
    reads(&rt, 5, b"", MountArgs::Export);
}

#[test]
fn no_arguments(rt: HostRuntime) {
    for proc in [0u32, 2, 4, 5] {
        refused(&rt, proc, b"\0", 0, XdrKind::Extra);
    }
    for proc in [1u32, 3] {
        refused(&rt, proc, b"", 0, XdrKind::Short);
        refused(&rt, proc, b"\0\0\0\x07/export", 0, XdrKind::Short);
        refused(&rt, proc, b"\0\0\0\x07/export\x01", 0, XdrKind::BadPad);
        refused(&rt, proc, b"\0\0\0\x07/export\0\0", 12, XdrKind::Extra);
    }
}

// MNTPATHLEN is 1024 (RFC 1094, A.3); a path of that length has no padding.
#[test]
fn the_longest_path(rt: HostRuntime) -> Result<(), Fail> {
    let mut bytes = Vec::from_slice(rt.alloc(), b"\0\0\x04\0")?;
    bytes.extend_from_slice(&[b'a'; 1024])?;
    for proc in [1u32, 3] {
        assert!(rt; read_mount(proc, &bytes).is_ok());
    }
    let mut longer = Vec::from_slice(rt.alloc(), b"\0\0\x04\x01")?;
    longer.extend_from_slice(&[b'a'; 1025])?;
    longer.extend_from_slice(&[0; 3])?;
    for proc in [1u32, 3] {
        refused(&rt, proc, &longer, 0, XdrKind::TooLong);
    }
    Ok(())
}

/// The result of this call is spelled so.
fn gives(
    rt: &impl Abort,
    alloc: Global,
    args: MountArgs<'_>,
    pieces: &[&[u8]],
) -> Result<(), Fail> {
    let mut expected = Vec::new(alloc);
    for piece in pieces {
        expected.extend_from_slice(piece)?;
    }
    let mut w = Writer::new(alloc);
    write_mount(&mut w, &args, ROOT)?;
    assert_eq!(rt; w.into_bytes().as_slice(), expected.as_slice());
    Ok(())
}

#[test]
fn results(rt: HostRuntime) -> Result<(), Fail> {
    let alloc = rt.alloc();
    let mounted: [&[u8]; 3] = [
        b"\0\0\0\0\x42\x41\x53\x45\0\0\0\0\0\0\0\x01",
        &[0; 10],
        &[0; 10],
    ];
    let missing: [&[u8]; 1] = [b"\0\0\0\x02"];
    let exports: [&[u8]; 2] = [
        b"\0\0\0\x01\0\0\0\x07\x2f\x65\x78\x70\x6f\x72\x74\0",
        b"\0\0\0\0\0\0\0\0",
    ];
    gives(&rt, alloc, MountArgs::Null, &[])?;
    gives(&rt, alloc, MountArgs::Mnt { path: b"/export" }, &mounted)?;
    gives(&rt, alloc, MountArgs::Mnt { path: b"/" }, &mounted)?;
    for path in [b"/usr".as_slice(), b"", b"export", b"/export/", b"//"] {
        gives(&rt, alloc, MountArgs::Mnt { path }, &missing)?;
    }
    gives(&rt, alloc, MountArgs::Dump, &[b"\0\0\0\0"])?;
    gives(&rt, alloc, MountArgs::Umnt { path: b"/export" }, &[])?;
    gives(&rt, alloc, MountArgs::UmntAll, &[])?;
    gives(&rt, alloc, MountArgs::Export, &exports)
}
