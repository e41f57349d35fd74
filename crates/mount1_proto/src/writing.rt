//! Writes the results of calls.

ghost use Rattle.std.specs.Prelude.{◌≡◌, ◌++◌, OnOk, OnErr, take, length};
ghost use Rattle.mount1_proto.specs.Calls.{call_of};
ghost use Rattle.mount1_proto.specs.Results.{is_exported as is_exported_of};
ghost use Rattle.mount1_proto.specs.Results.{mnt_text, exports_text, mount_text};

use crate::args::MountArgs;
use nfs2_types::{Handle, NoMemory};
use xdr_core::Writer;

/// The status of a path that is not there, a number of UNIX (RFC 1094, A.4.2).
const ENOENT: u32 = 2;

/// Whether a path leads to the root.
fn is_exported(path: &[u8]) -> bool
    ensures { result ≡ is_exported_of path.now }
{
    path == b"/".as_slice() || path == b"/export".as_slice()
}

/// MNT's result, an fhstatus (RFC 1094, A.4.2).
fn put_mnt(w: &mut Writer, path: &[u8], root: Handle) -> Result<(), NoMemory>
    ensures text { OnOk result (w.new ≡ w.old ++ mnt_text path.now root) }
    ensures kept { OnErr result (take (length w.old) w.new ≡ w.old) }
{
    if !is_exported(path) {
        return w.word(ENOENT);
    }
    w.word(0)?;
    w.fixed(&root)
}

/// EXPORT's result: one export, which every group may mount (RFC 1094, A.5.6).
fn put_exports(w: &mut Writer) -> Result<(), NoMemory>
    ensures text { OnOk result (w.new ≡ w.old ++ exports_text) }
    ensures kept { OnErr result (take (length w.old) w.new ≡ w.old) }
{
    w.boolean(true)?;
    w.opaque(b"/export")?;
    w.boolean(false)?;
    w.boolean(false)
}

/// Appends the result of a call (RFC 1094, A.5), in which a handle is that of the root.
pub fn write_mount(w: &mut Writer, args: &MountArgs, root: Handle) -> Result<(), NoMemory>
    ensures text { OnOk result (w.new ≡ w.old ++ mount_text (call_of args.now) root) }
    ensures kept { OnErr result (take (length w.old) w.new ≡ w.old) }
{
    match args {
        MountArgs::Null | MountArgs::Umnt { .. } | MountArgs::UmntAll => Ok(()),
        MountArgs::Mnt { path } => put_mnt(w, path, root),
        MountArgs::Dump => w.boolean(false),
        MountArgs::Export => put_exports(w),
    }
}
