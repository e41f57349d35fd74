//! Reads the arguments of a call. Paths are slices of it.

ghost use Rattle.std.specs.Prelude.{◌≡◌, ◌≤◌, IfOk};
ghost use Rattle.xdr_core.specs.Grammar.{Gives, GivesAll, IsReading, reads, reads_all};
ghost use Rattle.mount1_proto.specs.Calls.{call_of, number_of};
ghost use Rattle.mount1_proto.specs.Forms.{mnt_form, umnt_form, mount_form};

use crate::args::MountArgs;
use nfs2_types::MAX_PATH;
use xdr_core::{Reader, XdrErr};

/// MNT (RFC 1094, A.5.2).
#[tactic(auto, unfolding(crate::specs::Forms::mnt_form))]
fn mnt<'a>(r: &mut Reader<'a>) -> Result<MountArgs<'a>, XdrErr>
    ensures { Gives call_of result r.new (reads mnt_form r.old) }
{
    let path = r.opaque(MAX_PATH)?;
    Ok(MountArgs::Mnt { path })
}

/// UMNT (RFC 1094, A.5.4).
#[tactic(auto, unfolding(crate::specs::Forms::umnt_form))]
fn umnt<'a>(r: &mut Reader<'a>) -> Result<MountArgs<'a>, XdrErr>
    ensures { Gives call_of result r.new (reads umnt_form r.old) }
{
    let path = r.opaque(MAX_PATH)?;
    Ok(MountArgs::Umnt { path })
}

/// The arguments that stand next.
fn arguments<'a>(proc: u32, r: &mut Reader<'a>) -> Result<MountArgs<'a>, XdrErr>
    ensures { Gives call_of result r.new (reads (mount_form proc) r.old) }
{
    match proc {
        1 => mnt(r),
        2 => Ok(MountArgs::Dump),
        3 => umnt(r),
        4 => Ok(MountArgs::UmntAll),
        5 => Ok(MountArgs::Export),
        _ => Ok(MountArgs::Null),
    }
}

/// The arguments, behind which nothing stands.
#[tactic(auto, unfolding(xdr_core::specs::Grammar::reads_all))]
fn all_arguments(proc: u32, bytes: &[u8]) -> Result<MountArgs<'_>, XdrErr>
    ensures { GivesAll call_of result (reads_all (mount_form proc) bytes.now) }
{
    let mut r = Reader::new(bytes);
    let args = arguments(proc, &mut r)?;
    r.end()?;
    Ok(args)
}

/// The arguments of a procedure, 0 to 5, that all of these bytes spell (RFC 1094, A.5), or the first wrong item.
/// It takes no memory.
pub fn read_mount(proc: u32, bytes: &[u8]) -> Result<MountArgs<'_>, XdrErr>
    requires { proc ≤ 5 }
    ensures read { IsReading call_of (mount_form proc) bytes.now result }
    ensures all { GivesAll call_of result (reads_all (mount_form proc) bytes.now) }
    ensures number { IfOk result (λ a. number_of (call_of a) ≡ proc) }
{
    all_arguments(proc, bytes)
}
