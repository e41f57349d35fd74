//! Reads the arguments of a call. Names, texts and bytes are slices of it.

ghost use Rattle.std.specs.Prelude.{◌≡◌, ◌≤◌, IfOk, true};
ghost use Rattle.xdr_core.specs.Grammar.{Gives, GivesAll, IsReading, reads, reads_all};
ghost use Rattle.nfs2_types.specs.Call.{call_of, call_fits};
ghost use Rattle.nfs2_args.specs.Forms.{args_form};
ghost use Rattle.nfs2_args.specs.Spelling.{number_of, call_fields_fit};

use crate::procedures;
use nfs2_types::Args;
use xdr_core::{Reader, XdrErr};

/// The arguments that stand next.
fn arguments<'a>(proc: u32, r: &mut Reader<'a>) -> Result<Args<'a>, XdrErr>
    ensures { Gives call_of result r.new (reads (args_form proc) r.old) }
{
    match proc {
        1 => procedures::get_attr(r),
        2 => procedures::set_attr(r),
        3 => Ok(Args::Root),
        4 => procedures::lookup(r),
        5 => procedures::read_link(r),
        6 => procedures::read(r),
        7 => Ok(Args::WriteCache),
        8 => procedures::write(r),
        9 => procedures::create(r),
        10 => procedures::remove(r),
        11 => procedures::rename(r),
        12 => procedures::link(r),
        13 => procedures::symlink(r),
        14 => procedures::make_dir(r),
        15 => procedures::remove_dir(r),
        16 => procedures::read_dir(r),
        17 => procedures::stat_fs(r),
        _ => Ok(Args::Null),
    }
}

/// The arguments, behind which nothing stands.
#[tactic(auto, unfolding(xdr_core::specs::Grammar::reads_all))]
fn all_arguments(proc: u32, bytes: &[u8]) -> Result<Args<'_>, XdrErr>
    ensures { GivesAll call_of result (reads_all (args_form proc) bytes.now) }
{
    let mut r = Reader::new(bytes);
    let args = arguments(proc, &mut r)?;
    r.end()?;
    Ok(args)
}

/// The arguments of a procedure, 0 to 17, that all of these bytes spell (RFC 1094, 2.2), or the first wrong item.
/// It takes no memory.
pub fn read_args(proc: u32, bytes: &[u8]) -> Result<Args<'_>, XdrErr>
    requires { proc ≤ 17 }
    ensures read { IsReading call_of (args_form proc) bytes.now result }
    ensures all { GivesAll call_of result (reads_all (args_form proc) bytes.now) }

    // What is read is within the bounds of calls, and `write_args` may write it.
    ensures fits { IfOk result (λ a. call_fits (call_of a) ≡ true) }
    ensures fields { IfOk result (λ a. call_fields_fit (call_of a) ≡ true) }
    ensures number { IfOk result (λ a. number_of (call_of a) ≡ proc) }
{
    all_arguments(proc, bytes)
}
