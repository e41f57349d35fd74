//! Reads the arguments of each procedure.

ghost use Rattle.xdr_core.specs.Grammar.{Gives, reads};
ghost use Rattle.nfs2_types.specs.Call.{call_of};
ghost use Rattle.nfs2_args.specs.Forms.{get_attr_form, set_attr_form, lookup_form, read_link_form, read_form};
ghost use Rattle.nfs2_args.specs.Forms.{write_form, create_form, remove_form, rename_form, link_form, symlink_form};
ghost use Rattle.nfs2_args.specs.Forms.{make_dir_form, remove_dir_form, read_dir_form, stat_fs_form};

use crate::fields::{handle, sattr};
use nfs2_types::{Args, MAX_DATA, MAX_NAME, MAX_PATH};
use xdr_core::{Reader, XdrErr};

/// GETATTR (RFC 1094, 2.2.2).
#[tactic(auto, unfolding(crate::specs::Forms::get_attr_form))]
pub fn get_attr<'a>(r: &mut Reader<'a>) -> Result<Args<'a>, XdrErr>
    ensures { Gives call_of result r.new (reads get_attr_form r.old) }
{
    let node = handle(r)?;
    Ok(Args::GetAttr { node })
}

/// SETATTR (RFC 1094, 2.2.3).
#[tactic(auto, using(xdr_core::proofs::Sequence::reads_then), unfolding(crate::specs::Forms::set_attr_form))]
pub fn set_attr<'a>(r: &mut Reader<'a>) -> Result<Args<'a>, XdrErr>
    ensures { Gives call_of result r.new (reads set_attr_form r.old) }
{
    let node = handle(r)?;
    let sattr = sattr(r)?;
    Ok(Args::SetAttr { node, sattr })
}

/// LOOKUP (RFC 1094, 2.2.5).
#[tactic(auto, unfolding(crate::specs::Forms::lookup_form))]
pub fn lookup<'a>(r: &mut Reader<'a>) -> Result<Args<'a>, XdrErr>
    ensures { Gives call_of result r.new (reads lookup_form r.old) }
{
    let dir = handle(r)?;
    let name = r.opaque(MAX_NAME)?;
    Ok(Args::Lookup { dir, name })
}

/// READLINK (RFC 1094, 2.2.6).
#[tactic(auto, unfolding(crate::specs::Forms::read_link_form))]
pub fn read_link<'a>(r: &mut Reader<'a>) -> Result<Args<'a>, XdrErr>
    ensures { Gives call_of result r.new (reads read_link_form r.old) }
{
    let node = handle(r)?;
    Ok(Args::ReadLink { node })
}

/// READ; totalcount is ignored (RFC 1094, 2.2.7).
#[tactic(auto, unfolding(crate::specs::Forms::read_form))]
pub fn read<'a>(r: &mut Reader<'a>) -> Result<Args<'a>, XdrErr>
    ensures { Gives call_of result r.new (reads read_form r.old) }
{
    let file = handle(r)?;
    let offset = r.word()?;
    let count = r.word()?;
    let _total_count = r.word()?;
    Ok(Args::Read {
        file,
        offset,
        count,
    })
}

/// WRITE; beginoffset and totalcount are ignored (RFC 1094, 2.2.9).
#[tactic(auto, unfolding(crate::specs::Forms::write_form))]
pub fn write<'a>(r: &mut Reader<'a>) -> Result<Args<'a>, XdrErr>
    ensures { Gives call_of result r.new (reads write_form r.old) }
{
    let file = handle(r)?;
    let _begin_offset = r.word()?;
    let offset = r.word()?;
    let _total = r.word()?;
    let bytes = r.opaque(MAX_DATA)?;
    Ok(Args::Write {
        file,
        offset,
        bytes,
    })
}

/// CREATE (RFC 1094, 2.2.10).
#[tactic(auto, using(xdr_core::proofs::Sequence::reads_then), unfolding(crate::specs::Forms::create_form))]
pub fn create<'a>(r: &mut Reader<'a>) -> Result<Args<'a>, XdrErr>
    ensures { Gives call_of result r.new (reads create_form r.old) }
{
    let dir = handle(r)?;
    let name = r.opaque(MAX_NAME)?;
    let sattr = sattr(r)?;
    Ok(Args::Create { dir, name, sattr })
}

/// REMOVE (RFC 1094, 2.2.11).
#[tactic(auto, unfolding(crate::specs::Forms::remove_form))]
pub fn remove<'a>(r: &mut Reader<'a>) -> Result<Args<'a>, XdrErr>
    ensures { Gives call_of result r.new (reads remove_form r.old) }
{
    let dir = handle(r)?;
    let name = r.opaque(MAX_NAME)?;
    Ok(Args::Remove { dir, name })
}

/// RENAME (RFC 1094, 2.2.12).
#[tactic(auto, unfolding(crate::specs::Forms::rename_form))]
pub fn rename<'a>(r: &mut Reader<'a>) -> Result<Args<'a>, XdrErr>
    ensures { Gives call_of result r.new (reads rename_form r.old) }
{
    let from = handle(r)?;
    let name = r.opaque(MAX_NAME)?;
    let to = handle(r)?;
    let to_name = r.opaque(MAX_NAME)?;
    Ok(Args::Rename {
        from,
        name,
        to,
        to_name,
    })
}

/// LINK (RFC 1094, 2.2.13).
#[tactic(auto, unfolding(crate::specs::Forms::link_form))]
pub fn link<'a>(r: &mut Reader<'a>) -> Result<Args<'a>, XdrErr>
    ensures { Gives call_of result r.new (reads link_form r.old) }
{
    let node = handle(r)?;
    let dir = handle(r)?;
    let name = r.opaque(MAX_NAME)?;
    Ok(Args::Link { node, dir, name })
}

/// SYMLINK (RFC 1094, 2.2.14).
#[tactic(auto, using(xdr_core::proofs::Sequence::reads_then), unfolding(crate::specs::Forms::symlink_form))]
pub fn symlink<'a>(r: &mut Reader<'a>) -> Result<Args<'a>, XdrErr>
    ensures { Gives call_of result r.new (reads symlink_form r.old) }
{
    let dir = handle(r)?;
    let name = r.opaque(MAX_NAME)?;
    let text = r.opaque(MAX_PATH)?;
    let sattr = sattr(r)?;
    Ok(Args::Symlink {
        dir,
        name,
        text,
        sattr,
    })
}

/// MKDIR (RFC 1094, 2.2.15).
#[tactic(auto, using(xdr_core::proofs::Sequence::reads_then), unfolding(crate::specs::Forms::make_dir_form))]
pub fn make_dir<'a>(r: &mut Reader<'a>) -> Result<Args<'a>, XdrErr>
    ensures { Gives call_of result r.new (reads make_dir_form r.old) }
{
    let dir = handle(r)?;
    let name = r.opaque(MAX_NAME)?;
    let sattr = sattr(r)?;
    Ok(Args::MkDir { dir, name, sattr })
}

/// RMDIR (RFC 1094, 2.2.16).
#[tactic(auto, unfolding(crate::specs::Forms::remove_dir_form))]
pub fn remove_dir<'a>(r: &mut Reader<'a>) -> Result<Args<'a>, XdrErr>
    ensures { Gives call_of result r.new (reads remove_dir_form r.old) }
{
    let dir = handle(r)?;
    let name = r.opaque(MAX_NAME)?;
    Ok(Args::RmDir { dir, name })
}

/// READDIR, whose cookie of four bytes is read as a word (RFC 1094, 2.2.17).
#[tactic(auto, unfolding(crate::specs::Forms::read_dir_form))]
pub fn read_dir<'a>(r: &mut Reader<'a>) -> Result<Args<'a>, XdrErr>
    ensures { Gives call_of result r.new (reads read_dir_form r.old) }
{
    let dir = handle(r)?;
    let cookie = r.word()?;
    let count = r.word()?;
    Ok(Args::ReadDir { dir, cookie, count })
}

/// STATFS (RFC 1094, 2.2.18).
#[tactic(auto, unfolding(crate::specs::Forms::stat_fs_form))]
pub fn stat_fs<'a>(r: &mut Reader<'a>) -> Result<Args<'a>, XdrErr>
    ensures { Gives call_of result r.new (reads stat_fs_form r.old) }
{
    let node = handle(r)?;
    Ok(Args::StatFs { node })
}
