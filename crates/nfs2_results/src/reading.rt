//! Reads the results of calls.
ghost use Rattle.std.specs.Prelude.{◌≡◌, ◌≤◌, ◌==◌, ◌||◌, [], length};
ghost use Rattle.xdr_core.specs.Grammar.{Gives, reads, reads_all};
ghost use Rattle.nfs2_results.specs.Forms.{fattr_form, entry_form, entries_form, attr_arm, node_arm, path_arm};
ghost use Rattle.nfs2_results.specs.Forms.{content_arm, entries_arm, space_arm, arm_form, status_form, result_form};
ghost use Rattle.nfs2_results.specs.Reading.{GivesAt, GivesWhole, IsResultOf};

use crate::error::ResErr;
use nfs2_types::{Blob, Fattr, ListEntry, Listing, MAX_DATA, MAX_NAME, MAX_PATH, NfsResult, Stat};
use std::alloc::Global;
use xdr_core::{Reader, XdrErr};

/// The attributes that stand next.
#[tactic(auto, unfolding(crate::specs::Forms::fattr_form))]
fn fattr_at(r: &mut Reader<'_>) -> Result<Fattr, XdrErr>
    ensures { Gives (λ a. a) result r.new (reads fattr_form r.old) }
{
    Ok(Fattr {
        ftype: r.word()?,
        mode: r.word()?,
        nlink: r.word()?,
        uid: r.word()?,
        gid: r.word()?,
        size: r.word()?,
        blocksize: r.word()?,
        rdev: r.word()?,
        blocks: r.word()?,
        fsid: r.word()?,
        fileid: r.word()?,
        atime_secs: r.word()?,
        atime_micros: r.word()?,
        mtime_secs: r.word()?,
        mtime_micros: r.word()?,
        ctime_secs: r.word()?,
        ctime_micros: r.word()?,
    })
}

/// The arm of an attrstat.
#[tactic(auto, using(xdr_core::proofs::Sequence::reads_then), unfolding(crate::specs::Forms::attr_arm))]
fn attr_at(r: &mut Reader<'_>) -> Result<NfsResult, ResErr>
    ensures { GivesAt (λ x. x) result r.new (reads attr_arm r.old) }
{
    Ok(NfsResult::Attr(fattr_at(r)?))
}

/// The arm of a diropres.
#[tactic(auto, using(xdr_core::proofs::Sequence::reads_then), unfolding(crate::specs::Forms::node_arm))]
fn node_at(r: &mut Reader<'_>) -> Result<NfsResult, ResErr>
    ensures { GivesAt (λ x. x) result r.new (reads node_arm r.old) }
{
    let handle = r.block()?;
    let fattr = fattr_at(r)?;
    Ok(NfsResult::Node { handle, fattr })
}

/// READLINK's arm.
#[tactic(auto, unfolding(crate::specs::Forms::path_arm))]
fn path_at(alloc: Global, r: &mut Reader<'_>) -> Result<NfsResult, ResErr>
    ensures { GivesAt (λ x. x) result r.new (reads path_arm r.old) }
{
    let text = r.opaque(MAX_PATH)?;
    Ok(NfsResult::Path(Blob::from_slice(alloc, text)?))
}

/// READ's arm.
#[tactic(auto, using(xdr_core::proofs::Sequence::reads_then), unfolding(crate::specs::Forms::content_arm))]
fn content_at(alloc: Global, r: &mut Reader<'_>) -> Result<NfsResult, ResErr>
    ensures { GivesAt (λ x. x) result r.new (reads content_arm r.old) }
{
    let fattr = fattr_at(r)?;
    let bytes = r.opaque(MAX_DATA)?;
    Ok(NfsResult::Content {
        fattr,
        bytes: Blob::from_slice(alloc, bytes)?,
    })
}

/// STATFS's arm.
#[tactic(auto, unfolding(crate::specs::Forms::space_arm))]
fn space_at(r: &mut Reader<'_>) -> Result<NfsResult, ResErr>
    ensures { GivesAt (λ x. x) result r.new (reads space_arm r.old) }
{
    Ok(NfsResult::Space {
        tsize: r.word()?,
        bsize: r.word()?,
        blocks: r.word()?,
        bfree: r.word()?,
        bavail: r.word()?,
    })
}

/// An entry, behind the word that announces it.
#[tactic(auto, unfolding(crate::specs::Forms::entry_form))]
fn entry_at(alloc: Global, r: &mut Reader<'_>) -> Result<ListEntry, ResErr>
    ensures { GivesAt (λ x. x) result r.new (reads entry_form r.old) }
{
    let fileid = r.word()?;
    let name = r.opaque(MAX_NAME)?;
    let cookie = r.word()?;
    Ok(ListEntry {
        fileid,
        name: Blob::from_slice(alloc, name)?,
        cookie,
    })
}

/// The entries up to the word that ends them.
fn entries_at(alloc: Global, r: &mut Reader<'_>) -> Result<Vec<ListEntry>, ResErr>
    ensures { GivesAt (λ v. v.items) result r.new (reads (entries_form (length r.old.rest) []) r.old) }
{
    let mut entries = Vec::new(alloc);
    while r.boolean()? {
        let entry = entry_at(alloc, r)?;
        entries.push(entry)?;
    }
    Ok(entries)
}

/// READDIR's arm.
#[tactic(auto, using(xdr_core::proofs::Sequence::reads_then), unfolding(crate::specs::Forms::entries_arm))]
fn listing_at(alloc: Global, r: &mut Reader<'_>) -> Result<NfsResult, ResErr>
    ensures { GivesAt (λ x. x) result r.new (reads (entries_arm (length r.old.rest)) r.old) }
{
    let entries = entries_at(alloc, r)?;
    let eof = r.boolean()?;
    Ok(NfsResult::Entries {
        entries: Listing::new(entries),
        eof,
    })
}

/// What follows the status OK.
fn arm_at(alloc: Global, proc: u32, r: &mut Reader<'_>) -> Result<NfsResult, ResErr>
    ensures { GivesAt (λ x. x) result r.new (reads (arm_form (length r.old.rest) proc) r.old) }
{
    match proc {
        1 | 2 | 8 => attr_at(r),
        4 | 9 | 14 => node_at(r),
        5 => path_at(alloc, r),
        6 => content_at(alloc, r),
        16 => listing_at(alloc, r),
        17 => space_at(r),
        _ => Ok(NfsResult::Done),
    }
}

/// Whether the procedure has no result.
fn is_bare(proc: u32) -> bool
    ensures { result ≡ (proc == 0 || proc == 3 || proc == 7) }
{
    proc == 0 || proc == 3 || proc == 7
}

/// The result that stands next.
fn result_at(alloc: Global, proc: u32, r: &mut Reader<'_>) -> Result<NfsResult, ResErr>
    ensures { GivesAt (λ x. x) result r.new (reads (result_form (length r.old.rest) proc) r.old) }
{
    if is_bare(proc) {
        return Ok(NfsResult::Nothing);
    }
    let status = r.word()?;
    if status != 0 {
        return Ok(NfsResult::Refused(Stat(status)));
    }
    arm_at(alloc, proc, r)
}

/// The result, behind which nothing stands.
#[tactic(auto, unfolding(xdr_core::specs::Grammar::reads_all))]
fn whole_result(alloc: Global, proc: u32, bytes: &[u8]) -> Result<NfsResult, ResErr>
    ensures { GivesWhole result (reads_all (result_form (length bytes.now) proc) bytes.now) }
{
    let mut r = Reader::new(bytes);
    let found = result_at(alloc, proc, &mut r)?;
    r.end()?;
    Ok(found)
}

/// The result of a procedure that the bytes spell, all of them, or the first wrong item (RFC 1094, 2.2).
pub fn read_result(alloc: Global, proc: u32, bytes: &[u8]) -> Result<NfsResult, ResErr>
    requires { proc ≤ 17 }
    ensures read { IsResultOf proc bytes.now result }
{
    whole_result(alloc, proc, bytes)
}
