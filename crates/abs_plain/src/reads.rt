//! Answers of the calls that only read.

ghost use Rattle.std.specs.Prelude.{◌≡◌, ◌≤◌, IfOk, take, drop, min};
ghost use Rattle.nfs2_types.specs.Call.{call_of};
ghost use Rattle.abs_model.specs.Array.{used};
ghost use Rattle.abs_plain.specs.Ready.{CanRead};
ghost use Rattle.abs_plain.specs.Steps.{found, read_answer, space};

use crate::bytes::tail;
use abs_model::{Entry, TRANSFER_LIMIT};
use abs_queries::listed::listed;
use abs_queries::look::{at, bytes_at, parent, target, used};
use abs_queries::seen::{fattr, node_at};
use nfs2_types::{Args, Blob, Limits, NfsResult};
use std::alloc::{AllocError, Global};

/// Where LOOKUP leads.
fn found(entries: &[Entry], d: usize, name: &[u8]) -> usize
    ensures { result ≡ found entries.now d name.now }
{
    if name == b".".as_slice() {
        return d;
    }
    if name == b"..".as_slice() {
        return parent(entries, d);
    }
    target(entries, d, name)
}

/// The first bytes, at most this many.
fn head(bytes: &[u8], most: usize) -> &[u8]
    ensures { result.now ≡ take most bytes.now }
{
    if most < bytes.len() {
        return &bytes[..most];
    }
    bytes
}

/// A copy of at most min(count, 8192) bytes from an offset on.
fn piece(alloc: Global, bytes: &[u8], offset: u32, count: u32) -> Result<Blob, AllocError>
    ensures { IfOk result (λ b. b ≡ take (min count 8192) (drop offset bytes.now)) }
{
    let wanted = head(
        tail(bytes, offset as usize),
        count.min(TRANSFER_LIMIT) as usize,
    );
    Ok(Blob::new(Vec::from_slice(alloc, wanted)?))
}

/// The answer of STATFS.
fn space(entries: &[Entry], limits: &Limits) -> NfsResult
    requires { used entries.now ≤ limits.now.t }
    ensures { result ≡ space entries.now limits.now }
{
    let t = limits.t;
    let left = ((u128::from(t) - used(entries)) / 512) as u32;
    NfsResult::Space {
        tsize: TRANSFER_LIMIT,
        bsize: 512,
        blocks: t / 512,
        bfree: left,
        bavail: left,
    }
}

/// The answer of a call that is not refused and only reads; none of a call that changes the array.
pub fn answer(
    alloc: Global,
    entries: &[Entry],
    limits: &Limits,
    args: &Args,
) -> Result<Option<NfsResult>, AllocError>
    requires { CanRead limits.now entries.now (call_of args.now) }
    ensures { IfOk result (λ o. o ≡ read_answer entries.now limits.now (call_of args.now)) }
{
    let answer = match args {
        Args::Null | Args::Root | Args::WriteCache => NfsResult::Nothing,
        Args::GetAttr { node } => NfsResult::Attr(fattr(entries, at(entries, node))),
        Args::Lookup { dir, name } => { node_at(entries, found(entries, at(entries, dir), name)) }
        Args::ReadLink { node } => {
            let text = bytes_at(entries, at(entries, node));
            NfsResult::Path(Blob::new(Vec::from_slice(alloc, text)?))
        }
        Args::Read {
            file,
            offset,
            count,
        } => {
            let i = at(entries, file);
            let bytes = piece(alloc, bytes_at(entries, i), *offset, *count)?;
            NfsResult::Content {
                fattr: fattr(entries, i),
                bytes,
            }
        }
        Args::ReadDir { dir, cookie, count } => {
            listed(alloc, entries, at(entries, dir), *cookie, *count)?
        }
        Args::StatFs { node } => space(entries, limits),
        Args::SetAttr { .. } | Args::Write { .. } | Args::Create { .. } => return Ok(None),
        Args::Remove { .. } | Args::Rename { .. } | Args::Link { .. } => return Ok(None),
        Args::Symlink { .. } | Args::MkDir { .. } | Args::RmDir { .. } => return Ok(None),
    };
    Ok(Some(answer))
}
