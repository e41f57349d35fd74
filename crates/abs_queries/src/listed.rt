//! The list of a directory.

ghost use Rattle.std.specs.Prelude.{◌≡◌, ◌<◌, ◌≤◌, ◌^◌, ◌+◌, ◌-◌, length, take, drop, IfOk};
ghost use Rattle.abs_model.specs.Listed.{dots, room_of, fitting, listing, page, listed};
ghost use Rattle.abs_queries.specs.Listable.{CanList};

use crate::look::{names_at, parent};
use abs_model::{Entry, TRANSFER_LIMIT};
use nfs2_types::{Blob, ListEntry, Listing, NfsResult};
use std::alloc::{AllocError, Global};

/// The bytes that an entry takes in an answer.
fn room_of(e: &ListEntry) -> u128
    ensures number { result ≡ room_of e.now }
    ensures bound { result < 2 ^ 65 }
{
    16 + (e.name.len() as u128 + 3) / 4 * 4
}

/// How many entries from the first take at most this room.
#[tactic(auto, using(crate::proofs::ListedFacts::fitting_yes, crate::proofs::ListedFacts::fitting_no))]
fn fitting(room: u128, entries: &[ListEntry]) -> usize
    ensures within { result ≤ length entries.now }
    ensures run { take result entries.now ≡ fitting room entries.now }
{
    let mut left = room;
    for (i, e) in entries.iter().enumerate() {
        let needed = room_of(e);
        if needed > left {
            return i;
        }
        left -= needed;
    }
    entries.len()
}

/// The entries "." and ".." of a directory and its parent.
pub fn dots(alloc: Global, d: u32, parent: u32) -> Result<Vec<ListEntry>, AllocError>
    requires dir { d + 1 < 2 ^ 32 }
    requires parent { parent + 1 < 2 ^ 32 }
    ensures { IfOk result (λ v. v.items ≡ dots d parent) }
{
    let mut out = Vec::new(alloc);
    out.push(ListEntry {
        fileid: d + 1,
        name: Blob::new(Vec::from_slice(alloc, b".")?),
        cookie: 1,
    })?;
    out.push(ListEntry {
        fileid: parent + 1,
        name: Blob::new(Vec::from_slice(alloc, b"..")?),
        cookie: 2,
    })?;
    Ok(out)
}

/// All entries of a directory.
fn listing(alloc: Global, entries: &[Entry], d: usize) -> Result<Vec<ListEntry>, AllocError>
    requires { CanList entries.now d }
    ensures { IfOk result (λ v. v.items ≡ listing entries.now d) }
{
    let mut out = dots(alloc, d as u32, parent(entries, d) as u32)?;
    let rows = names_at(entries, d);
    for (i, r) in rows.iter().enumerate() {
        out.push(ListEntry {
            fileid: r.index + 1,
            name: r.name.clone()?,
            cookie: i as u32 + 3,
        })?;
    }
    Ok(out)
}

/// The entries from a cookie on, none past the end.
#[tactic(auto, using(crate::proofs::Ends::ends))]
fn behind(entries: &[ListEntry], cookie: usize) -> &[ListEntry]
    ensures { result.now ≡ drop cookie entries.now }
{
    if cookie < entries.len() {
        return &entries[cookie..];
    }
    &[]
}

fn copied(alloc: Global, entries: &[ListEntry]) -> Result<Vec<ListEntry>, AllocError>
    ensures { IfOk result (λ v. v.items ≡ entries.now) }
{
    let mut out = Vec::new(alloc);
    for e in entries {
        out.push(ListEntry {
            fileid: e.fileid,
            name: e.name.clone()?,
            cookie: e.cookie,
        })?;
    }
    Ok(out)
}

/// The part of a list that answers a cookie and a count.
pub fn page(
    alloc: Global,
    entries: &[ListEntry],
    cookie: u32,
    count: u32,
) -> Result<NfsResult, AllocError>
    ensures { IfOk result (λ r. r ≡ page entries.now cookie count) }
{
    let rest = behind(entries, cookie as usize);
    let room = count.min(TRANSFER_LIMIT).saturating_sub(8);
    let n = fitting(u128::from(room), rest);
    let given = copied(alloc, &rest[..n])?;
    Ok(NfsResult::Entries {
        entries: Listing::new(given),
        eof: n == rest.len(),
    })
}

/// The answer of a directory to a cookie and a count.
pub fn listed(
    alloc: Global,
    entries: &[Entry],
    d: usize,
    cookie: u32,
    count: u32,
) -> Result<NfsResult, AllocError>
    requires { CanList entries.now d }
    ensures { IfOk result (λ r. r ≡ listed entries.now d cookie count) }
{
    let all = listing(alloc, entries, d)?;
    page(alloc, all.as_slice(), cookie, count)
}
