//! What stands in an array: by handles, names and indexes.

ghost use Rattle.std.specs.Prelude.{◌≡◌, ◌<◌, ◌≤◌, ◌^◌, ◌+◌, ℕ, length, true, position, IfSome, nat_lt};
ghost use Rattle.abs_model.specs.Objects.{is_file, is_dir, is_link, names_of, bytes_of};
ghost use Rattle.abs_model.specs.Array.{entry_at, used, free, links, has_row_to, parent, climbs_to, live, at, target, has_name, can_take};
ghost use Rattle.abs_model.specs.Machine.{is_stale, found_or_made};

use crate::entries::{bytes_of, can_take, is_dir, is_file, is_link, is_null, names_of, used_by};
use crate::names::{row_of, rows_to};
use abs_model::{Entry, NameRow};
use nfs2_types::{Handle, oid_of};

/// The index that a handle names, where it is not stale.
pub fn live(entries: &[Entry], h: &Handle) -> Option<usize>
    ensures { result ≡ live entries.now h.now }
{
    let o = oid_of(h)?;
    let e = entries.get(o.index as usize)?;
    if !is_null(e) && e.generation == o.generation {
        Some(o.index as usize)
    } else {
        None
    }
}

/// A handle names no object.
pub fn is_stale(entries: &[Entry], h: &Handle) -> bool
    ensures { result ≡ is_stale entries.now h.now }
{
    live(entries, h).is_none()
}

/// The index that a handle names, and the array's length for a stale one.
pub fn at(entries: &[Entry], h: &Handle) -> usize
    ensures { result ≡ at entries.now h.now }
{
    live(entries, h).unwrap_or(entries.len())
}

/// The lowest index that a new object can have.
pub fn free(entries: &[Entry]) -> Option<usize>
    ensures place { result ≡ free entries.now }
    ensures within { IfSome result (λ i. i < length entries.now) }
    ensures rises { IfSome result (λ i. can_take (entry_at entries.now i) ≡ true) }
{
    entries.iter().position(can_take)
}

pub fn is_dir_at(entries: &[Entry], i: usize) -> bool
    ensures { result ≡ is_dir (entry_at entries.now i) }
{
    match entries.get(i) {
        Some(e) => is_dir(e),
        None => false,
    }
}

pub fn is_link_at(entries: &[Entry], i: usize) -> bool
    ensures { result ≡ is_link (entry_at entries.now i) }
{
    match entries.get(i) {
        Some(e) => is_link(e),
        None => false,
    }
}

pub fn is_file_at(entries: &[Entry], i: usize) -> bool
    ensures { result ≡ is_file (entry_at entries.now i) }
{
    match entries.get(i) {
        Some(e) => is_file(e),
        None => false,
    }
}

/// The names at an index, none past the end.
pub fn names_at(entries: &[Entry], i: usize) -> &[NameRow]
    ensures { result.now ≡ names_of (entry_at entries.now i) }
{
    match entries.get(i) {
        Some(e) => names_of(e),
        None => &[],
    }
}

pub fn has_names_at(entries: &[Entry], i: usize) -> bool
    ensures { result ≡ nat_lt 0 (length (names_of (entry_at entries.now i))) }
{
    !names_at(entries, i).is_empty()
}

/// The bytes at an index, none past the end.
pub fn bytes_at(entries: &[Entry], i: usize) -> &[u8]
    ensures { result.now ≡ bytes_of (entry_at entries.now i) }
{
    match entries.get(i) {
        Some(e) => bytes_of(e),
        None => &[],
    }
}

pub fn has_name(entries: &[Entry], d: usize, name: &[u8]) -> bool
    ensures { result ≡ has_name entries.now d name.now }
{
    row_of(name, names_at(entries, d)).is_some()
}

/// Where a name of a directory leads, and the array's length where the directory has no such name.
pub fn target(entries: &[Entry], d: usize, name: &[u8]) -> usize
    ensures { result ≡ target entries.now d name.now }
{
    match row_of(name, names_at(entries, d)) {
        Some(r) => r.index as usize,
        None => entries.len(),
    }
}

/// The index that a call finds or makes for a name.
pub fn found_or_made(entries: &[Entry], d: usize, name: &[u8]) -> usize
    ensures { result ≡ found_or_made entries.now d name.now }
{
    if has_name(entries, d, name) {
        target(entries, d, name)
    } else {
        match free(entries) {
            Some(i) => i,
            None => entries.len(),
        }
    }
}

/// What all entries count of the space.
pub fn used(entries: &[Entry]) -> u128
    requires { used entries.now < 2 ^ 64 }
    ensures { result ≡ used entries.now }
{
    let mut sum = 0;
    for e in entries {
        sum += used_by(e);
    }
    sum
}

/// How many names lead to an index.
pub fn links(entries: &[Entry], i: usize) -> usize
    requires { links entries.now i < 2 ^ 64 }
    ensures { result ≡ links entries.now i }
{
    let mut sum = 0;
    for e in entries {
        sum += rows_to(i, names_of(e));
    }
    sum
}

fn has_row_to(i: usize, e: &Entry) -> bool
    ensures { result ≡ has_row_to i e.now }
{
    names_of(e).iter().any(|r| r.index as usize == i)
}

/// The directory whose list names an index; the root's is the root.
pub fn parent(entries: &[Entry], i: usize) -> usize
    ensures { result ≡ parent entries.now i }
{
    if i == 0 {
        return 0;
    }
    namer(entries, i).unwrap_or(0)
}

fn namer(entries: &[Entry], i: usize) -> Option<usize>
    ensures { result ≡ position (has_row_to i) entries.now }
{
    entries.iter().position(|e| has_row_to(i, e))
}

/// In at most `steps` steps to parents one comes from here to i.
pub fn climbs_to(entries: &[Entry], i: usize, steps: usize, here: usize) -> bool
    ensures { result ≡ climbs_to entries.now i steps here }
{
    let mut at = here;
    for step in 0..steps {
        if at == i {
            return true;
        }
        at = parent(entries, at);
    }
    at == i
}
