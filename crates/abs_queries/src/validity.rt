//! Whether a list of entries is an array of a service.

ghost use Rattle.std.specs.Prelude.{◌≡◌, ◌==◌, ◌&&◌, ◌<◌, ◌≤◌, ◌^◌, ◌+◌, ◌*◌, ◌≢◌, ◌↔◌, ℕ, Bool, true, false, not, length, IfOk, IsTrue, Decides, nat_le, take};
ghost use Rattle.std.specs.List.{list_all};
ghost use Rattle.nfs2_types.specs.Names.{is_name};
ghost use Rattle.nfs2_types.specs.Times.{is_time};
ghost use Rattle.abs_model.specs.Objects.{names_of, bytes_of, attr_of, is_link, is_dir, is_null, name_lt};
ghost use Rattle.abs_model.specs.Array.{entry_at, links, used, is_named_by};
ghost use Rattle.abs_model.specs.Valid.{is_rising, most_bytes, times_fit, entry_fits, leads, Valid, IsReached};
ghost use Rattle.abs_queries.specs.Marks.{is_marked, IsOrderly};

use crate::entries::{attr_of, bytes_of, is_link, is_null, names_of, used_by};
use crate::look::is_dir_at;
use crate::marking::reached;
use crate::names::{name_lt, rows_to};
use abs_model::{Attr, Entry, FILE_LIMIT, NameRow, TEXT_LIMIT};
use nfs2_types::{Limits, NoMemory, Time, is_bad, is_dot};
use std::alloc::{AllocError, Global};

/// A name that a directory may have.
fn is_name(name: &[u8]) -> bool
    ensures { result ≡ is_name name.now }
{
    !is_bad(name) && name.len() <= 255 && !is_dot(name)
}

/// Each name stands below the next, and so below all that follow it.
fn is_rising(rows: &[NameRow]) -> bool
    ensures { result ≡ is_rising rows.now }
{
    for i in 1..rows.len() {
        if !name_lt(rows[i - 1].name.as_slice(), rows[i].name.as_slice()) {
            return false;
        }
    }
    true
}

fn all_names(rows: &[NameRow]) -> bool
    ensures { result ≡ list_all (λ r. is_name r.name) rows.now }
{
    rows.iter().all(|r| is_name(r.name.as_slice()))
}

/// The bytes that an entry may have.
fn most_bytes(e: &Entry) -> usize
    ensures { result ≡ most_bytes e.now }
{
    let most = if is_link(e) { TEXT_LIMIT } else { FILE_LIMIT };
    most as usize
}

fn is_time(t: Time) -> bool
    ensures { result ≡ is_time t }
{
    t.micros < 1000000
}

fn times_fit(a: &Attr) -> bool
    ensures { result ≡ times_fit a.now }
{
    is_time(a.atime) && is_time(a.mtime) && is_time(a.ctime)
}

/// The rules of an entry by itself.
fn entry_fits(e: &Entry) -> bool
    ensures { result ≡ entry_fits e.now }
{
    attr_of(e).mode < 4096
        && times_fit(&attr_of(e))
        && is_rising(names_of(e))
        && all_names(names_of(e))
        && bytes_of(e).len() <= most_bytes(e)
}

fn all_fit(entries: &[Entry]) -> bool
    ensures { result ≡ list_all entry_fits entries.now }
{
    entries.iter().all(entry_fits)
}

/// A name leads to a live entry other than the root, of its generation.
fn leads(entries: &[Entry], r: &NameRow) -> bool
    ensures { result ≡ leads entries.now r.now }
{
    r.index != 0
        && match entries.get(r.index as usize) {
            Some(e) => !is_null(e) && e.generation == r.generation,
            None => false,
        }
}

fn rows_lead(entries: &[Entry], e: &Entry) -> bool
    ensures { result ≡ list_all (leads entries.now) (names_of e.now) }
{
    names_of(e).iter().all(|r| leads(entries, r))
}

fn all_lead(entries: &[Entry]) -> bool
    ensures { result ≡ list_all (λ e. list_all (leads entries.now) (names_of e)) entries.now }
{
    entries.iter().all(|e| rows_lead(entries, e))
}

/// Exactly one name leads to an index.
fn one_link(entries: &[Entry], i: usize) -> bool
    ensures { result ≡ (links entries.now i == 1) }
{
    let mut count = 0;
    for e in entries {
        count += rows_to(i, names_of(e));
        if count > 1 {
            return false;
        }
    }
    count == 1
}

/// Each directory but the root has one name.
fn one_name_each(entries: &[Entry]) -> bool
    ensures yes { result ≡ true → (i : ℕ) → i < length entries.now →
        is_dir (entry_at entries.now i) ≡ true → i ≢ 0 → links entries.now i ≡ 1 }
    ensures no { result ≡ false → (i : ℕ) × (is_dir (entry_at entries.now i) ≡ true) ×
        (i ≢ 0) × (links entries.now i ≢ 1) }
{
    for i in 1..entries.len() {
        if is_dir_at(entries, i) && !one_link(entries, i) {
            return false;
        }
    }
    true
}

/// No more than t is used.
fn has_room(entries: &[Entry], t: u32) -> bool
    ensures { result ≡ nat_le (used entries.now) t }
{
    let mut sum = 0;
    for e in entries {
        sum += used_by(e);
        if sum > t as u128 {
            return false;
        }
    }
    true
}

fn marked_or_null(entries: &[Entry], marks: &[bool]) -> bool
    requires { length marks.now ≡ length entries.now }
    ensures yes { result ≡ true → (i : ℕ) → i < length entries.now →
        is_null (entry_at entries.now i) ≡ false → is_marked marks.now i ≡ true }
    ensures no { result ≡ false → (i : ℕ) × (i < length entries.now) ×
        (is_null (entry_at entries.now i) ≡ false) × (is_marked marks.now i ≡ false) }
{
    for i in 0..entries.len() {
        if !is_null(&entries[i]) && !marks[i] {
            return false;
        }
    }
    true
}

/// Each live entry is reached from the root.
fn all_reached(alloc: Global, entries: &[Entry]) -> Result<bool, AllocError>
    requires { 0 < length entries.now }
    ensures yes { IfOk result (λ b. b ≡ true → (i : ℕ) →
        is_null (entry_at entries.now i) ≡ false → IsReached entries.now i) }
    ensures no { IfOk result (λ b. b ≡ false → (i : ℕ) ×
        (is_null (entry_at entries.now i) ≡ false) × (IsReached entries.now i → ⊥)) }
{
    let marks = reached(alloc, entries)?;
    Ok(marked_or_null(entries, marks.as_slice()))
}

/// All rules but that of what is reached.
fn is_orderly(entries: &[Entry], limits: &Limits) -> bool
    ensures yes { result ≡ true → IsOrderly limits.now entries.now }
    ensures no { result ≡ false → IsOrderly limits.now entries.now → ⊥ }
{
    entries.len() == limits.n as usize
        && is_dir_at(entries, 0)
        && all_fit(entries)
        && all_lead(entries)
        && one_name_each(entries)
        && has_room(entries, limits.t)
}

fn tested(alloc: Global, entries: &[Entry], limits: &Limits) -> Result<bool, AllocError>
    ensures yes { IfOk result (λ b. b ≡ true → Valid limits.now entries.now) }
    ensures no { IfOk result (λ b. b ≡ false → Valid limits.now entries.now → ⊥) }
{
    if !is_orderly(entries, limits) {
        return Ok(false);
    }
    let all = all_reached(alloc, entries)?;
    Ok(all)
}

/// Whether the list is a valid array for these limits.
pub fn is_valid(alloc: Global, entries: &[Entry], limits: &Limits) -> Result<bool, NoMemory>
    ensures { IfOk result (λ b. IsTrue b ↔ Valid limits.now entries.now) }
{
    let all = tested(alloc, entries, limits)?;
    Ok(all)
}
