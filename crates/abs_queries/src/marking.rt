//! What is reached from the root, by marks.

ghost use Rattle.std.specs.Prelude.{◌≡◌, ◌==◌, ◌||◌, ◌<◌, ◌≤◌, ℕ, Bool, true, false, length, get_or, IfOk, replicate, slice_set};
ghost use Rattle.std.specs.List.{list_any};
ghost use Rattle.abs_model.specs.Array.{entry_at, has_row_to};
ghost use Rattle.abs_model.specs.Valid.{Walk, IsReached};
ghost use Rattle.abs_queries.specs.Marks.{IsSound, IsComplete, Shows, is_marked};

use crate::look::names_at;
use abs_model::{Entry, NameRow};
use std::alloc::{AllocError, Global};

/// Marks an index, and says whether it was not marked before.
fn mark(marked: &mut [bool], i: usize) -> bool
    ensures marks { marked.new ≡ slice_set marked.old i true }
    ensures same { result ≡ false → marked.new ≡ marked.old }
{
    if i >= marked.len() || marked[i] {
        return false;
    }
    marked[i] = true;
    true
}

/// Marks where the names lead, and says whether any of it is new.
fn mark_rows(rows: &[NameRow], marked: &mut [bool]) -> bool
    ensures long { length marked.new ≡ length marked.old }
    ensures marks { (i : ℕ) → i < length marked.old → get_or marked.new i false ≡
        (get_or marked.old i false || list_any (λ r. r.index == i) rows.now) }
    ensures same { result ≡ false → marked.new ≡ marked.old }
{
    let mut some = false;
    for r in rows {
        if mark(marked, r.index as usize) {
            some = true;
        }
    }
    some
}

/// Marks where a marked entry leads, and says whether any of it is new.
fn visit(entries: &[Entry], here: usize, marked: &mut [bool]) -> bool
    requires within { here < length marked.old }
    requires sound { IsSound entries.now marked.old }
    ensures long { length marked.new ≡ length marked.old }
    ensures sound { IsSound entries.now marked.new }
    ensures grows { (i : ℕ) → is_marked marked.old i ≡ true → is_marked marked.new i ≡ true }
    ensures spreads { (i : ℕ) → i < length marked.old → is_marked marked.old here ≡ true →
        has_row_to i (entry_at entries.now here) ≡ true → is_marked marked.new i ≡ true }
    ensures same { result ≡ false → marked.new ≡ marked.old }
{
    if !marked[here] {
        return false;
    }
    let some = mark_rows(names_at(entries, here), marked);
    some
}

/// Marks where all marked entries lead, and says whether any of it is new.
fn round(entries: &[Entry], marked: &mut [bool]) -> bool
    requires long { length marked.old ≡ length entries.now }
    requires sound { IsSound entries.now marked.old }
    ensures long { length marked.new ≡ length marked.old }
    ensures sound { IsSound entries.now marked.new }
    ensures grows { (i : ℕ) → is_marked marked.old i ≡ true → is_marked marked.new i ≡ true }
    ensures spreads { (d i : ℕ) → d < length marked.old → i < length marked.old →
        is_marked marked.old d ≡ true → has_row_to i (entry_at entries.now d) ≡ true →
        is_marked marked.new i ≡ true }
    ensures same { result ≡ false → marked.new ≡ marked.old }
{
    let mut some = false;
    for here in 0..entries.len() {
        if visit(entries, here, marked) {
            some = true;
        }
    }
    some
}

/// Marks what is reached from the root, until a round marks nothing.
fn rounds(entries: &[Entry], marked: &mut [bool])
    requires clear { marked.old ≡ replicate (length entries.now) false }
    requires some { 0 < length entries.now }
    ensures long { length marked.new ≡ length marked.old }
    ensures shows { Shows entries.now marked.new }
{
    let _first = mark(marked, 0);
    for i in 1..entries.len() {
        if !round(entries, marked) {
            return;
        }
    }
}

/// The marks of what is reached from the root.
pub fn reached(alloc: Global, entries: &[Entry]) -> Result<Vec<bool>, AllocError>
    requires { 0 < length entries.now }
    ensures long { IfOk result (λ v. length v.items ≡ length entries.now) }
    ensures shows { IfOk result (λ v. Shows entries.now v.items) }
{
    let mut marked = vec![in alloc; false; entries.len()]?;
    rounds(entries, marked.as_mut_slice());
    Ok(marked)
}
