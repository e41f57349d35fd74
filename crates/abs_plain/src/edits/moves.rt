//! Changes of the calls that move names.

ghost use Rattle.std.specs.Prelude.{◌≡◌, ◌<◌, ◌^◌, IfOk, length};
ghost use Rattle.nfs2_types.specs.Call.{remove, rename, link, remove_dir};
ghost use Rattle.abs_model.specs.Objects.{changed_at, attr_of, with_attr};
ghost use Rattle.abs_model.specs.Array.{entry_at, links};
ghost use Rattle.abs_model.specs.Machine.{changes, unlinked, row_to, rows_move};
ghost use Rattle.abs_plain.specs.Ready.{CanTakeOut, CanLink, CanRename};

use super::change_names;
use crate::attrs::{changed_at, with_attr};
use crate::rows::{comes, placed, without};
use abs_model::{Change, Entry, NameRow, Object};
use abs_queries::entries::{attr_of, names_of};
use abs_queries::look::{at, has_name, links, target};
use nfs2_types::{Blob, Cred, Handle, Time};
use std::alloc::{AllocError, Global};

/// An entry that is changed at t.
fn touched(alloc: Global, e: &Entry, t: Time) -> Result<Entry, AllocError>
    ensures { IfOk result (λ new. new ≡ with_attr (changed_at t (attr_of e.now)) e.now) }
{
    with_attr(alloc, changed_at(t, attr_of(e)), e)
}

/// An entry that loses one name: null with the last, else changed at t.
fn unlinked(alloc: Global, entries: &[Entry], i: usize, t: Time) -> Result<Entry, AllocError>
    requires within { i < length entries.now }
    requires few { links entries.now i < 2 ^ 64 }
    ensures { IfOk result (λ new. new ≡ unlinked entries.now i t) }
{
    if links(entries, i) <= 1 {
        return Ok(Entry {
            generation: entries[i].generation,
            object: Object::Null,
        });
    }
    touched(alloc, &entries[i], t)
}

/// What REMOVE puts where.
pub fn remove(
    alloc: Global,
    entries: &[Entry],
    cred: &Cred,
    t: Time,
    dir: &Handle,
    name: &[u8],
) -> Result<Vec<Change>, AllocError>
    requires { CanTakeOut entries.now dir.now name.now }
    ensures { IfOk result (λ v. v.items ≡ changes entries.now cred.now t (remove dir.now name.now)) }
{
    let d = at(entries, dir);
    let i = target(entries, d, name);
    let rows = without(alloc, name, names_of(&entries[d]))?;
    let mut out = Vec::new(alloc);
    out.push(change_names(&entries[d], d, rows, t))?;
    out.push(Change {
        index: i as u32,
        entry: unlinked(alloc, entries, i, t)?,
    })?;
    Ok(out)
}

/// What RMDIR puts where.
pub fn remove_dir(
    alloc: Global,
    entries: &[Entry],
    cred: &Cred,
    t: Time,
    dir: &Handle,
    name: &[u8],
) -> Result<Vec<Change>, AllocError>
    requires { CanTakeOut entries.now dir.now name.now }
    ensures { IfOk result (λ v. v.items ≡ changes entries.now cred.now t (remove_dir dir.now name.now)) }
{
    let d = at(entries, dir);
    let i = target(entries, d, name);
    let rows = without(alloc, name, names_of(&entries[d]))?;
    let mut out = Vec::new(alloc);
    out.push(change_names(&entries[d], d, rows, t))?;
    out.push(Change {
        index: i as u32,
        entry: Entry {
            generation: entries[i].generation,
            object: Object::Null,
        },
    })?;
    Ok(out)
}

/// The row by which a name leads to an index.
fn row_to(alloc: Global, entries: &[Entry], name: &[u8], i: usize) -> Result<NameRow, AllocError>
    requires small { length entries.now < 2 ^ 32 }
    requires within { i < length entries.now }
    ensures { IfOk result (λ row. row ≡ row_to name.now i (entry_at entries.now i).generation) }
{
    Ok(NameRow {
        name: Blob::new(Vec::from_slice(alloc, name)?),
        index: i as u32,
        generation: entries[i].generation,
    })
}

/// What LINK puts where.
pub fn link(
    alloc: Global,
    entries: &[Entry],
    cred: &Cred,
    t: Time,
    node: &Handle,
    dir: &Handle,
    name: &[u8],
) -> Result<Vec<Change>, AllocError>
    requires { CanLink entries.now node.now dir.now }
    ensures { IfOk result (λ v. v.items ≡ changes entries.now cred.now t (link node.now dir.now name.now)) }
{
    let i = at(entries, node);
    let d = at(entries, dir);
    let row = row_to(alloc, entries, name, i)?;
    let rows = placed(alloc, row, names_of(&entries[d]))?;
    let mut out = Vec::new(alloc);
    out.push(change_names(&entries[d], d, rows, t))?;
    out.push(Change {
        index: i as u32,
        entry: touched(alloc, &entries[i], t)?,
    })?;
    Ok(out)
}

/// A name goes from d, and a row comes to e.
fn rows_move(
    alloc: Global,
    entries: &[Entry],
    d: usize,
    name: &[u8],
    e: usize,
    row: NameRow,
    t: Time,
) -> Result<Vec<Change>, AllocError>
    requires small { length entries.now < 2 ^ 32 }
    requires from_within { d < length entries.now }
    requires to_within { e < length entries.now }
    ensures { IfOk result (λ v. v.items ≡ rows_move entries.now d name.now e row t) }
{
    let mut out = Vec::new(alloc);
    let left = without(alloc, name, names_of(&entries[d]))?;
    if d == e {
        let rows = comes(alloc, row, left.as_slice())?;
        out.push(change_names(&entries[d], d, rows, t))?;
        return Ok(out);
    }
    let rows = comes(alloc, row, names_of(&entries[e]))?;
    out.push(change_names(&entries[d], d, left, t))?;
    out.push(change_names(&entries[e], e, rows, t))?;
    Ok(out)
}

/// What RENAME puts where.
pub fn rename(
    alloc: Global,
    entries: &[Entry],
    cred: &Cred,
    t: Time,
    from: &Handle,
    name: &[u8],
    to: &Handle,
    to_name: &[u8],
) -> Result<Vec<Change>, AllocError>
    requires { CanRename entries.now from.now name.now to.now to_name.now }
    ensures { IfOk result (λ v. v.items ≡
        changes entries.now cred.now t (rename from.now name.now to.now to_name.now)) }
{
    let e = at(entries, to);
    let i = target(entries, at(entries, from), name);
    let j = target(entries, e, to_name);
    let over = has_name(entries, e, to_name);
    if over && i == j {
        return Ok(Vec::new(alloc));
    }
    let row = row_to(alloc, entries, to_name, i)?;
    let mut out = rows_move(alloc, entries, at(entries, from), name, e, row, t)?;
    if over {
        let entry = unlinked(alloc, entries, j, t)?;
        out.push(Change {
            index: j as u32,
            entry,
        })?;
    }
    Ok(out)
}
