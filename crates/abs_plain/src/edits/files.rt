//! Changes of attributes and bytes.

ghost use Rattle.std.specs.Prelude.{◌≡◌, ◌<◌, ◌^◌, ◌∷◌, [], IfOk, length, true, false};
ghost use Rattle.nfs2_types.specs.Call.{set_attr, write, create};
ghost use Rattle.nfs2_types.specs.Bytes.{resized};
ghost use Rattle.abs_model.specs.Array.{entry_at, at, has_name, target};
ghost use Rattle.abs_model.specs.Machine.{changes, to_be, with_bytes};
ghost use Rattle.abs_plain.specs.Ready.{IsAt, CanAdd, CanCreate};

use super::makes::adds;
use crate::attrs::{new_attr, set_attr_of, with_attr, written_at};
use crate::bytes::{resized, written};
use abs_model::{Attr, Change, Entry, NEW_FILE_MODE, Object};
use abs_queries::entries::{attr_of, bytes_of};
use abs_queries::look::{at, has_name, target};
use nfs2_types::{Blob, Cred, Handle, Sattr, Time};
use std::alloc::{AllocError, Global};

/// One change.
fn only(alloc: Global, i: usize, entry: Entry) -> Result<Vec<Change>, AllocError>
    requires { i < 2 ^ 32 }
    ensures { IfOk result (λ v. v.items ≡ to_be i entry ∷ []) }
{
    let mut out = Vec::new(alloc);
    out.push(Change {
        index: i as u32,
        entry,
    })?;
    Ok(out)
}

/// A file of an entry's generation.
fn file(e: &Entry, attr: Attr, bytes: Vec<u8>) -> Entry
    ensures { result ≡ record { generation = e.now.generation; object = Object.File attr bytes.items } }
{
    Entry {
        generation: e.generation,
        object: Object::File {
            attr,
            bytes: Blob::new(bytes),
        },
    }
}

/// What SETATTR puts where.
pub fn set_attr(
    alloc: Global,
    entries: &[Entry],
    cred: &Cred,
    t: Time,
    node: &Handle,
    s: &Sattr,
) -> Result<Vec<Change>, AllocError>
    requires { IsAt entries.now (at entries.now node.now) }
    ensures { IfOk result (λ v. v.items ≡ changes entries.now cred.now t (set_attr node.now s.now)) }
{
    let i = at(entries, node);
    let e = &entries[i];
    let attr = set_attr_of(s, t, attr_of(e));
    let entry = match s.size {
        Some(size) => file(e, attr, resized(alloc, size as usize, bytes_of(e))?),
        None => with_attr(alloc, attr, e)?,
    };
    only(alloc, i, entry)
}

/// What WRITE puts where.
pub fn write(
    alloc: Global,
    entries: &[Entry],
    cred: &Cred,
    t: Time,
    file: &Handle,
    offset: u32,
    bytes: &[u8],
) -> Result<Vec<Change>, AllocError>
    requires { IsAt entries.now (at entries.now file.now) }
    ensures { IfOk result (λ v. v.items ≡ changes entries.now cred.now t (write file.now offset bytes.now)) }
{
    let i = at(entries, file);
    let e = &entries[i];
    let all = written(alloc, offset as usize, bytes, bytes_of(e))?;
    only(alloc, i, self::file(e, written_at(t, attr_of(e)), all))
}

/// A file gets another size, and is written at t.
fn cut(
    alloc: Global,
    entries: &[Entry],
    i: usize,
    t: Time,
    size: u32,
) -> Result<Vec<Change>, AllocError>
    requires { IsAt entries.now i }
    ensures { IfOk result (λ v. v.items ≡ to_be i (with_bytes (resized size) t (entry_at entries.now i)) ∷ []) }
{
    let e = &entries[i];
    let all = resized(alloc, size as usize, bytes_of(e))?;
    only(alloc, i, file(e, written_at(t, attr_of(e)), all))
}

/// What CREATE puts where.
pub fn create(
    alloc: Global,
    entries: &[Entry],
    cred: &Cred,
    t: Time,
    dir: &Handle,
    name: &[u8],
    s: &Sattr,
) -> Result<Vec<Change>, AllocError>
    requires { CanCreate entries.now (at entries.now dir.now) name.now }
    ensures { IfOk result (λ v. v.items ≡ changes entries.now cred.now t (create dir.now name.now s.now)) }
{
    let d = at(entries, dir);
    if has_name(entries, d, name) {
        return match s.size {
            Some(size) => cut(alloc, entries, target(entries, d, name), t, size),
            None => Ok(Vec::new(alloc)),
        };
    }
    let zeros = vec![in alloc; 0; s.size.unwrap_or(0) as usize]?;
    let new = Object::File {
        attr: new_attr(NEW_FILE_MODE, cred, t, s),
        bytes: Blob::new(zeros),
    };
    adds(alloc, entries, d, name, t, new)
}
