//! Changes of the calls that make an object.

ghost use Rattle.std.specs.Prelude.{◌≡◌, IfOk};
ghost use Rattle.nfs2_types.specs.Call.{symlink, make_dir};
ghost use Rattle.abs_model.specs.Array.{at};
ghost use Rattle.abs_model.specs.Machine.{changes, adds};
ghost use Rattle.abs_plain.specs.Ready.{CanAdd};

use super::change_names;
use crate::attrs::new_attr;
use crate::rows::placed;
use abs_model::{Change, Entry, NEW_DIR_MODE, NameRow, Names, OPEN_MODE, Object};
use abs_queries::entries::names_of;
use abs_queries::look::{at, free};
use nfs2_types::{Blob, Cred, Handle, Sattr, Time};
use std::alloc::{AllocError, Global};

/// A directory gets a name, and the lowest free index a new object.
pub fn adds(
    alloc: Global,
    entries: &[Entry],
    d: usize,
    name: &[u8],
    t: Time,
    new: Object,
) -> Result<Vec<Change>, AllocError>
    requires { CanAdd entries.now d }
    ensures { IfOk result (λ v. v.items ≡ adds entries.now d name.now t new) }
{
    let Some(i) = free(entries) else {
        unreachable!();
    };
    let generation = entries[i].generation + 1;
    let row = NameRow {
        name: Blob::new(Vec::from_slice(alloc, name)?),
        index: i as u32,
        generation,
    };
    let rows = placed(alloc, row, names_of(&entries[d]))?;
    let mut out = Vec::new(alloc);
    out.push(change_names(&entries[d], d, rows, t))?;
    out.push(Change {
        index: i as u32,
        entry: Entry {
            generation,
            object: new,
        },
    })?;
    Ok(out)
}

/// What MKDIR puts where.
pub fn make_dir(
    alloc: Global,
    entries: &[Entry],
    cred: &Cred,
    t: Time,
    dir: &Handle,
    name: &[u8],
    s: &Sattr,
) -> Result<Vec<Change>, AllocError>
    requires { CanAdd entries.now (at entries.now dir.now) }
    ensures { IfOk result (λ v. v.items ≡ changes entries.now cred.now t (make_dir dir.now name.now s.now)) }
{
    let new = Object::Dir {
        attr: new_attr(NEW_DIR_MODE, cred, t, s),
        names: Names::new(Vec::new(alloc)),
    };
    adds(alloc, entries, at(entries, dir), name, t, new)
}

/// What SYMLINK puts where.
pub fn symlink(
    alloc: Global,
    entries: &[Entry],
    cred: &Cred,
    t: Time,
    dir: &Handle,
    name: &[u8],
    text: &[u8],
    s: &Sattr,
) -> Result<Vec<Change>, AllocError>
    requires { CanAdd entries.now (at entries.now dir.now) }
    ensures { IfOk result (λ v. v.items ≡ changes entries.now cred.now t (symlink dir.now name.now text.now s.now)) }
{
    let new = Object::Link {
        attr: new_attr(OPEN_MODE, cred, t, s),
        text: Blob::new(Vec::from_slice(alloc, text)?),
    };
    adds(alloc, entries, at(entries, dir), name, t, new)
}
