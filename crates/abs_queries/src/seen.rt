//! What a client sees of an object.

ghost use Rattle.std.specs.Prelude.{◌≡◌, ◌==◌, ◌<◌, ◌≤◌, ◌^◌, ◌+◌, ◌-◌, ◌*◌, ◌/◌, length, count_by};
ghost use Rattle.abs_model.specs.Objects.{is_dir, names_of, bytes_of, attr_of};
ghost use Rattle.abs_model.specs.Array.{entry_at, fattr, fattr_by, subdirs, links, handle_at};
ghost use Rattle.abs_model.specs.Machine.{node_at};
ghost use Rattle.abs_model.specs.Bounds.{HasBounds};

use crate::entries::attr_of;
use crate::look::{is_dir_at, links};
use abs_model::{
    Attr, DIR_MODE, DIR_TYPE, Entry, FILE_MODE, FILE_TYPE, LINK_MODE, LINK_TYPE, NameRow, Object,
};
use nfs2_types::{Fattr, Handle, NfsResult, Oid, handle_of};

/// The subdirectories among these names.
fn subdirs(entries: &[Entry], rows: &[NameRow]) -> usize
    ensures number { result ≡ subdirs entries.now rows.now }
    ensures bound { result ≤ length rows.now }
{
    rows.iter()
        .filter(|r| is_dir_at(entries, r.index as usize))
        .count()
}

/// The words of the attributes.
fn fattr_by(a: &Attr, ftype: u32, kind_bits: u32, nlink: u32, size: u32, i: u32) -> Fattr
    requires mode { kind_bits + a.now.mode < 2 ^ 32 }
    requires index { i + 1 < 2 ^ 32 }
    ensures { result ≡ fattr_by a.now ftype kind_bits nlink size i }
{
    Fattr {
        ftype,
        mode: kind_bits + a.mode,
        nlink,
        uid: a.uid,
        gid: a.gid,
        size,
        blocksize: 4096,
        rdev: 0,
        blocks: size.div_ceil(512),
        fsid: 1,
        fileid: i + 1,
        atime_secs: a.atime.secs,
        atime_micros: a.atime.micros,
        mtime_secs: a.mtime.secs,
        mtime_micros: a.mtime.micros,
        ctime_secs: a.ctime.secs,
        ctime_micros: a.ctime.micros,
    }
}

/// The attributes that a client sees of an entry.
pub fn fattr(entries: &[Entry], i: usize) -> Fattr
    requires { HasBounds entries.now i }
    ensures { result ≡ fattr entries.now i }
{
    let e = &entries[i];
    match &e.object {
        Object::Null => fattr_by(&attr_of(e), 0, 0, 0, 0, i as u32),
        Object::File { attr, bytes } => fattr_by(
            attr,
            FILE_TYPE,
            FILE_MODE,
            links(entries, i) as u32,
            bytes.len() as u32,
            i as u32,
        ),
        Object::Dir { attr, names } => {
            let rows = names.as_slice();
            fattr_by(
                attr,
                DIR_TYPE,
                DIR_MODE,
                2 + subdirs(entries, rows) as u32,
                512 + 32 * rows.len() as u32,
                i as u32,
            )
        }
        Object::Link { attr, text } => fattr_by(
            attr,
            LINK_TYPE,
            LINK_MODE,
            links(entries, i) as u32,
            text.len() as u32,
            i as u32,
        ),
    }
}

/// A handle and the attributes.
pub fn node_at(entries: &[Entry], i: usize) -> NfsResult
    requires { HasBounds entries.now i }
    ensures { result ≡ node_at entries.now i }
{
    let handle = handle_of(Oid {
        index: i as u32,
        generation: entries[i].generation,
    });
    NfsResult::Node {
        handle,
        fattr: fattr(entries, i),
    }
}
