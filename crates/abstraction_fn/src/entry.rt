//! Reads entries.

ghost use Rattle.std.specs.Prelude.{◌≡◌, ◌<◌, List, true, OnOk, IfOk, length, get_or};
ghost use Rattle.abs_model.specs.declared.Entry.{Entry as AbsEntry};
ghost use Rattle.abs_model.specs.Array.{entry_at};
ghost use Rattle.abs_model.specs.Objects as objects;
ghost use Rattle.conf_map.specs.Stands.{StandValid};
ghost use Rattle.conf_map.specs.Notice.{Watched};
ghost use Rattle.conf_map.specs.Shown.{attr_by};
ghost use Rattle.conf_map.specs.Tables.{IsLive};
ghost use Rattle.abstraction_fn.specs.Bytes.{without_bytes, with_bytes};

use crate::rows::rows_of;
use abs_model::{Attr, Entry, FILE_LIMIT, Object};
use conf_map::{Located, bytes_of, object_at, text_of};
use nfs2_types::{Blob, Kind};
use server_trait::{ConfEntry, ConfTable, NodeAttr, Srv, WrapErr};
use std::alloc::Global;

/// Mode and owners as the server tells them, and the times of the row.
fn attr_of(seen: &NodeAttr, row: &ConfEntry) -> Attr
    ensures { result ≡ attr_by seen.now row.now }
{
    Attr {
        mode: seen.mode,
        uid: seen.uid,
        gid: seen.gid,
        atime: row.atime,
        mtime: row.mtime,
        ctime: row.ctime,
    }
}

/// The object of a live row, a file without its bytes.
fn object_without_bytes(
    alloc: Global,
    server: &mut Srv,
    table: &ConfTable,
    at: &Located,
    row: &ConfEntry,
) -> Result<Object, WrapErr>
    requires stands { (A : List AbsEntry) × StandValid (state server.old).tree table.now A }
    requires live { IsLive table.now.rows.items at.now }
    requires row { row.now ≡ get_or table.now.rows.items at.now.index row.now }
    ensures object { IfOk result (λ o. (A : List AbsEntry) →
        StandValid (state server.old).tree table.now A →
        o ≡ (without_bytes (entry_at A at.now.index)).object) }
    ensures same { OnOk result ((state server.new).tree ≡ (state server.old).tree) }
    ensures watched { Watched (state server.old) (state server.new) result }
{
    let seen = object_at(server, table, at)?;
    let attr = attr_of(&seen, row);
    match seen.kind {
        Kind::File => Ok(Object::File {
            attr,
            bytes: Blob::new(Vec::new(alloc)),
        }),
        Kind::Dir => {
            let names = rows_of(alloc, server, table, at)?;
            Ok(Object::Dir { attr, names })
        }
        Kind::Link => {
            let text = text_of(server, table, at)?;
            Ok(Object::Link {
                attr,
                text: Blob::new(text),
            })
        }
    }
}

/// The entry at an index, a file without its bytes.
pub fn entry_without_bytes(
    alloc: Global,
    server: &mut Srv,
    table: &ConfTable,
    index: u32,
) -> Result<Entry, WrapErr>
    requires stands { (A : List AbsEntry) × StandValid (state server.old).tree table.now A }
    requires within { index < length table.now.rows.items }
    ensures entry { IfOk result (λ e. (A : List AbsEntry) →
        StandValid (state server.old).tree table.now A → e ≡ without_bytes (entry_at A index)) }
    ensures same { OnOk result ((state server.new).tree ≡ (state server.old).tree) }
    ensures watched { Watched (state server.old) (state server.new) result }
{
    let row = table.rows[index as usize];
    let generation = row.generation;
    match row.handle {
        None => Ok(Entry {
            generation,
            object: Object::Null,
        }),
        Some(handle) => {
            let at = Located { index, handle };
            let object = object_without_bytes(alloc, server, table, &at, &row)?;
            Ok(Entry { generation, object })
        }
    }
}

/// Whether it is a file.
fn is_file(entry: &Entry) -> bool
    ensures { result ≡ objects.is_file entry.now }
{
    matches!(entry.object, Object::File { .. })
}

/// The entry, where it is a file with these bytes.
fn filled(entry: Entry, bytes: Vec<u8>) -> Entry
    ensures { result ≡ with_bytes bytes.items entry }
{
    let Entry { generation, object } = entry;
    let object = match object {
        Object::Null => Object::Null,
        Object::File { attr, .. } => Object::File {
            attr,
            bytes: Blob::new(bytes),
        },
        Object::Dir { attr, names } => Object::Dir { attr, names },
        Object::Link { attr, text } => Object::Link { attr, text },
    };
    Entry { generation, object }
}

/// The entry at an index.
pub fn entry_of(
    alloc: Global,
    server: &mut Srv,
    table: &ConfTable,
    index: u32,
) -> Result<Entry, WrapErr>
    requires stands { (A : List AbsEntry) × StandValid (state server.old).tree table.now A }
    requires within { index < length table.now.rows.items }
    ensures entry { IfOk result (λ e. (A : List AbsEntry) →
        StandValid (state server.old).tree table.now A → e ≡ entry_at A index) }
    ensures same { OnOk result ((state server.new).tree ≡ (state server.old).tree) }
    ensures watched { Watched (state server.old) (state server.new) result }
{
    let entry = entry_without_bytes(alloc, server, table, index)?;
    let Some(handle) = table.rows[index as usize].handle else {
        return Ok(entry);
    };
    if !is_file(&entry) {
        return Ok(entry);
    }
    let at = Located { index, handle };
    let bytes = bytes_of(server, table, &at, 0, FILE_LIMIT)?;
    Ok(filled(entry, bytes))
}
