//! Writes the texts of entries.

ghost use Rattle.std.specs.Prelude.{◌≡◌, ◌++◌, ◌<◌, ◌^◌, ℕ, List, All, IfOk, OnOk, length};
ghost use Rattle.xdr_core.specs.Items.{spell_word, spell_opaque};
ghost use Rattle.abs_text.specs.Lengths.{HasText};
ghost use Rattle.abs_text.specs.Text.{attr_text, rows_text, object_text, entry_text};

use abs_model::{Attr, Entry, NameRow, Object};
use nfs2_types::NoMemory;
use std::alloc::Global;
use xdr_core::Writer;

/// Appends mode, owners and times.
fn put_attr(w: &mut Writer, a: &Attr) -> Result<(), NoMemory>
    ensures { OnOk result ((rest : List ℕ) → w.new ++ rest ≡ w.old ++ attr_text a.now rest) }
{
    w.words(&[
        a.mode,
        a.uid,
        a.gid,
        a.atime.secs,
        a.atime.micros,
        a.mtime.secs,
        a.mtime.micros,
        a.ctime.secs,
        a.ctime.micros,
    ])
}

/// Appends a name, and where it leads.
fn put_row(w: &mut Writer, row: &NameRow) -> Result<(), NoMemory>
    requires { length row.now.name < 2 ^ 32 }
    ensures { OnOk result ((rest : List ℕ) → w.new ++ rest ≡ w.old ++ (spell_opaque row.now.name
        ++ (spell_word row.now.index ++ (spell_word row.now.generation ++ rest)))) }
{
    w.opaque(row.name.as_slice())?;
    w.word(row.index)?;
    w.word(row.generation)
}

/// Appends names, each with where it leads.
fn put_rows(w: &mut Writer, rows: &[NameRow]) -> Result<(), NoMemory>
    requires { All (λ r. length r.name < 2 ^ 32) rows.now }
    ensures { OnOk result (w.new ≡ w.old ++ rows_text rows.now) }
{
    for row in rows {
        put_row(w, row)?;
    }
    Ok(())
}

/// Appends the kind of an object, and what it holds.
fn put_object(w: &mut Writer, object: &Object) -> Result<(), NoMemory>
    requires { HasText object.now }
    ensures { OnOk result (w.new ≡ w.old ++ object_text object.now) }
{
    match object {
        Object::Null => w.word(0),
        Object::File { attr, bytes } => {
            w.word(1)?;
            put_attr(w, attr)?;
            w.opaque(bytes.as_slice())
        }
        Object::Dir { attr, names } => {
            let rows = names.as_slice();
            w.word(2)?;
            put_attr(w, attr)?;
            w.word(rows.len() as u32)?;
            put_rows(w, rows)
        }
        Object::Link { attr, text } => {
            w.word(5)?;
            put_attr(w, attr)?;
            w.opaque(text.as_slice())
        }
    }
}

/// The text of an entry at an index.
pub fn write_entry(alloc: Global, index: u32, entry: &Entry) -> Result<Vec<u8>, NoMemory>
    requires { HasText entry.now.object }
    ensures { IfOk result (λ text. text.items ≡ entry_text index entry.now) }
{
    let mut w = Writer::new(alloc);
    w.words(&[0, index, entry.generation])?;
    put_object(&mut w, &entry.object)?;
    Ok(w.into_bytes())
}
