//! Reads the texts of entries.

ghost use Rattle.std.specs.Prelude.{◌≡◌, []};
ghost use Rattle.nfs2_types.specs.Names as names;
ghost use Rattle.xdr_core.specs.Grammar.{reads, reads_all, listed, item_at, IsReadingBy};
ghost use Rattle.abs_text.specs.Reading.{FailsAs, GivesAt, GivesWhole};
ghost use Rattle.abs_text.specs.Forms.{tag_word, kind_word, mode_word, micros_word, count_word, name_item, time_form};
ghost use Rattle.abs_text.specs.Forms.{attr_form, row_form, names_form, file_form, dir_form, link_form, kind_form};
ghost use Rattle.abs_text.specs.Forms.{object_form, entry_form, last_row};
ghost use Rattle.abs_text.specs.Forms as forms;

use crate::error::EntryErr;
use abs_model::{Attr, Entry, FILE_LIMIT, NameRow, Names, Object, TEXT_LIMIT};
use nfs2_types::{Blob, MAX_NAME, Time, is_bad, is_dot};
use std::alloc::Global;
use xdr_core::Reader;

// Words with a rule

/// The tag of an entry's text, 0.
#[tactic(auto, unfolding(xdr_core::specs::Grammar::item_at, xdr_core::specs::Items::item_in))]
fn tag_at(r: &mut Reader<'_>) -> Result<u32, EntryErr>
    ensures { GivesAt (λ n. n) result r.new (item_at tag_word r.old) }
{
    let at = r.at();
    let tag = r.word()?;
    if tag != 0 {
        return Err(EntryErr::Text { at });
    }
    Ok(tag)
}

/// The kind of an object.
#[tactic(auto, unfolding(xdr_core::specs::Grammar::item_at, xdr_core::specs::Items::item_in))]
fn kind_at(r: &mut Reader<'_>) -> Result<u32, EntryErr>
    ensures { GivesAt (λ n. n) result r.new (item_at kind_word r.old) }
{
    let at = r.at();
    let kind = r.word()?;
    if kind == 0 || kind == 1 || kind == 2 || kind == 5 {
        return Ok(kind);
    }
    Err(EntryErr::Text { at })
}

/// A mode, of twelve bits.
#[tactic(auto, unfolding(xdr_core::specs::Grammar::item_at, xdr_core::specs::Items::item_in))]
fn mode_at(r: &mut Reader<'_>) -> Result<u32, EntryErr>
    ensures { GivesAt (λ n. n) result r.new (item_at mode_word r.old) }
{
    let at = r.at();
    let mode = r.word()?;
    if 4096 <= mode {
        return Err(EntryErr::Text { at });
    }
    Ok(mode)
}

/// Microseconds, below a million.
#[tactic(auto, unfolding(xdr_core::specs::Grammar::item_at, xdr_core::specs::Items::item_in))]
fn micros_at(r: &mut Reader<'_>) -> Result<u32, EntryErr>
    ensures { GivesAt (λ n. n) result r.new (item_at micros_word r.old) }
{
    let at = r.at();
    let micros = r.word()?;
    if 1000000 <= micros {
        return Err(EntryErr::Text { at });
    }
    Ok(micros)
}

/// How many names follow.
#[tactic(auto, unfolding(xdr_core::specs::Grammar::item_at, xdr_core::specs::Items::item_in))]
fn count_at(r: &mut Reader<'_>) -> Result<u32, EntryErr>
    ensures { GivesAt (λ n. n) result r.new (item_at count_word r.old) }
{
    let at = r.at();
    let count = r.word()?;
    if 32768 < count {
        return Err(EntryErr::Text { at });
    }
    Ok(count)
}

// Names

/// Whether a directory may have the name.
fn is_name(name: &[u8]) -> bool
    ensures { result ≡ names.is_name name.now }
{
    !is_bad(name) && name.len() <= MAX_NAME as usize && !is_dot(name)
}

/// Whether the name stands behind the last of these.
fn is_behind(before: &[NameRow], name: &[u8]) -> bool
    ensures { result ≡ forms.is_behind (last_row before.now) name.now }
{
    match before.last() {
        None => true,
        Some(row) => row.name.as_slice().cmp(&name).is_lt(),
    }
}

/// A name that a directory may have, behind the last of these.
#[tactic(auto, unfolding(xdr_core::specs::Grammar::item_at, xdr_core::specs::Items::item_in))]
fn name_at<'a>(r: &mut Reader<'a>, before: &[NameRow]) -> Result<&'a [u8], EntryErr>
    ensures { GivesAt (λ p. p.now) result r.new (item_at (name_item before.now) r.old) }
{
    let at = r.at();
    let name = r.opaque(MAX_NAME)?;
    if is_name(name) && is_behind(before, name) {
        return Ok(name);
    }
    Err(EntryErr::Text { at })
}

/// A name and where it leads, behind the last of these.
#[tactic(auto, unfolding(crate::specs::Forms::row_form))]
fn row_at(alloc: Global, r: &mut Reader<'_>, before: &[NameRow]) -> Result<NameRow, EntryErr>
    ensures { GivesAt (λ x. x) result r.new (reads (row_form before.now) r.old) }
{
    let name = name_at(r, before)?;
    let index = r.word()?;
    let generation = r.word()?;
    Ok(NameRow {
        name: Blob::from_slice(alloc, name)?,
        index,
        generation,
    })
}

/// So many names that rise.
#[tactic(auto, using(xdr_core::proofs::Loops::begins))]
fn rows_at(alloc: Global, r: &mut Reader<'_>, count: u32) -> Result<Vec<NameRow>, EntryErr>
    ensures { GivesAt (λ v. v.items) result r.new (reads (listed row_form count []) r.old) }
{
    let mut rows = Vec::new(alloc);
    for _ in 0..count {
        let row = row_at(alloc, r, &rows)?;
        rows.push(row)?;
    }
    Ok(rows)
}

/// A count, and so many names.
#[tactic(auto, unfolding(crate::specs::Forms::names_form))]
fn names_at(alloc: Global, r: &mut Reader<'_>) -> Result<Vec<NameRow>, EntryErr>
    ensures { GivesAt (λ v. v.items) result r.new (reads names_form r.old) }
{
    let count = count_at(r)?;
    rows_at(alloc, r, count)
}

// Attributes

/// A time.
#[tactic(auto, unfolding(crate::specs::Forms::time_form))]
fn time_at(r: &mut Reader<'_>) -> Result<Time, EntryErr>
    ensures { GivesAt (λ t. t) result r.new (reads time_form r.old) }
{
    let secs = r.word()?;
    let micros = micros_at(r)?;
    Ok(Time { secs, micros })
}

/// Mode, owners and times.
#[tactic(auto, using(xdr_core::proofs::Sequence::reads_then), unfolding(crate::specs::Forms::attr_form))]
fn attr_at(r: &mut Reader<'_>) -> Result<Attr, EntryErr>
    ensures { GivesAt (λ a. a) result r.new (reads attr_form r.old) }
{
    Ok(Attr {
        mode: mode_at(r)?,
        uid: r.word()?,
        gid: r.word()?,
        atime: time_at(r)?,
        mtime: time_at(r)?,
        ctime: time_at(r)?,
    })
}

// Objects

/// A file, behind its kind.
#[tactic(auto, using(xdr_core::proofs::Sequence::reads_then), unfolding(crate::specs::Forms::file_form))]
fn file_at(alloc: Global, r: &mut Reader<'_>) -> Result<Object, EntryErr>
    ensures { GivesAt (λ o. o) result r.new (reads file_form r.old) }
{
    let attr = attr_at(r)?;
    let bytes = r.opaque(FILE_LIMIT)?;
    Ok(Object::File {
        attr,
        bytes: Blob::from_slice(alloc, bytes)?,
    })
}

/// A directory, behind its kind.
#[tactic(auto, using(xdr_core::proofs::Sequence::reads_then), unfolding(crate::specs::Forms::dir_form))]
fn dir_at(alloc: Global, r: &mut Reader<'_>) -> Result<Object, EntryErr>
    ensures { GivesAt (λ o. o) result r.new (reads dir_form r.old) }
{
    let attr = attr_at(r)?;
    let rows = names_at(alloc, r)?;
    Ok(Object::Dir {
        attr,
        names: Names::new(rows),
    })
}

/// A link, behind its kind.
#[tactic(auto, using(xdr_core::proofs::Sequence::reads_then), unfolding(crate::specs::Forms::link_form))]
fn link_at(alloc: Global, r: &mut Reader<'_>) -> Result<Object, EntryErr>
    ensures { GivesAt (λ o. o) result r.new (reads link_form r.old) }
{
    let attr = attr_at(r)?;
    let text = r.opaque(TEXT_LIMIT)?;
    Ok(Object::Link {
        attr,
        text: Blob::from_slice(alloc, text)?,
    })
}

/// What stands behind the kind.
fn of_kind(alloc: Global, r: &mut Reader<'_>, kind: u32) -> Result<Object, EntryErr>
    ensures { GivesAt (λ o. o) result r.new (reads (kind_form kind) r.old) }
{
    match kind {
        0 => Ok(Object::Null),
        1 => file_at(alloc, r),
        2 => dir_at(alloc, r),
        _ => link_at(alloc, r),
    }
}

/// An object, with its kind.
#[tactic(auto, unfolding(crate::specs::Forms::object_form))]
fn object_at(alloc: Global, r: &mut Reader<'_>) -> Result<Object, EntryErr>
    ensures { GivesAt (λ o. o) result r.new (reads object_form r.old) }
{
    let kind = kind_at(r)?;
    of_kind(alloc, r, kind)
}

/// An index, and the entry there.
#[tactic(auto, using(xdr_core::proofs::Sequence::reads_then), unfolding(crate::specs::Forms::entry_form))]
fn entry_at(alloc: Global, r: &mut Reader<'_>) -> Result<(u32, Entry), EntryErr>
    ensures { GivesAt (λ x. x) result r.new (reads entry_form r.old) }
{
    tag_at(r)?;
    let index = r.word()?;
    let generation = r.word()?;
    let object = object_at(alloc, r)?;
    Ok((index, Entry { generation, object }))
}

/// The same, with nothing behind it.
#[tactic(auto, unfolding(xdr_core::specs::Grammar::reads_all))]
fn whole_entry(alloc: Global, bytes: &[u8]) -> Result<(u32, Entry), EntryErr>
    ensures { GivesWhole result (reads_all entry_form bytes.now) }
{
    let mut r = Reader::new(bytes);
    let found = entry_at(alloc, &mut r)?;
    r.end()?;
    Ok(found)
}

/// The index and the entry whose text the bytes are, all of them, or where the first wrong item begins. Want of memory
/// leaves nothing.
pub fn read_entry(alloc: Global, bytes: &[u8]) -> Result<(u32, Entry), EntryErr>
    ensures { IsReadingBy FailsAs (λ x. x) entry_form bytes.now result }
{
    whole_entry(alloc, bytes)
}
