//! Writes a record.

ghost use Rattle.std.specs.Prelude.{◌≡◌, ◌++◌, ◌≤◌, List, ℕ, IfOk, OnOk, length};
ghost use Rattle.xdr_core.specs.Items.{spell_word};
ghost use Rattle.xdr_core.specs.Grammar.{Spells};
ghost use Rattle.log_format.specs.Records.{event_form};
ghost use Rattle.log_format.specs.Spelling.{event_text, payload_text, IsWithin, HasText};

use crate::event::Event;
use nfs2_types::{NoMemory, Word};
use std::alloc::Global;
use xdr_core::Writer;

/// A kind, three words and opaque data.
fn put_payload(
    w: &mut Writer,
    kind: u32,
    first: u32,
    second: u32,
    third: u32,
    bytes: &[u8],
) -> Result<(), NoMemory>
    requires { length bytes.now ≤ 65536 }
    ensures { OnOk result (w.new ≡ w.old ++ (spell_word kind ++ payload_text first second third bytes.now)) }
{
    w.word(kind)?;
    w.word(first)?;
    w.word(second)?;
    w.word(third)?;
    w.opaque(bytes)
}

/// A kind and a word.
fn put_one(w: &mut Writer, kind: u32, r: u32) -> Result<(), NoMemory>
    ensures { OnOk result (w.new ≡ w.old ++ (spell_word kind ++ spell_word r)) }
{
    w.word(kind)?;
    w.word(r)
}

/// A kind and two words.
fn put_two(w: &mut Writer, kind: u32, r: u32, second: u32) -> Result<(), NoMemory>
    ensures { OnOk result (w.new ≡ w.old ++ (spell_word kind ++ (spell_word r ++ spell_word second))) }
{
    w.word(kind)?;
    w.word(r)?;
    w.word(second)
}

/// A record.
fn put_event(w: &mut Writer, e: &Event) -> Result<(), NoMemory>
    requires { IsWithin e.now }
    ensures { OnOk result (w.new ≡ w.old ++ event_text e.now) }
{
    match e {
        Event::Request {
            client,
            time,
            bytes,
        } => put_payload(w, 1, *client, time.secs, time.micros, bytes.as_slice()),
        Event::Run { r } => put_one(w, 2, *r),
        Event::RunAll => w.word(3),
        Event::Reboot { r } => put_one(w, 4, *r),
        Event::Fetch { r, n } => put_two(w, 5, *r, *n),
        Event::Rogue { r, time, bytes } => put_payload(
            w,
            6,
            *r,
            time.secs,
            time.micros,
            bytes.as_slice(),
        ),
        Event::Skip { r } => put_one(w, 7, *r),
        Event::Scratch {
            r,
            index,
            offset,
            bytes,
        } => put_payload(w, 8, *r, *index, *offset, bytes.as_slice()),
        Event::LieReply { r, place, word } => {
            put_two(w, 9, *r, *place)?;
            match word {
                Word::Silent => w.boolean(false),
                Word::Reply(bytes) => {
                    w.boolean(true)?;
                    w.opaque(bytes.as_slice())
                }
            }
        }
        Event::LieRoot { r, place, root } => {
            put_two(w, 10, *r, *place)?;
            w.fixed(root)
        }
        Event::LieItem {
            r,
            level,
            number,
            bytes,
        } => put_payload(w, 11, *r, *level, *number, bytes.as_slice()),
        Event::Wipe { r } => put_one(w, 12, *r),
        Event::Swap { r, spare } => put_two(w, 13, *r, *spare),
        Event::End => w.word(14),
    }
}

/// The bytes of a record that has a text: its only text.
pub fn write_event(alloc: Global, e: &Event) -> Result<Vec<u8>, NoMemory>
    requires { HasText e.now }
    ensures text { IfOk result (λ v. v.items ≡ event_text e.now) }
    ensures again { IfOk result (λ v. (f servers : ℕ) (text : List ℕ)
        → Spells (event_form f servers) e.now text → v.items ≡ text) }
{
    let mut w = Writer::new(alloc);
    put_event(&mut w, e)?;
    Ok(w.into_bytes())
}
