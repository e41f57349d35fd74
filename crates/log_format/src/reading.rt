//! Reads a record from the front of some bytes, which may be cut.

ghost use Rattle.std.specs.Prelude.{◌≡◌, ◌<◌, ◌≤◌, ◌+◌, ◌*◌, ◌^◌, ◌∷◌, [], ℕ, IfOk, Err};
ghost use Rattle.xdr_core.specs.Items.{word};
ghost use Rattle.xdr_cut.specs.Cut.{Scans, ScansAt, ScansFront, IsScan, IsShort, IsNoStart, scans, scan_item};
ghost use Rattle.xdr_cut.specs.Needs.{within, word_need};
ghost use Rattle.xdr_cut.specs.declared.ScanErr.TheVariants as errors;
ghost use Rattle.log_format.specs.Records.{kind_need, fields_of, event_plan, event_form, is_kind as has_kind};
ghost use Rattle.log_format.specs.Spelling.{HasText};

use crate::event::{Event, EventErr};
use nfs2_types::{Blob, Time, Word};
use std::alloc::Global;
use xdr_core::Reader;
use xdr_cut::{CutErr, bool_in, fixed_in, is_zero_front, opaque_in, word_in};

/// The number of a kind.
#[tactic(auto, unfolding(xdr_cut::specs::Cut::scan_item, xdr_core::specs::Grammar::item_at, xdr_core::specs::Items::item_in))]
fn kind_in(r: &mut Reader<'_>, f: u32, servers: u32) -> Result<u32, CutErr>
    requires { f ≤ 2 }
    ensures { Scans (λ n. n) result r.new (scan_item (word (has_kind f servers)) kind_need r.old) }
{
    let at = r.at();
    let rest = r.rest();
    if rest.len() < 4 {
        if is_zero_front(rest) {
            return Err(CutErr::Short { need: at + 4 });
        }
        return Err(CutErr::Wrong);
    }
    match r.word() {
        Ok(n) if is_kind(n, f, servers) => Ok(n),
        _ => Err(CutErr::Wrong),
    }
}

/// Whether there is a record of this kind.
fn is_kind(kind: u32, f: u32, servers: u32) -> bool
    requires { f ≤ 2 }
    ensures { result ≡ has_kind f servers kind }
{
    1 <= kind && kind <= 14 && (kind != 13 || 3 * f + 1 < servers)
}

fn replica_in(r: &mut Reader<'_>, f: u32, after: usize) -> Result<u32, CutErr>
    requires few { f ≤ 2 }
    requires small { after < 2 ^ 32 }
    ensures { Scans (λ n. n) result r.new
        (scan_item (word (within ((0, 3 * f) ∷ []))) (word_need ((0, 3 * f) ∷ []) after) r.old) }
{
    word_in(r, 0, 3 * f, after)
}

fn any_in(r: &mut Reader<'_>, after: usize) -> Result<u32, CutErr>
    requires { after < 2 ^ 32 }
    ensures { Scans (λ n. n) result r.new
        (scan_item (word (within ((0, 4294967295) ∷ []))) (word_need ((0, 4294967295) ∷ []) after) r.old) }
{
    word_in(r, 0, u32::MAX, after)
}

fn micros_in(r: &mut Reader<'_>, after: usize) -> Result<u32, CutErr>
    requires { after < 2 ^ 32 }
    ensures { Scans (λ n. n) result r.new
        (scan_item (word (within ((0, 999999) ∷ []))) (word_need ((0, 999999) ∷ []) after) r.old) }
{
    word_in(r, 0, 999_999, after)
}

#[tactic(auto, unfolding(crate::specs::Records::fields_of))]
fn request(alloc: Global, r: &mut Reader<'_>) -> Result<Event, EventErr>
    ensures { ScansAt (λ e. e) result r.new (scans (fields_of 0 0 1) r.old) }
{
    let client = any_in(r, 12)?;
    let secs = any_in(r, 8)?;
    let micros = micros_in(r, 4)?;
    let bytes = opaque_in(r, 65536, 0)?;
    Ok(Event::Request {
        client,
        time: Time { secs, micros },
        bytes: Blob::from_slice(alloc, bytes)?,
    })
}

#[tactic(auto, unfolding(crate::specs::Records::fields_of))]
fn fetch(r: &mut Reader<'_>, f: u32) -> Result<Event, EventErr>
    requires { f ≤ 2 }
    ensures { ScansAt (λ e. e) result r.new (scans (fields_of f 0 5) r.old) }
{
    let replica = replica_in(r, f, 4)?;
    let n = word_in(r, 1, 4294967295, 0)?;
    Ok(Event::Fetch { r: replica, n })
}

#[tactic(auto, unfolding(crate::specs::Records::fields_of))]
fn rogue(alloc: Global, r: &mut Reader<'_>, f: u32) -> Result<Event, EventErr>
    requires { f ≤ 2 }
    ensures { ScansAt (λ e. e) result r.new (scans (fields_of f 0 6) r.old) }
{
    let replica = replica_in(r, f, 12)?;
    let secs = any_in(r, 8)?;
    let micros = micros_in(r, 4)?;
    let bytes = opaque_in(r, 65536, 0)?;
    Ok(Event::Rogue {
        r: replica,
        time: Time { secs, micros },
        bytes: Blob::from_slice(alloc, bytes)?,
    })
}

#[tactic(auto, unfolding(crate::specs::Records::fields_of))]
fn scratch(alloc: Global, r: &mut Reader<'_>, f: u32) -> Result<Event, EventErr>
    requires { f ≤ 2 }
    ensures { ScansAt (λ e. e) result r.new (scans (fields_of f 0 8) r.old) }
{
    let replica = replica_in(r, f, 12)?;
    let index = any_in(r, 8)?;
    let offset = any_in(r, 4)?;
    let bytes = opaque_in(r, 65536, 0)?;
    Ok(Event::Scratch {
        r: replica,
        index,
        offset,
        bytes: Blob::from_slice(alloc, bytes)?,
    })
}

#[tactic(auto, unfolding(crate::specs::Records::fields_of))]
fn lie_reply(alloc: Global, r: &mut Reader<'_>, f: u32) -> Result<Event, EventErr>
    requires { f ≤ 2 }
    ensures { ScansAt (λ e. e) result r.new (scans (fields_of f 0 9) r.old) }
{
    let replica = replica_in(r, f, 8)?;
    let place = any_in(r, 4)?;
    if !bool_in(r, 0)? {
        return Ok(Event::LieReply {
            r: replica,
            place,
            word: Word::Silent,
        });
    }
    let bytes = opaque_in(r, 65536, 0)?;
    Ok(Event::LieReply {
        r: replica,
        place,
        word: Word::Reply(Blob::from_slice(alloc, bytes)?),
    })
}

#[tactic(auto, unfolding(crate::specs::Records::fields_of))]
fn lie_root(r: &mut Reader<'_>, f: u32) -> Result<Event, EventErr>
    requires { f ≤ 2 }
    ensures { ScansAt (λ e. e) result r.new (scans (fields_of f 0 10) r.old) }
{
    let replica = replica_in(r, f, 36)?;
    let place = any_in(r, 32)?;
    let bytes = fixed_in(r, 32, 0)?;
    let mut root = [0; 32];
    root.copy_from_slice(bytes);
    Ok(Event::LieRoot {
        r: replica,
        place,
        root,
    })
}

#[tactic(auto, unfolding(crate::specs::Records::fields_of))]
fn lie_item(alloc: Global, r: &mut Reader<'_>, f: u32) -> Result<Event, EventErr>
    requires { f ≤ 2 }
    ensures { ScansAt (λ e. e) result r.new (scans (fields_of f 0 11) r.old) }
{
    let replica = replica_in(r, f, 12)?;
    let level = any_in(r, 8)?;
    let number = any_in(r, 4)?;
    let bytes = opaque_in(r, 65536, 0)?;
    Ok(Event::LieItem {
        r: replica,
        level,
        number,
        bytes: Blob::from_slice(alloc, bytes)?,
    })
}

#[tactic(auto, unfolding(crate::specs::Records::fields_of))]
fn swap(r: &mut Reader<'_>, f: u32, servers: u32) -> Result<Event, EventErr>
    requires { f ≤ 2 }
    ensures { ScansAt (λ e. e) result r.new (scans (fields_of f servers 13) r.old) }
{
    let replica = replica_in(r, f, 4)?;
    let spare = word_in(r, 3 * f + 1, servers.saturating_sub(1), 0)?;
    Ok(Event::Swap { r: replica, spare })
}

/// The fields of a kind.
#[tactic(auto, unfolding(crate::specs::Records::fields_of))]
fn fields(
    alloc: Global,
    r: &mut Reader<'_>,
    kind: u32,
    f: u32,
    servers: u32,
) -> Result<Event, EventErr>
    requires { f ≤ 2 }
    ensures { ScansAt (λ e. e) result r.new (scans (fields_of f servers kind) r.old) }
{
    match kind {
        1 => request(alloc, r),
        2 => Ok(Event::Run {
            r: replica_in(r, f, 0)?,
        }),
        3 => Ok(Event::RunAll),
        4 => Ok(Event::Reboot {
            r: replica_in(r, f, 0)?,
        }),
        5 => fetch(r, f),
        6 => rogue(alloc, r, f),
        7 => Ok(Event::Skip {
            r: replica_in(r, f, 0)?,
        }),
        8 => scratch(alloc, r, f),
        9 => lie_reply(alloc, r, f),
        10 => lie_root(r, f),
        11 => lie_item(alloc, r, f),
        12 => Ok(Event::Wipe {
            r: replica_in(r, f, 0)?,
        }),
        13 => swap(r, f, servers),
        _ => Ok(Event::End),
    }
}

#[tactic(auto, unfolding(crate::specs::Records::event_plan))]
fn event(alloc: Global, r: &mut Reader<'_>, f: u32, servers: u32) -> Result<Event, EventErr>
    requires { f ≤ 2 }
    ensures { ScansAt (λ e. e) result r.new (scans (event_plan f servers) r.old) }
{
    let kind = kind_in(r, f, servers)?;
    fields(alloc, r, kind, f, servers)
}

/// The record at the front of the bytes, and how many bytes it takes.
pub fn read_event(
    alloc: Global,
    bytes: &[u8],
    f: u32,
    servers: u32,
) -> Result<(Event, usize), EventErr>
    requires { f ≤ 2 }
    ensures read { IsScan (λ x. (x.0, x.1)) (event_form f servers) bytes.now result }
    ensures exact { (need : ℕ) → IsShort (event_form f servers) bytes.now need
        → result ≡ Err (errors.Short need) }
    ensures otherwise { IsNoStart (event_form f servers) bytes.now → result ≡ Err errors.Wrong }
    ensures text { IfOk result (λ x. HasText x.0) }
    ensures small { (need : ℕ) → result ≡ Err (errors.Short need) → need ≤ 65556 }
{
    front(alloc, bytes, f, servers)
}

fn front(alloc: Global, bytes: &[u8], f: u32, servers: u32) -> Result<(Event, usize), EventErr>
    requires { f ≤ 2 }
    ensures { IsScan (λ x. (x.0, x.1)) (event_form f servers) bytes.now result }
{
    scan(alloc, bytes, f, servers)
}

fn scan(alloc: Global, bytes: &[u8], f: u32, servers: u32) -> Result<(Event, usize), EventErr>
    requires { f ≤ 2 }
    ensures { ScansFront (λ x. (x.0, x.1)) result
        (scans (event_plan f servers) (record { at = 0; rest = bytes.now })) }
{
    let mut r = Reader::new(bytes);
    let e = event(alloc, &mut r, f, servers)?;
    Ok((e, r.at()))
}
