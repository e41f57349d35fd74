//! The header of a log.

ghost use Rattle.std.specs.Prelude.{◌≡◌, ◌++◌, true, IfOk, IfSome, IsOkAnd, OnOk, length, List, ℕ};
ghost use Rattle.xdr_core.specs.Grammar.{Spells};
ghost use Rattle.xdr_cut.specs.Cut.{Scans, ScansWhole, scans};
ghost use Rattle.log_format.specs.Records.{header_plan, header_form, is_within};
ghost use Rattle.log_format.specs.Spelling.{header_text};

use nfs2_types::NoMemory;
use std::alloc::Global;
use xdr_core::{Reader, Writer};
use xdr_cut::{CutErr, word_in, word_of_ranges};

/// The header of a log: `f` replicas of `3f + 1` may fail, the array has `n` entries, a checkpoint
/// is taken each `k` requests, and at most `t` bytes are in use.
#[derive(Clone, Copy, Debug, PartialEq, Eq)]
pub struct Header {
    pub f: u32,
    pub n: u32,
    pub k: u32,
    pub t: u32,
}

/// The bytes are no header.
#[derive(Clone, Copy, Debug, PartialEq, Eq)]
pub enum HeaderErr {
    Wrong,
}

/// The letters `BASELOG1`, as two words, and four words.
#[tactic(auto, unfolding(crate::specs::Records::header_plan))]
fn header_in(r: &mut Reader<'_>) -> Result<Header, CutErr>
    ensures read { Scans (λ h. h) result r.new (scans header_plan r.old) }
    ensures within { IfOk result (λ h. is_within h ≡ true) }
{
    word_in(r, 0x4241_5345, 0x4241_5345, 20)?;
    word_in(r, 0x4c4f_4731, 0x4c4f_4731, 16)?;
    let f = word_in(r, 0, 2, 12)?;
    let n = word_of_ranges(r, &[(16, 16), (256, 256), (4096, 4096)], 8)?;
    let k = word_in(r, 1, 1024, 4)?;
    let t = word_in(r, 512, 16_777_216, 0)?;
    Ok(Header { f, n, k, t })
}

fn front(bytes: &[u8]) -> Option<Header>
    ensures read { ScansWhole result (scans header_plan (record { at = 0; rest = bytes.now })) }
    ensures within { IfSome result (λ h. is_within h ≡ true) }
{
    match header_in(&mut Reader::new(bytes)) {
        Ok(h) => Some(h),
        Err(_) => None,
    }
}

/// The header that these bytes spell. It takes no memory.
pub fn read_header(bytes: &[u8]) -> Result<Header, HeaderErr>
    requires { length bytes.now ≡ 24 }
    ensures found { IfOk result (λ h. Spells header_form h bytes.now) }
    ensures only { (h : Header) → Spells header_form h bytes.now → IsOkAnd result (λ x. x ≡ h) }
    ensures within { IfOk result (λ h. is_within h ≡ true) }
{
    match front(bytes) {
        Some(h) => Ok(h),
        None => Err(HeaderErr::Wrong),
    }
}

fn put_header(w: &mut Writer, h: &Header) -> Result<(), NoMemory>
    ensures { OnOk result (w.new ≡ w.old ++ header_text h.now) }
{
    w.word(0x4241_5345)?;
    w.word(0x4c4f_4731)?;
    w.word(h.f)?;
    w.word(h.n)?;
    w.word(h.k)?;
    w.word(h.t)
}

/// The bytes of a header that has a text: its only text.
pub fn write_header(alloc: Global, h: &Header) -> Result<Vec<u8>, NoMemory>
    ensures text { IfOk result (λ v. v.items ≡ header_text h.now) }
    ensures again { IfOk result (λ v. (text : List ℕ) → Spells header_form h.now text
        → v.items ≡ text) }
{
    let mut w = Writer::new(alloc);
    put_header(&mut w, h)?;
    Ok(w.into_bytes())
}
