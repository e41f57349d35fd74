//! Writes the results of calls.
ghost use Rattle.std.specs.Prelude.{◌≡◌, ℕ, ◌^◌, ◌<◌, ◌≤◌, ◌++◌, All, Contains, OnOk, OnErr, length, take};
ghost use Rattle.nfs2_types.specs.Sizes.{max_name};
ghost use Rattle.xdr_core.specs.Items.{AreWords, spell_word, spell_words, spell_bool, spell_fixed, spell_opaque};
ghost use Rattle.xdr_core.specs.Grammar.{Spells};
ghost use Rattle.nfs2_results.specs.Forms.{fattr_form, procedures};
ghost use Rattle.nfs2_results.specs.Reading.{SpellsResult};
ghost use Rattle.nfs2_results.specs.Spelling.{fattr_text, entry_text, entries_text, result_text};
ghost use Rattle.nfs2_results.specs.Spelling.{HasSpelling, IsEntrySpelled, AreSpelled};

use nfs2_types::{Fattr, ListEntry, NfsResult, NoMemory};
use xdr_core::Writer;

/// A number, which a word holds.
fn put_word(w: &mut Writer, n: u32) -> Result<(), NoMemory>
    ensures text { OnOk result (w.new ≡ w.old ++ spell_word n) }
    ensures err { OnErr result (w.new ≡ w.old) }
    ensures fits { n < 2 ^ 32 }
{
    w.word(n)
}

/// Numbers, which words hold.
fn put_words(w: &mut Writer, words: &[u32]) -> Result<(), NoMemory>
    ensures text { OnOk result (w.new ≡ w.old ++ spell_words words.now) }
    ensures err { OnErr result (w.new ≡ w.old) }
    ensures fits { AreWords words.now }
{
    w.words(words)
}

/// The attributes.
#[tactic(auto, unfolding(crate::specs::Spelling::fattr_text))]
fn put_fattr(w: &mut Writer, a: &Fattr) -> Result<(), NoMemory>
    ensures text { OnOk result (w.new ≡ w.old ++ fattr_text a.now) }
    ensures err { OnErr result (w.new ≡ w.old) }
    ensures spelled { OnOk result (Spells fattr_form a.now (fattr_text a.now)) }
{
    put_words(
        w,
        &[
            a.ftype,
            a.mode,
            a.nlink,
            a.uid,
            a.gid,
            a.size,
            a.blocksize,
            a.rdev,
            a.blocks,
            a.fsid,
            a.fileid,
            a.atime_secs,
            a.atime_micros,
            a.mtime_secs,
            a.mtime_micros,
            a.ctime_secs,
            a.ctime_micros,
        ],
    )
}

/// An entry, behind the word that announces it.
fn put_entry(w: &mut Writer, e: &ListEntry) -> Result<(), NoMemory>
    requires { length e.now.name ≤ max_name }
    ensures text { OnOk result (w.new ≡ w.old ++ entry_text e.now) }
    ensures kept { OnErr result (take (length w.old) w.new ≡ w.old) }
    ensures spelled { OnOk result (IsEntrySpelled e.now) }
{
    w.boolean(true)?;
    put_word(w, e.fileid)?;
    w.opaque(e.name.as_slice())?;
    put_word(w, e.cookie)
}

/// The entries, and the word that ends them.
fn put_entries(w: &mut Writer, entries: &[ListEntry]) -> Result<(), NoMemory>
    requires { All (λ e. length e.name ≤ max_name) entries.now }
    ensures text { OnOk result (w.new ≡ w.old ++ entries_text entries.now) }
    ensures kept { OnErr result (take (length w.old) w.new ≡ w.old) }
    ensures spelled { OnOk result (All IsEntrySpelled entries.now) }
{
    for e in entries {
        put_entry(w, e)?;
    }
    w.boolean(false)
}

/// A result, of which the parts are known to be spelled.
fn put_result(w: &mut Writer, r: &NfsResult) -> Result<(), NoMemory>
    requires { HasSpelling r.now }
    ensures text { OnOk result (w.new ≡ w.old ++ result_text r.now) }
    ensures kept { OnErr result (take (length w.old) w.new ≡ w.old) }
    ensures spelled { OnOk result (AreSpelled r.now) }
{
    match r {
        NfsResult::Nothing => Ok(()),
        NfsResult::Refused(stat) => put_word(w, stat.0),
        NfsResult::Done => put_word(w, 0),
        NfsResult::Attr(a) => {
            put_word(w, 0)?;
            put_fattr(w, a)
        }
        NfsResult::Node { handle, fattr } => {
            put_word(w, 0)?;
            w.fixed(handle)?;
            put_fattr(w, fattr)
        }
        NfsResult::Path(text) => {
            put_word(w, 0)?;
            w.opaque(text.as_slice())
        }
        NfsResult::Content { fattr, bytes } => {
            put_word(w, 0)?;
            put_fattr(w, fattr)?;
            w.opaque(bytes.as_slice())
        }
        NfsResult::Entries { entries, eof } => {
            put_word(w, 0)?;
            put_entries(w, entries.as_slice())?;
            w.boolean(*eof)
        }
        NfsResult::Space {
            tsize,
            bsize,
            blocks,
            bfree,
            bavail,
        } => { put_words(w, &[0, *tsize, *bsize, *blocks, *bfree, *bavail]) }
    }
}

/// Appends a result (RFC 1094, 2.2): its status, and for OK what stands behind it.
/// Read as a result of a procedure of its shape, the bytes give it back.
pub fn write_result(w: &mut Writer, r: &NfsResult) -> Result<(), NoMemory>
    requires { HasSpelling r.now }
    ensures text { OnOk result (w.new ≡ w.old ++ result_text r.now) }
    ensures kept { OnErr result (take (length w.old) w.new ≡ w.old) }
    ensures again { OnOk result ((proc : ℕ) → Contains (procedures r.now) proc
        → SpellsResult proc r.now (result_text r.now)) }
{
    put_result(w, r)
}
