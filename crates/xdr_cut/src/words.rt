//! Words and bools that may be cut. `after` is the least number of bytes that stand behind the item.

ghost use Rattle.std.specs.Prelude.{◌≡◌, ◌==◌, ◌≤◌, ◌<◌, ◌^◌, length, true, IfOk, ◌∷◌, []};
ghost use Rattle.xdr_core.specs.Items.{word, boolean};
ghost use Rattle.xdr_cut.specs.Cut.{Scans, scan_item};
ghost use Rattle.xdr_cut.specs.Needs.{within, word_need, bool_need, least_word, most_word, touches};

use crate::error::CutErr;
use xdr_core::Reader;

/// The least word that begins so.
pub fn least(bytes: &[u8]) -> u32
    requires { length bytes.now < 4 }
    ensures { result ≡ least_word bytes.now }
{
    match bytes {
        [] => 0,
        [a] => u32::from_be_bytes([*a, 0, 0, 0]),
        [a, b] => u32::from_be_bytes([*a, *b, 0, 0]),
        [a, b, d, ..] => u32::from_be_bytes([*a, *b, *d, 0]),
    }
}

/// The greatest word that begins so.
fn most(bytes: &[u8]) -> u32
    requires { length bytes.now < 4 }
    ensures { result ≡ most_word bytes.now }
{
    match bytes {
        [] => u32::from_be_bytes([255, 255, 255, 255]),
        [a] => u32::from_be_bytes([*a, 255, 255, 255]),
        [a, b] => u32::from_be_bytes([*a, *b, 255, 255]),
        [a, b, d, ..] => u32::from_be_bytes([*a, *b, *d, 255]),
    }
}

/// Whether some word of the ranges begins so.
fn is_touched(ranges: &[(u32, u32)], bytes: &[u8]) -> bool
    requires { length bytes.now < 4 }
    ensures { result ≡ touches ranges.now bytes.now }
{
    let least = least(bytes);
    let most = most(bytes);
    ranges
        .iter()
        .any(|range| least <= range.1 && range.0 <= most)
}

/// Whether the word stands in one of the ranges.
fn is_within(ranges: &[(u32, u32)], n: u32) -> bool
    ensures { result ≡ within ranges.now n }
{
    ranges.iter().any(|range| range.0 <= n && n <= range.1)
}

/// A word of the ranges.
#[tactic(auto, unfolding(crate::specs::Cut::scan_item, xdr_core::specs::Grammar::item_at, xdr_core::specs::Items::item_in))]
pub fn word_of_ranges(
    r: &mut Reader<'_>,
    ranges: &[(u32, u32)],
    after: usize,
) -> Result<u32, CutErr>
    requires { after < 2 ^ 32 }
    ensures read { Scans (λ n. n) result r.new
        (scan_item (word (within ranges.now)) (word_need ranges.now after) r.old) }
    ensures within { IfOk result (λ n. within ranges.now n ≡ true) }
{
    let at = r.at();
    let rest = r.rest();
    if rest.len() < 4 {
        if is_touched(ranges, rest) {
            return Err(CutErr::Short {
                need: at + (4 + after),
            });
        }
        return Err(CutErr::Wrong);
    }
    match r.word() {
        Ok(n) if is_within(ranges, n) => Ok(n),
        _ => Err(CutErr::Wrong),
    }
}

/// A word from `low` to `high`.
pub fn word_in(r: &mut Reader<'_>, low: u32, high: u32, after: usize) -> Result<u32, CutErr>
    requires { after < 2 ^ 32 }
    ensures read { Scans (λ n. n) result r.new
        (scan_item (word (within ((low, high) ∷ []))) (word_need ((low, high) ∷ []) after) r.old) }
    ensures low { IfOk result (λ n. low ≤ n) }
    ensures high { IfOk result (λ n. n ≤ high) }
{
    word_of_ranges(r, &[(low, high)], after)
}

/// A bool.
#[tactic(auto, unfolding(crate::specs::Cut::scan_item, xdr_core::specs::Grammar::item_at, xdr_core::specs::Items::item_in))]
pub fn bool_in(r: &mut Reader<'_>, after: usize) -> Result<bool, CutErr>
    requires { after < 2 ^ 32 }
    ensures { Scans (λ b. b) result r.new (scan_item boolean (bool_need after) r.old) }
{
    let at = r.at();
    let rest = r.rest();
    if rest.len() < 4 {
        if least(rest) == 0 {
            return Err(CutErr::Short {
                need: at + (4 + after),
            });
        }
        return Err(CutErr::Wrong);
    }
    match r.boolean() {
        Ok(b) => Ok(b),
        Err(_) => Err(CutErr::Wrong),
    }
}

/// Whether these fewer than four bytes are zeros.
pub fn is_zero_front(bytes: &[u8]) -> bool
    requires { length bytes.now < 4 }
    ensures { result ≡ (least_word bytes.now == 0) }
{
    least(bytes) == 0
}
