//! Opaque data that may be cut. `after` is the least number of bytes that stand behind the item.

ghost use Rattle.std.specs.Prelude.{◌≡◌, ◌==◌, ◌≤◌, ◌<◌, ◌^◌, length, take, IfOk};
ghost use Rattle.std.specs.List.{list_all};
ghost use Rattle.std.specs.Int.{w32, from_be_bytes};
ghost use Rattle.xdr_core.specs.Items.{any_opaque, fixed};
ghost use Rattle.xdr_cut.specs.Cut.{Scans, scan_item};
ghost use Rattle.xdr_cut.specs.Needs.{piece_need, opaque_need};

use crate::error::CutErr;
use crate::words::least;
use xdr_core::Reader;

fn word_of(bytes: &[u8]) -> u32
    requires { 4 ≤ length bytes.now }
    ensures { result ≡ from_be_bytes w32 (take 4 bytes.now) }
{
    u32::from_be_bytes([bytes[0], bytes[1], bytes[2], bytes[3]])
}

fn is_zeros(bytes: &[u8]) -> bool
    ensures { result ≡ list_all (λ b. b == 0) bytes.now }
{
    bytes.iter().all(|b| *b == 0)
}

fn piece_need_of(n: u32, after: usize, tail: &[u8]) -> Option<usize>
    requires { after < 2 ^ 33 }
    ensures { result ≡ piece_need n after tail.now }
{
    let n = n as usize;
    let size = n + (4 - n % 4) % 4;
    if tail.len() < size && is_zeros(&tail[n.min(tail.len())..]) {
        Some(size + after)
    } else {
        None
    }
}

fn opaque_need_of(max: u32, after: usize, bytes: &[u8]) -> Option<usize>
    requires { after < 2 ^ 32 }
    ensures { result ≡ opaque_need max after bytes.now }
{
    if bytes.len() < 4 {
        let n = least(bytes);
        if max < n {
            return None;
        }
        let n = n as usize;
        return Some(4 + (n + (4 - n % 4) % 4) + after);
    }
    let n = word_of(bytes);
    if max < n {
        return None;
    }
    piece_need_of(n, 4 + after, &bytes[4..])
}

/// Opaque bytes of at most `max`.
#[tactic(auto, unfolding(crate::specs::Cut::scan_item, xdr_core::specs::Grammar::item_at))]
pub fn opaque_in<'a>(r: &mut Reader<'a>, max: u32, after: usize) -> Result<&'a [u8], CutErr>
    requires { after < 2 ^ 32 }
    ensures { Scans (λ p. p.now) result r.new
        (scan_item (any_opaque max) (opaque_need max after) r.old) }
{
    let at = r.at();
    let need = opaque_need_of(max, after, r.rest());
    match (r.opaque(max), need) {
        (Ok(found), _) => Ok(found),
        (Err(_), Some(n)) => Err(CutErr::Short { need: at + n }),
        (Err(_), None) => Err(CutErr::Wrong),
    }
}

/// As many bytes as `size` says, and their padding.
#[tactic(auto, unfolding(crate::specs::Cut::scan_item, xdr_core::specs::Grammar::item_at))]
pub fn fixed_in<'a>(r: &mut Reader<'a>, size: u32, after: usize) -> Result<&'a [u8], CutErr>
    requires { after < 2 ^ 32 }
    ensures read { Scans (λ p. p.now) result r.new
        (scan_item (fixed size) (piece_need size after) r.old) }
    ensures size { IfOk result (λ p. length p.now ≡ size) }
{
    let at = r.at();
    let need = piece_need_of(size, after, r.rest());
    match (r.fixed(size), need) {
        (Ok(found), _) => Ok(found),
        (Err(_), Some(n)) => Err(CutErr::Short { need: at + n }),
        (Err(_), None) => Err(CutErr::Wrong),
    }
}
