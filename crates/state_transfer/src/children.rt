//! The items below a node.

ghost use Rattle.std.specs.Prelude.{◌≡◌, ◌++◌, ◌∷◌, [], ◌+◌, ◌*◌, ◌<◌, ◌≤◌, ℕ, length, take, drop, OnOk, OnErr};
ghost use Rattle.std.specs.Vec.{vec_capacity};
ghost use Rattle.partition_tree.specs.Digests.{digest_at, IsDigest};
ghost use Rattle.state_transfer.specs.Stand.{differing, expected};

use nfs2_types::{Digest, NoMemory};
use partition_tree::Tree;

/// The digest at a place of a node's text.
fn digest_in(text: &[u8], place: u32) -> Digest
    requires size { length text.now ≡ 524 }
    requires place { place < 16 }
    ensures { result ≡ take 32 (drop (12 + 32 * place) text.now) }
{
    let at = 12 + 32 * place as usize;
    let mut digest = [0; 32];
    digest.copy_from_slice(&text[at..at + 32]);
    digest
}

/// Adds a number of a level with the digest that is expected there, if its own digest is another.
pub fn want(
    own: &Tree,
    level: u32,
    item: (u32, Digest),
    wanted: &mut Vec<(u32, Digest)>,
) -> Result<(), NoMemory>
    requires { IsDigest (length own.now) level item.0 }
    ensures ok { OnOk result (wanted.new.items ≡
        wanted.old.items ++ differing (digest_at own.now) level (item ∷ [])) }
    ensures err { OnErr result (wanted.new.items ≡ wanted.old.items) }
    ensures full { OnErr result (vec_capacity wanted.old ≤ length wanted.old.items) }
    ensures room { vec_capacity wanted.old ≤ vec_capacity wanted.new }
{
    if own.digest(level, item.0) == item.1 {
        return Ok(());
    }
    match wanted.push(item) {
        Ok(()) => Ok(()),
        Err(_) => Err(NoMemory),
    }
}

/// Adds the items below a node whose own digests are others, by the node's text. Want of memory leaves the list.
pub fn want_below(
    own: &Tree,
    level: u32,
    number: u32,
    text: &[u8],
    lower: &mut Vec<(u32, Digest)>,
) -> Result<(), NoMemory>
    requires size { length text.now ≡ 524 }
    requires number { number < 4096 }
    requires inside { (j : ℕ) → j < 16 → IsDigest (length own.now) level (16 * number + j) }
    ensures ok { OnOk result (lower.new.items ≡
        lower.old.items ++ differing (digest_at own.now) level (expected number text.now)) }
    ensures err { OnErr result (lower.new.items ≡ lower.old.items) }
    ensures room { vec_capacity lower.old ≤ vec_capacity lower.new }
{
    let before = lower.len();
    for place in 0..16 {
        let item = (16 * number + place, digest_in(text, place));
        match want(own, level, item, lower) {
            Ok(()) => {}
            Err(error) => {
                lower.truncate(before);
                return Err(error);
            }
        }
    }
    Ok(())
}
