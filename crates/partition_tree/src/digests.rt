//! The text of a node.

ghost use Rattle.std.specs.Prelude.{◌≡◌, length};
ghost use Rattle.abs_text.specs.Text as texts;

use nfs2_types::Digest;

/// The text of a node over the sixteen digests below it.
#[tactic(auto, unfolding(xdr_core::specs::Items::spell_word))]
pub fn node_text(level: u32, number: u32, below: &[Digest]) -> [u8; 524]
    requires { length below.now ≡ 16 }
    ensures { result ≡ texts.node_text level number below.now }
{
    let mut text = [0; 524];
    text[0..4].copy_from_slice(&1u32.to_be_bytes());
    text[4..8].copy_from_slice(&level.to_be_bytes());
    text[8..12].copy_from_slice(&number.to_be_bytes());
    let mut at = 12;
    for digest in below {
        text[at..at + 32].copy_from_slice(digest);
        at += 32;
    }
    text
}
