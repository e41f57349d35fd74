//! Tells whether bytes are the text of a node.

ghost use Rattle.std.specs.Prelude.{◌≡◌, ◌↔◌, true};
ghost use Rattle.abs_text.specs.Node.{IsNodeText, HasHead};

/// Whether the bytes are as many as a node's text has, and begin with the words 1, level and number.
#[tactic(auto, unfolding(xdr_core::specs::Items::spell_word))]
fn has_head(level: u32, number: u32, bytes: &[u8]) -> bool
    ensures { (result ≡ true) ↔ HasHead level number bytes.now }
{
    if bytes.len() != 524 {
        return false;
    }
    &bytes[0..4] == 1u32.to_be_bytes().as_slice()
        && &bytes[4..8] == level.to_be_bytes().as_slice()
        && &bytes[8..12] == number.to_be_bytes().as_slice()
}

/// Whether the bytes are the text of a node of this level and number, whatever its digests are. It takes no memory.
pub fn is_node_text(level: u32, number: u32, bytes: &[u8]) -> bool
    ensures { (result ≡ true) ↔ IsNodeText level number bytes.now }
{
    has_head(level, number, bytes)
}
