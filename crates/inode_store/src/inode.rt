//! An inode, and the block that holds it.

ghost use Rattle.std.specs.Prelude.{◌≡◌, ◌≢◌, ℕ, ◌+◌, ◌*◌, ◌<◌};
ghost use Rattle.pointer_tree.specs.Tree.{word_at, as_pointer};
ghost use Rattle.inode_store.specs.Kinds.{word_of};

use nfs2_types::Kind;
use outside::Block;
use pointer_tree::Area;

/// A used inode: its kind, mode and owners, its size in bytes, and the depth and the top of the tree of its bytes.
#[derive(Clone, Copy, Debug, PartialEq, Eq)]
pub struct Inode {
    pub kind: Kind,
    pub mode: u32,
    pub uid: u32,
    pub gid: u32,
    pub size: u32,
    pub depth: u32,
    pub top: u32,
}

impl Inode {
    ghost use Rattle.std.specs.Prelude.{Some};
    ghost use Rattle.pointer_tree.specs.Changes.{IsTop};
    ghost use Rattle.pointer_tree.specs.declared.node.Area.{Area};
    ghost use Rattle.inode_store.specs.Inodes.{inode_in};

    /// The inode that a block holds, if it is used.
    #[tactic(auto, unfolding(crate::specs::Inodes::inode_in))]
    pub(crate) fn from_block(block: &Block, area: Area) -> Option<Inode>
        ensures { result ≡ inode_in area block.now }
    {
        let kind = match word(block, 0) {
            1 => Kind::File,
            2 => Kind::Dir,
            3 => Kind::Link,
            _ => return None,
        };
        Some(Inode {
            kind,
            mode: word(block, 4),
            uid: word(block, 8),
            gid: word(block, 12),
            size: word(block, 16),
            depth: word(block, 20),
            top: pointer(word(block, 24), area),
        })
    }

    /// The block that holds it, whose other bytes are zeros.
    pub(crate) fn to_block(&self) -> Block
        ensures { (area : Area) → IsTop area self.now.top → inode_in area result ≡ Some self.now }
    {
        let words = [
            kind_word(self.kind),
            self.mode,
            self.uid,
            self.gid,
            self.size,
            self.depth,
            self.top,
        ];
        let mut block = [0; 512];
        for (index, word) in words.iter().enumerate() {
            set_word(&mut block, index, *word);
        }
        block
    }
}

/// Sets a number of a block, of which it has 128.
fn set_word(block: &mut Block, index: usize, word: u32)
    requires { index < 128 }
    ensures here { word_at block.new (4 * index) ≡ word }
    ensures there { (i : ℕ) → i ≢ index → word_at block.new (4 * i) ≡ word_at block.old (4 * i) }
{
    let at = 4 * index;
    let bytes = word.to_be_bytes();
    block[at] = bytes[0];
    block[at + 1] = bytes[1];
    block[at + 2] = bytes[2];
    block[at + 3] = bytes[3];
}

/// The number of a kind.
fn kind_word(kind: Kind) -> u32
    ensures { result ≡ word_of kind }
{
    match kind {
        Kind::File => 1,
        Kind::Dir => 2,
        Kind::Link => 3,
    }
}

/// The number at a place of a block.
fn word(block: &Block, at: usize) -> u32
    requires { at + 3 < 512 }
    ensures { result ≡ word_at block.now at }
{
    u32::from_be_bytes([block[at], block[at + 1], block[at + 2], block[at + 3]])
}

/// A number as a pointer, which is 0 where it names no block of the area.
fn pointer(word: u32, area: Area) -> u32
    ensures { result ≡ as_pointer area word }
{
    if area.first <= word && word < area.end {
        word
    } else {
        0
    }
}
