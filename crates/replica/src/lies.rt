//! The lies that a replica keeps.

ghost use Rattle.std.specs.Prelude.{◌≡◌, ◌∷◌, IfOk, OnErr, OnOk};
ghost use Rattle.std.specs.Option.{option_copied};
ghost use Rattle.cluster_model.specs.State.{lookup, lookup_item, or_else};
ghost use Rattle.cluster_model.specs.Tree.{item};
ghost use Rattle.cluster_model.specs.Turns.{honest};
ghost use Rattle.replica.specs.Lying.{lied};

use crate::lie::Lie;
use nfs2_types::{Blob, Digest, NoMemory, Word};
use std::alloc::Global;
use std::marker::Model;

/// The text that is given for an item.
#[derive(Debug, Drop)]
pub struct ItemLie {
    pub level: u32,
    pub number: u32,
    pub text: Blob,
}

/// Lies, the newest first: it counts before the earlier ones about the same place or item. They are few, and are looked
/// through in their order.
#[derive(Drop)]
pub struct Lies {
    words: Vec<(u32, Word)>,
    roots: Vec<(u32, Digest)>,
    items: Vec<ItemLie>,
}

impl Model for Lies {
    ghost use Rattle.cluster_model.specs.State.{Lies};
    ghost use Rattle.replica.specs.Lying.{item_lies};

    ghost Value = { Lies };

    ghost view = { λ l. record {
      words = l.words.items;
      roots = l.roots.items;
      items = item_lies l.items.items;
    } };
}

/// The newest lie about a place.
fn lie_about<X>(lies: &[(u32, X)], place: u32) -> Option<&X>
    ensures { option_copied result ≡ lookup place lies.now }
{
    for (about, lie) in lies {
        if *about == place {
            return Some(lie);
        }
    }
    None
}

/// Puts a lie before the others.
fn put_first<X: Drop>(lies: &mut Vec<X>, lie: X) -> Result<(), NoMemory>
    ensures ok { OnOk result (lies.new.items ≡ lie ∷ lies.old.items) }
    ensures err { OnErr result (lies.new.items ≡ lies.old.items) }
{
    match lies.insert(0, lie) {
        Ok(()) => Ok(()),
        Err(_) => Err(NoMemory),
    }
}

impl Lies {
    /// No lies. It takes no memory.
    pub fn none(alloc: Global) -> Lies
        ensures { result ≡ honest }
    {
        Lies {
            words: Vec::new(alloc),
            roots: Vec::new(alloc),
            items: Vec::new(alloc),
        }
    }

    /// Keeps a lie besides the others.
    pub fn keep(&mut self, lie: Lie) -> Result<(), NoMemory>
        ensures ok { OnOk result (self.new ≡ lied lie self.old) }
        ensures err { OnErr result (self.new ≡ self.old) }
    {
        match lie {
            Lie::OfWord { place, word } => put_first(&mut self.words, (place, word)),
            Lie::OfRoot { place, root } => put_first(&mut self.roots, (place, root)),
            Lie::OfItem {
                level,
                number,
                text,
            } => put_first(
                &mut self.items,
                ItemLie {
                    level,
                    number,
                    text,
                },
            ),
        }
    }

    /// The word that is cast for a place: the newest lie about it, else this one.
    pub fn word_for(&self, place: u32, word: Word) -> Result<Word, NoMemory>
        ensures { IfOk result (λ w. w ≡ or_else (lookup place self.now.words) word) }
    {
        match lie_about(&self.words, place) {
            Some(Word::Silent) => Ok(Word::Silent),
            Some(Word::Reply(bytes)) => Ok(Word::Reply(bytes.clone()?)),
            None => Ok(word),
        }
    }

    /// The root that is cast for a place: the newest lie about it, else this one.
    pub fn root_for(&self, place: u32, root: Digest) -> Digest
        ensures { result ≡ or_else (lookup place self.now.roots) root }
    {
        match lie_about(&self.roots, place) {
            Some(lie) => *lie,
            None => root,
        }
    }

    /// The newest lie about an item.
    pub fn item_for(&self, level: u32, number: u32) -> Option<&Blob>
        ensures { option_copied result ≡ lookup_item (item level number) self.now.items }
    {
        for lie in &self.items {
            if lie.level == level && lie.number == number {
                return Some(&lie.text);
            }
        }
        None
    }
}
