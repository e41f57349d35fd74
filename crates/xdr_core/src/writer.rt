//! A writer of items, each in its one spelling.

ghost use Rattle.std.specs.Prelude.{◌≡◌, ◌++◌, ◌<◌, ◌≤◌, ◌^◌, length, replicate, [], OnOk, OnErr};
ghost use Rattle.xdr_core.specs.Items.{spell_word, spell_words, spell_bool, spell_opaque, spell_fixed};

use crate::padding::padding;
use nfs2_types::NoMemory;
use std::alloc::Global;
use std::marker::Model;

/// Bytes to which items are appended (RFC 4506, 4). An error leaves them as they were.
#[derive(Debug, Drop)]
pub struct Writer {
    bytes: Vec<u8>,
}

impl Model for Writer {
    ghost use Rattle.std.specs.Prelude.{List, ℕ};

    ghost Value = { List ℕ };

    ghost view = { λ w. w.bytes.items };
}

impl Writer {
    /// A writer of no bytes yet. It takes no memory.
    pub fn new(alloc: Global) -> Writer
        ensures { result ≡ [] }
    {
        Writer {
            bytes: Vec::new(alloc),
        }
    }

    /// Appends a number of four bytes, the high one first (RFC 4506, 4.2).
    #[tactic(auto, unfolding(crate::specs::Items::spell_word))]
    pub fn word(&mut self, v: u32) -> Result<(), NoMemory>
        ensures text { OnOk result (self.new ≡ self.old ++ spell_word v) }
        ensures err { OnErr result (self.new ≡ self.old) }
    {
        self.put(&v.to_be_bytes())
    }

    /// Appends each of these numbers (RFC 4506, 4.2).
    pub fn words(&mut self, words: &[u32]) -> Result<(), NoMemory>
        ensures text { OnOk result (self.new ≡ self.old ++ spell_words words.now) }
        ensures err { OnErr result (self.new ≡ self.old) }
    {
        let start = self.bytes.len();
        for n in words {
            if let Err(e) = self.word(*n) {
                self.bytes.truncate(start);
                return Err(e);
            }
        }
        Ok(())
    }

    /// Appends the word 1 for true, and 0 for false (RFC 4506, 4.4).
    pub fn boolean(&mut self, v: bool) -> Result<(), NoMemory>
        ensures text { OnOk result (self.new ≡ self.old ++ spell_bool v) }
        ensures err { OnErr result (self.new ≡ self.old) }
    {
        self.word(if v { 1 } else { 0 })
    }

    /// Appends a length, the bytes, and their padding (RFC 4506, 4.10 and 4.11).
    #[tactic(auto, unfolding(crate::specs::Items::spell_opaque))]
    pub fn opaque(&mut self, bytes: &[u8]) -> Result<(), NoMemory>
        requires { length bytes.now < 2 ^ 32 }
        ensures text { OnOk result (self.new ≡ self.old ++ spell_opaque bytes.now) }
        ensures err { OnErr result (self.new ≡ self.old) }
    {
        let before_length = self.bytes.len();
        self.word(bytes.len() as u32)?;
        if let Err(e) = self.fixed(bytes) {
            self.bytes.truncate(before_length);
            return Err(e);
        }
        Ok(())
    }

    /// Appends the bytes and their padding (RFC 4506, 4.9).
    #[tactic(auto, unfolding(crate::specs::Items::spell_fixed))]
    pub fn fixed(&mut self, bytes: &[u8]) -> Result<(), NoMemory>
        ensures text { OnOk result (self.new ≡ self.old ++ spell_fixed bytes.now) }
        ensures err { OnErr result (self.new ≡ self.old) }
    {
        let before = self.bytes.len();
        self.put(bytes)?;
        if let Err(e) = self.pad(padding(bytes.len())) {
            self.bytes.truncate(before);
            return Err(e);
        }
        Ok(())
    }

    /// The bytes that were written. It takes no memory.
    pub fn into_bytes(self) -> Vec<u8>
        ensures { result.items ≡ self }
    {
        let Writer { bytes } = self;
        bytes
    }

    /// Appends so many zero bytes, at most three.
    fn pad(&mut self, count: usize) -> Result<(), NoMemory>
        requires { count ≤ 3 }
        ensures text { OnOk result (self.new ≡ self.old ++ replicate count 0) }
        ensures err { OnErr result (self.new ≡ self.old) }
    {
        self.put(&[0; 3][..count])
    }

    /// Appends bytes as they are.
    fn put(&mut self, piece: &[u8]) -> Result<(), NoMemory>
        ensures text { OnOk result (self.new ≡ self.old ++ piece.now) }
        ensures err { OnErr result (self.new ≡ self.old) }
    {
        self.bytes.extend_from_slice(piece)?;
        Ok(())
    }
}
