//! Texts that are saved by index.

ghost use Rattle.std.specs.Prelude.{◌≡◌, ◌∷◌, false, IfOk, OnOk, OnErr};
ghost use Rattle.std.specs.Option.{option_copied};
ghost use Rattle.std.specs.Rc.{rc_slice_items};
ghost use Rattle.cluster_model.specs.State as model;

use indexmap::IndexMap;
use std::alloc::{AllocError, Global};
use std::marker::Model;
use std::rc::RcSlice;

/// A text that is shared with whoever was given it. Contracts see its bytes.
#[derive(Drop)]
pub struct Text {
    bytes: RcSlice<u8>,
}

impl Model for Text {
    ghost use Rattle.std.specs.Prelude.{List, ℕ};
    ghost use Rattle.std.specs.Rc.{rc_slice_items};

    ghost Value = { List ℕ };

    ghost view = { λ t. rc_slice_items t.bytes };
}

impl Text {
    /// A text of these bytes, which are not copied.
    pub fn new(bytes: Vec<u8>) -> Result<Text, AllocError>
        ensures { IfOk result (λ t. t ≡ bytes.items) }
    {
        let bytes = RcSlice::from_vec(bytes)?;
        Ok(Text { bytes })
    }

    /// The bytes, shared.
    pub fn share(&self) -> Result<RcSlice<u8>, AllocError>
        ensures { IfOk result (λ shared. rc_slice_items shared ≡ self.now) }
    {
        self.bytes.clone()
    }
}

/// Texts by index. Contracts see them from the one saved last on.
#[derive(Drop)]
pub struct Saved {
    texts: IndexMap<u32, Text>,
}

impl Model for Saved {
    ghost use Rattle.std.specs.Prelude.{List, ℕ, nat_eq, reverse};
    ghost use Rattle.indexmap.specs.IndexMap.{IsUnique};

    ghost Value = { List (ℕ × List ℕ) };

    ghost view = { λ s. reverse s.texts.entries };

    ghost invariant = { λ s. IsUnique nat_eq s.texts };
}

impl Saved {
    ghost use Rattle.std.specs.Prelude.{[]};

    /// No texts. It takes no memory.
    pub fn new(alloc: Global) -> Saved
        ensures { result ≡ [] }
    {
        Saved {
            texts: IndexMap::new(alloc),
        }
    }

    /// Whether there is a text of an index.
    pub fn has(&self, index: u32) -> bool
        ensures { result ≡ model.has (model.lookup index self.now) }
    {
        self.texts.contains_key(&index)
    }

    /// The text of an index.
    pub fn get(&self, index: u32) -> Option<&Text>
        ensures { option_copied result ≡ model.lookup index self.now }
    {
        self.texts.get(&index)
    }

    /// Saves the text of an index that has none.
    pub fn put(&mut self, index: u32, text: Text) -> Result<(), AllocError>
        requires { model.has (model.lookup index self.old) ≡ false }
        ensures ok { OnOk result (self.new ≡ (index, text) ∷ self.old) }
        ensures err { OnErr result (self.new ≡ self.old) }
    {
        self.texts.insert(index, text)?;
        Ok(())
    }
}
