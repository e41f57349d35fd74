//! A checkpoint that is held.

ghost use Rattle.std.specs.Prelude.{◌≡◌, ◌<◌, ◌==◌, ◌↔◌, List, OnOk, OnErr, IfOk, IfSome, IsSome, length, nat_le};
ghost use Rattle.std.specs.Option.{option_copied};
ghost use Rattle.abs_model.specs.declared.Entry.{Entry};
ghost use Rattle.abs_model.specs.Array.{entry_at};
ghost use Rattle.abs_text.specs.Text.{entry_text};
ghost use Rattle.conf_map.specs.Stands.{StandValid};
ghost use Rattle.conf_map.specs.Notice.{Watched};
ghost use Rattle.partition_tree.specs.Digests.{IsNode, node_at};
ghost use Rattle.cow_checkpoint.specs.Store.{fresh, saves};
ghost use Rattle.cow_checkpoint.specs.Held.{saved_in};

use crate::saved::{Saved, Text};
use abstraction_fn::get_obj;
use partition_tree::Tree;
use server_trait::{ConfTable, Srv, WrapErr};
use std::alloc::Global;
use std::marker::Model;

/// A place, its digests, and the texts that were saved since.
#[derive(Drop)]
pub struct Checkpoint {
    place: u32,
    tree: Tree,
    saved: Saved,
}

impl Model for Checkpoint {
    ghost use Rattle.cluster_model.specs.State as model;

    ghost Value = { model.Checkpoint };

    ghost view = { λ c. record { place = c.place; digests = c.tree; saved = c.saved } };
}

impl Checkpoint {
    /// That of a place, with no text saved yet.
    pub fn new(alloc: Global, place: u32, tree: Tree) -> Checkpoint
        ensures { result ≡ fresh place tree }
    {
        Checkpoint {
            place,
            tree,
            saved: Saved::new(alloc),
        }
    }

    /// Whether it is that of a place.
    pub fn is_of(&self, place: u32) -> bool
        ensures { result ≡ (self.now.place == place) }
    {
        self.place == place
    }

    /// Whether it is that of a place or of a later one.
    pub fn is_from(&self, place: u32) -> bool
        ensures { result ≡ nat_le place self.now.place }
    {
        place <= self.place
    }

    /// The text of a node.
    pub fn node(&self, level: u32, number: u32) -> Option<[u8; 524]>
        ensures text { IfSome result (λ text. text ≡ node_at self.now.digests level number) }
        ensures some { IsSome result ↔ IsNode (length self.now.digests) level number }
    {
        self.tree.node_text(level, number)
    }

    /// What it has for a place at or before its own.
    pub fn saved_for(&self, place: u32, index: u32) -> Option<&Text>
        ensures { option_copied result ≡ saved_in place index self.now }
    {
        if self.place < place {
            return None;
        }
        self.saved.get(index)
    }

    /// Saves the present text of an index that has none saved yet.
    pub fn save(
        &mut self,
        alloc: Global,
        server: &mut Srv,
        table: &ConfTable,
        index: u32,
    ) -> Result<(), WrapErr>
        requires stands { (A : List Entry) × StandValid (state server.old).tree table.now A }
        requires within { index < length table.now.rows.items }
        ensures saved { OnOk result ((A : List Entry) → StandValid (state server.old).tree table.now A →
            self.new ≡ record self.old { saved = saves index (entry_text index (entry_at A index)) self.old.saved }) }
        ensures err { OnErr result (self.new ≡ self.old) }
        ensures tree { OnOk result ((state server.new).tree ≡ (state server.old).tree) }
        ensures watched { Watched (state server.old) (state server.new) result }
    {
        if self.saved.has(index) {
            return Ok(());
        }
        let text = present_text(alloc, server, table, index)?;
        self.saved.put(index, text)?;
        Ok(())
    }
}

/// The present text of an index.
pub fn present_text(
    alloc: Global,
    server: &mut Srv,
    table: &ConfTable,
    index: u32,
) -> Result<Text, WrapErr>
    requires stands { (A : List Entry) × StandValid (state server.old).tree table.now A }
    requires within { index < length table.now.rows.items }
    ensures text { IfOk result (λ text. (A : List Entry) → StandValid (state server.old).tree table.now A →
        text ≡ entry_text index (entry_at A index)) }
    ensures tree { OnOk result ((state server.new).tree ≡ (state server.old).tree) }
    ensures watched { Watched (state server.old) (state server.new) result }
{
    let bytes = get_obj(alloc, server, table, index)?;
    let text = Text::new(bytes)?;
    Ok(text)
}
