//! The checkpoints that are held.

ghost use Rattle.std.specs.Prelude.{◌≡◌, ◌<◌, ◌++◌, ◌∷◌, [], List, None, OnOk, OnErr, IfErr, length, reverse};
ghost use Rattle.std.specs.Option.{option_copied, option_to_list};
ghost use Rattle.abs_model.specs.declared.Entry.{Entry};
ghost use Rattle.abs_model.specs.Array.{entry_at};
ghost use Rattle.abs_text.specs.Text.{entry_text};
ghost use Rattle.cluster_model.specs.State as model;
ghost use Rattle.cluster_model.specs.Moments.{from_place};
ghost use Rattle.conf_map.specs.Stands.{StandValid};
ghost use Rattle.conf_map.specs.Notice.{Watched};
ghost use Rattle.cow_checkpoint.specs.Store.{saves_newest};
ghost use Rattle.cow_checkpoint.specs.Held.{held_at, saved_from};

use crate::checkpoint::Checkpoint;
use crate::saved::Text;
use nfs2_types::NoMemory;
use server_trait::{ConfTable, Srv, WrapErr};
use std::alloc::Global;
use std::marker::Model;

/// Checkpoints, which contracts see from the newest on.
#[derive(Drop)]
pub struct Held {
    newest: Option<Checkpoint>,
    // in the order in which they were taken
    older: Vec<Checkpoint>,
}

impl Model for Held {
    ghost use Rattle.std.specs.Prelude.{◌≡◌, ◌++◌, [], List, None, reverse};
    ghost use Rattle.std.specs.Option.{option_to_list};
    ghost use Rattle.cluster_model.specs.State as model;

    ghost Value = { List model.Checkpoint };

    ghost view = { λ h. option_to_list h.newest ++ reverse h.older.items };

    ghost invariant = { λ h. h.newest ≡ None → h.older.items ≡ [] };
}

/// Puts a checkpoint, if there is one, behind the others; else hands it back.
fn append(older: &mut Vec<Checkpoint>, last: Option<Checkpoint>) -> Result<(), Option<Checkpoint>>
    ensures ok { OnOk result (reverse older.new.items ≡ option_to_list last ++ reverse older.old.items) }
    ensures err { OnErr result (older.new.items ≡ older.old.items) }
    ensures back { IfErr result (λ back. back ≡ last) }
{
    match last {
        None => Ok(()),
        Some(checkpoint) => match older.push(checkpoint) {
            Ok(()) => Ok(()),
            Err(refused) => Err(Some(refused.value)),
        },
    }
}

/// The checkpoint, if it is that of a place or of a later one.
fn still(newest: Option<Checkpoint>, place: u32) -> Option<Checkpoint>
    ensures { option_to_list result ≡ from_place place (option_to_list newest) }
{
    match newest {
        None => None,
        Some(checkpoint) => {
            if checkpoint.is_from(place) {
                Some(checkpoint)
            } else {
                None
            }
        }
    }
}

/// The newest checkpoint, which is taken from the others where there is none.
fn refill(newest: Option<Checkpoint>, older: &mut Vec<Checkpoint>) -> Option<Checkpoint>
    ensures same { option_to_list result ++ reverse older.new.items ≡ option_to_list newest ++ reverse older.old.items }
    ensures full { result ≡ None → older.new.items ≡ [] }
{
    match newest {
        Some(checkpoint) => Some(checkpoint),
        None => older.pop(),
    }
}

/// The newest of these checkpoints that is of a place.
fn among(older: &[Checkpoint], place: u32) -> Option<&Checkpoint>
    ensures { option_copied result ≡ held_at place (reverse older.now) }
{
    older.iter().rev().find(|c| c.is_of(place))
}

/// The text saved first at or after a place by these, which stand in the order in which they were taken.
fn first_saved(older: &[Checkpoint], place: u32, index: u32) -> Option<&Text>
    ensures { option_copied result ≡ saved_from place index (reverse older.now) }
{
    for c in older {
        if let Some(text) = c.saved_for(place, index) {
            return Some(text);
        }
    }
    None
}

/// The text saved at or after a place by the newest.
fn newest_saved(newest: &Option<Checkpoint>, place: u32, index: u32) -> Option<&Text>
    ensures { option_copied result ≡ saved_from place index (option_to_list newest.now) }
{
    match newest {
        Some(c) => c.saved_for(place, index),
        None => None,
    }
}

impl Held {
    /// Holds one checkpoint. It takes no memory.
    pub fn new(alloc: Global, checkpoint: Checkpoint) -> Held
        ensures { result ≡ checkpoint ∷ [] }
    {
        Held {
            newest: Some(checkpoint),
            older: Vec::new(alloc),
        }
    }

    /// Holds a newer checkpoint besides.
    pub fn push(&mut self, checkpoint: Checkpoint) -> Result<(), NoMemory>
        ensures ok { OnOk result (self.new ≡ checkpoint ∷ self.old) }
        ensures err { OnErr result (self.new ≡ self.old) }
    {
        let last = self.newest.take();
        match append(&mut self.older, last) {
            Ok(()) => {
                self.newest = Some(checkpoint);
                Ok(())
            }
            Err(last) => {
                self.newest = last;
                Err(NoMemory)
            }
        }
    }

    /// Saves the present text of an index under the newest checkpoint, unless there is one saved.
    pub fn save(
        &mut self,
        alloc: Global,
        server: &mut Srv,
        table: &ConfTable,
        index: u32,
    ) -> Result<(), WrapErr>
        requires stands { (A : List Entry) × StandValid (state server.old).tree table.now A }
        requires within { index < length table.now.rows.items }
        ensures saved { OnOk result ((A : List Entry) → StandValid (state server.old).tree table.now A →
            self.new ≡ saves_newest index (entry_text index (entry_at A index)) self.old) }
        ensures err { OnErr result (self.new ≡ self.old) }
        ensures same { OnOk result ((state server.new).tree ≡ (state server.old).tree) }
        ensures watched { Watched (state server.old) (state server.new) result }
    {
        let Some(newest) = &mut self.newest else {
            return Ok(());
        };
        newest.save(alloc, server, table, index)
    }

    /// Forgets the checkpoints of lower places.
    pub fn drop_before(&mut self, place: u32)
        ensures { self.new ≡ from_place place self.old }
    {
        self.older.retain(|c| c.is_from(place));
        let newest = self.newest.take();
        let newest = still(newest, place);
        self.newest = refill(newest, &mut self.older);
    }

    /// Whether the checkpoint of a place is held.
    pub fn has(&self, place: u32) -> bool
        ensures { result ≡ model.holds_in place self.now }
    {
        self.at(place).is_some()
    }

    /// The checkpoint of a place.
    pub fn at(&self, place: u32) -> Option<&Checkpoint>
        ensures { option_copied result ≡ held_at place self.now }
    {
        match &self.newest {
            None => {
                let found = among(&self.older, place);
                found
            }
            Some(newest) => {
                if newest.is_of(place) {
                    return Some(newest);
                }
                let found = among(&self.older, place);
                found
            }
        }
    }

    /// The text saved first at or after a place.
    pub fn saved(&self, place: u32, index: u32) -> Option<&Text>
        ensures { option_copied result ≡ saved_from place index self.now }
    {
        let first = first_saved(&self.older, place, index);
        let last = newest_saved(&self.newest, place, index);
        first.or(last)
    }
}
