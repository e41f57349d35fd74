//! Where records stand.

ghost use Rattle.std.specs.Prelude.{◌≡◌, ◌↔◌, Some, IfOk, IsTrue, OnOk};
ghost use Rattle.std.specs.FinMap as map;
ghost use Rattle.log_segments.specs.Segments.{HasUnder, IsNoted};

use crate::key::Key;
use nfs2_types::NoMemory;
use std::alloc::{AllocError, Global};
use std::collections::{BTreeMap, BTreeSet};
use std::marker::Model;

/// Where in the current half the newest record of each key stands.
#[derive(Drop)]
pub struct Places {
    places: BTreeMap<Key, u32>,
}

impl Model for Places {
    ghost use Rattle.std.specs.Prelude.{List, ℕ};
    ghost use Rattle.std.specs.Ordering.{nat_cmp};
    ghost use Rattle.std.specs.Cmp.Lexicographic.{slice_cmp};
    ghost use Rattle.std.specs.Coded.{coded_ℕ, coded_list};
    ghost use Rattle.std.specs.FinMap as map;

    ghost Value = { map.FinMap (slice_cmp nat_cmp) ℕ };

    ghost coded = { map.code (coded_list coded_ℕ) coded_ℕ };

    ghost view = { λ p. map.from_entries p.places.entries };
}

impl Places {
    /// No places. It takes no memory.
    pub fn new(alloc: Global) -> Places
        ensures { result ≡ map.empty }
    {
        Places {
            places: BTreeMap::new(alloc),
        }
    }

    /// Where the newest record of a key stands.
    pub fn get(&self, key: &Key) -> Option<u32>
        ensures { result ≡ map.get self.now key.now }
    {
        self.places.get(key).copied()
    }

    /// Whether the newest record of a key stands there.
    pub fn is_at(&self, key: &Key, place: u32) -> bool
        ensures { IsTrue result ↔ (map.get self.now key.now ≡ Some place) }
    {
        self.get(key) == Some(place)
    }

    /// The places of all keys that begin with these bytes. No other key is looked at, but for the one behind them.
    pub fn under(&self, alloc: Global, prefix: &Key) -> Result<BTreeSet<u32>, AllocError>
        ensures { IfOk result (HasUnder self.now prefix.now) }
    {
        let mut places = BTreeSet::new(alloc);
        for (key, place) in self.places.range(prefix..) {
            if !key.as_slice().starts_with(prefix.as_slice()) {
                break;
            }
            places.insert(*place)?;
        }
        Ok(places)
    }

    /// Gives a key a place.
    pub fn insert(&mut self, key: Key, place: u32) -> Result<(), AllocError>
        ensures { OnOk result (self.new ≡ map.insert self.old key place) }
    {
        self.places.insert(key, place)?;
        Ok(())
    }

    /// Takes a key out.
    pub fn remove(&mut self, key: &Key)
        ensures { self.new ≡ map.remove self.old key.now }
    {
        self.places.remove(key);
    }

    /// Notes a record of a key, which takes the key away or stands at a place.
    pub fn note(&mut self, key: Key, gone: bool, place: u32) -> Result<(), NoMemory>
        ensures { OnOk result (IsNoted self.old self.new key gone place) }
    {
        if gone {
            self.remove(&key);
            return Ok(());
        }
        self.insert(key, place)?;
        Ok(())
    }
}
