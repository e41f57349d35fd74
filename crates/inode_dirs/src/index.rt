//! Where each name of a directory stands.

ghost use Rattle.std.specs.Prelude.{◌≡◌, OnOk};
ghost use Rattle.std.specs.FinMap as map;
ghost use Rattle.inode_dirs.specs.Slots.{inode_by};

use nfs2_types::NoMemory;
use std::alloc::Global;
use std::collections::BTreeMap;
use std::marker::Model;

/// A slot of a directory, counted from zero, and the inode that its name leads to.
#[derive(Clone, Copy, Debug)]
pub struct Place {
    pub slot: u32,
    pub inode: u32,
}

/// The places of one directory's names.
#[derive(Drop)]
pub struct DirIndex {
    rows: BTreeMap<Vec<u8>, Place>,
}

impl Model for DirIndex {
    ghost use Rattle.std.specs.Prelude.{List, ℕ, map as each};
    ghost use Rattle.std.specs.Ordering.{nat_cmp};
    ghost use Rattle.std.specs.Cmp.Lexicographic.{slice_cmp};
    ghost use Rattle.std.specs.FinMap as map;
    ghost use Rattle.std.specs.Coded.{coded_ℕ, coded_list};
    ghost use Rattle.inode_dirs.specs.Slots.{place_code};
    ghost use Rattle.inode_dirs.specs.declared.index.Place.{Place};

    ghost Value = { map.FinMap (slice_cmp nat_cmp) Place };

    ghost coded = { map.code (coded_list coded_ℕ) place_code };

    ghost view = { λ k. map.from_entries (each (λ e. (e.0.items, e.1)) k.rows.entries) };
}

impl DirIndex {
    /// No names. It takes no memory.
    pub fn new(alloc: Global) -> DirIndex
        ensures { result ≡ map.empty }
    {
        DirIndex {
            rows: BTreeMap::new(alloc),
        }
    }

    /// The place of a name.
    pub fn get(&self, name: &[u8]) -> Option<Place>
        ensures { result ≡ map.get self.now name.now }
    {
        self.rows.get(name).copied()
    }

    /// Gives a name a place. After want of memory the index is of no use.
    pub fn insert(&mut self, name: Vec<u8>, place: Place) -> Result<(), NoMemory>
        ensures { OnOk result (self.new ≡ map.insert self.old name.items place) }
    {
        self.rows.insert(name, place)?;
        Ok(())
    }

    /// Takes out a name.
    pub fn remove(&mut self, name: &[u8])
        ensures { self.new ≡ map.remove self.old name.now }
    {
        self.rows.remove(name);
    }
}

/// The inode to which a name leads.
pub fn find_name(index: &DirIndex, name: &[u8]) -> Option<u32>
    ensures { result ≡ inode_by index.now name.now }
{
    index.get(name).map(|place| place.inode)
}
