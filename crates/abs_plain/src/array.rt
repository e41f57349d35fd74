//! The array of a service.

ghost use Rattle.std.specs.Prelude.{◌≡◌, ◌≤◌, ℕ, IfOk, slice_set};
ghost use Rattle.abs_model.specs.Array.{changed, empty_array, empty_root};

use abs_model::{Attr, Change, Entry, Names, OPEN_MODE, Object};
use nfs2_types::{NoMemory, Time};
use std::alloc::{AllocError, Global};
use std::marker::Model;

/// The state of a service, which contracts see as the list of its entries.
#[derive(Debug, Drop)]
pub struct AbsArray {
    entries: Vec<Entry>,
}

impl Model for AbsArray {
    ghost use Rattle.std.specs.Prelude.{List};
    ghost use Rattle.abs_model.specs.declared.Entry.{Entry};

    ghost Value = { List Entry };

    ghost view = { λ a. a.entries.items };
}

impl AbsArray {
    /// The array with which a service of n entries begins.
    pub fn empty(alloc: Global, n: u32) -> Result<AbsArray, NoMemory>
        requires { 1 ≤ n }
        ensures { IfOk result (λ a. a ≡ empty_array n) }
    {
        Ok(AbsArray {
            entries: empty_entries(alloc, n)?,
        })
    }

    /// The entries in their order.
    pub fn entries(&self) -> &[Entry]
        ensures { result.now ≡ self.now }
    {
        self.entries.as_slice()
    }

    /// Puts these entries in. It takes no memory.
    pub fn put_all(&mut self, changes: Vec<Change>)
        ensures { self.new ≡ changed changes.items self.old }
    {
        put_all(self.entries.as_mut_slice(), changes);
    }
}

fn empty_entries(alloc: Global, n: u32) -> Result<Vec<Entry>, AllocError>
    requires { 1 ≤ n }
    ensures { IfOk result (λ v. v.items ≡ empty_array n) }
{
    let mut entries = Vec::new(alloc);
    entries.push(empty_root(alloc))?;
    for i in 0..n - 1 {
        entries.push(Entry {
            generation: 0,
            object: Object::Null,
        })?;
    }
    Ok(entries)
}

fn empty_root(alloc: Global) -> Entry
    ensures { result ≡ empty_root }
{
    let zero = Time { secs: 0, micros: 0 };
    Entry {
        generation: 1,
        object: Object::Dir {
            attr: Attr {
                mode: OPEN_MODE,
                uid: 0,
                gid: 0,
                atime: zero,
                mtime: zero,
                ctime: zero,
            },
            names: Names::new(Vec::new(alloc)),
        },
    }
}

#[tactic(auto, using(crate::proofs::Pushes::pushes))]
fn put_all(entries: &mut [Entry], changes: Vec<Change>)
    ensures { entries.new ≡ changed changes.items entries.old }
{
    for change in changes {
        put(entries, change);
    }
}

fn put(entries: &mut [Entry], change: Change)
    ensures { entries.new ≡ slice_set entries.old change.index change.entry }
{
    let i = change.index as usize;
    if i < entries.len() {
        entries[i] = change.entry;
    }
}
