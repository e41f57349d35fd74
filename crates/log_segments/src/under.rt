//! The records of keys that begin alike.

ghost use Rattle.std.specs.Prelude.{◌≡◌, IfOk, OnOk, reverse};
ghost use Rattle.std.specs.List.Sorted.{IsStrictlySortedBy};
ghost use Rattle.std.specs.Ordering.{nat_cmp};
ghost use Rattle.log_segments.specs.Newest.{ArePlacesUnder};
ghost use Rattle.log_segments.specs.Segments.{records_of, IsLog};

use crate::key::Key;
use crate::log::Log;
use nfs2_types::NoMemory;
use outside::Medium;
use std::alloc::{AllocError, Global};
use std::collections::BTreeSet;

/// The places of a set, the greatest first.
fn falling(alloc: Global, places: &BTreeSet<u32>) -> Result<Vec<u32>, AllocError>
    ensures same { IfOk result (λ falling. falling.items ≡ reverse places.now.keys) }
    ensures rising { OnOk result (IsStrictlySortedBy nat_cmp places.now.keys) }
{
    let mut falling = Vec::new(alloc);
    for place in places.iter() {
        falling.push(*place)?;
    }
    falling.reverse();
    Ok(falling)
}

impl<M: Medium> Log<M> {
    /// Where in the current half the newest records of all keys that begin with these bytes stand, the newest first.
    /// It reads no block.
    pub fn places_under(&self, prefix: &Key) -> Result<Vec<u32>, NoMemory>
        requires { IsLog M.content M.size self.now }
        ensures { let records = records_of M.content M.size self.now in
            IfOk result (λ places. ArePlacesUnder records prefix.now places.items) }
    {
        let places = self.places.under(self.alloc, prefix)?;
        Ok(falling(self.alloc, &places)?)
    }
}
