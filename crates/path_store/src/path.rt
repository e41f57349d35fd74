//! Paths that are shared.

ghost use Rattle.std.proofs.Common.{rules};
ghost use Rattle.std.specs.Cmp.Rules.{comparing};
ghost use Rattle.std.specs.Prelude.{◌≡◌, IfOk, Some, bytes_eq, refl};
ghost use Rattle.std.specs.Ordering.{nat_cmp};
ghost use Rattle.std.specs.Cmp.Lexicographic.{slice_cmp, nat_list_cmp_total, texts_ties, texts_po};

use nfs2_types::NoMemory;
use std::cmp::Ordering;
use std::marker::Model;
use std::rc::RcSlice;

/// A path. Its copies share its bytes.
#[derive(Debug, Drop)]
pub struct Path {
    bytes: RcSlice<u8>,
}

impl Model for Path {
    ghost use Rattle.std.specs.Prelude.{List, ℕ};
    ghost use Rattle.std.specs.Rc.{rc_slice_items};

    ghost Value = { List ℕ };

    ghost view = { λ p. rc_slice_items p.bytes };
}

impl Path {
    /// The path of these bytes.
    pub fn new(bytes: Vec<u8>) -> Result<Path, NoMemory>
        ensures { IfOk result (λ p. p ≡ bytes.items) }
    {
        Ok(Path {
            bytes: RcSlice::from_vec(bytes)?,
        })
    }

    /// The bytes.
    pub fn as_slice(&self) -> &[u8]
        ensures { result.now ≡ self.now }
    {
        self.bytes.as_slice()
    }

    /// A copy, which shares the bytes.
    pub fn share(&self) -> Result<Path, NoMemory>
        ensures { IfOk result (λ p. p ≡ self.now) }
    {
        Ok(Path {
            bytes: self.bytes.clone()?,
        })
    }
}

impl PartialEq for Path {
    ghost eq = { bytes_eq };

    ghost laws = { Prim.search (comparing, rules) };

    fn eq(&self, other: &Path) -> bool {
        self.as_slice() == other.as_slice()
    }
}

impl Eq for Path {
    ghost laws = { Prim.search (comparing, rules) };
}

impl PartialOrd for Path {
    ghost partial_cmp = { λ x y. Some (slice_cmp nat_cmp x y) };

    ghost laws = { texts_po };

    fn partial_cmp(&self, other: &Path) -> Option<Ordering> {
        Some(self.cmp(other))
    }
}

impl Ord for Path {
    ghost cmp = { slice_cmp nat_cmp };

    ghost total = { nat_list_cmp_total };

    ghost matches_partial_cmp = { λ x y. refl };

    ghost matches_eq = { texts_ties };

    fn cmp(&self, other: &Path) -> Ordering {
        self.as_slice().cmp(&other.as_slice())
    }
}
