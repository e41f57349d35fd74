//! On whose behalf a call is made.

ghost use Rattle.std.proofs.Common.{rules};
ghost use Rattle.std.specs.Cmp.Rules.{comparing};
ghost use Rattle.std.specs.Prelude.{List, ℕ, take, [], ◌∷◌, ◌++◌, length, IsTrue, bytes_eq};
ghost use Rattle.std.specs.Prelude.{◌≤◌, ◌<◌, ◌≡◌, ◌↔◌};

use std::alloc::AllocError;
use std::marker::Model;

/// At most sixteen group numbers, which contracts see as their list (RFC 5531, appendix A).
#[derive(Debug, Drop)]
pub struct Blob16 {
    words: [u32; 16],
    len: usize,
}

impl Model for Blob16 {
    ghost Value = { List ℕ };

    ghost view = { λ g. take g.len g.words };

    ghost invariant = { λ g. g.len ≤ 16 };
}

impl Blob16 {
    /// No groups. It takes no memory.
    pub fn new() -> Blob16
        ensures { result ≡ [] }
    {
        Blob16 {
            words: [0; 16],
            len: 0,
        }
    }

    /// Puts one more group behind the others. It takes no memory.
    pub fn push(&mut self, gid: u32)
        requires { length self.old < 16 }
        ensures { self.new ≡ self.old ++ gid ∷ [] }
    {
        self.words[self.len] = gid;
        self.len += 1;
    }

    /// How many groups there are.
    pub fn len(&self) -> usize
        ensures count { result ≡ length self.now }
        ensures few { result ≤ 16 }
    {
        self.len
    }

    /// Whether there are none.
    pub fn is_empty(&self) -> bool
        ensures { IsTrue result ↔ (self.now ≡ []) }
    {
        self.len == 0
    }

    /// The groups in their order.
    pub fn as_slice(&self) -> &[u32]
        ensures { result.now ≡ self.now }
    {
        &self.words[..self.len]
    }
}

impl Clone for Blob16 {
    ghost is_clone = { λ g t. t ≡ g };

    fn clone(&self) -> Result<Blob16, AllocError> {
        Ok(Blob16 {
            words: self.words,
            len: self.len,
        })
    }
}

impl PartialEq for Blob16 {
    ghost eq = { bytes_eq };

    ghost laws = { Prim.search (comparing, rules) };

    fn eq(&self, other: &Blob16) -> bool {
        self.as_slice() == other.as_slice()
    }
}

impl Eq for Blob16 {
    ghost laws = { Prim.search (comparing, rules) };
}

/// The caller of a call: a user, its group, and further groups.
#[derive(Clone, Debug, Drop, PartialEq, Eq)]
pub struct Cred {
    pub uid: u32,
    pub gid: u32,
    pub gids: Blob16,
}
