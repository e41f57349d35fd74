//! The results of calls.

ghost use Rattle.std.specs.Prelude.{◌≡◌, nat_eq, List, ℕ, length, bytes_eq};

use crate::blob::Blob;
use crate::fattr::Fattr;
use crate::handle::Handle;
use crate::stat::Stat;
use std::alloc::AllocError;
use std::marker::Model;

/// One entry of a directory's list (RFC 1094, 2.2.17).
#[derive(Clone, Debug, Drop, PartialEq, Eq)]
pub struct ListEntry {
    pub fileid: u32,
    pub name: Blob,
    pub cookie: u32,
}

/// What READDIR gives, which contracts see as the list of its entries.
#[derive(Debug, Drop)]
pub struct Listing {
    entries: Vec<ListEntry>,
}

impl Model for Listing {
    ghost use Rattle.std.specs.Prelude.{List};
    ghost use Rattle.nfs2_types.specs.declared.results.ListEntry.{ListEntry};

    ghost Value = { List ListEntry };

    ghost view = { λ l. l.entries.items };
}

impl Listing {
    /// The listing of these entries. It takes no memory.
    pub fn new(entries: Vec<ListEntry>) -> Listing
        ensures { result ≡ entries.items }
    {
        Listing { entries }
    }

    /// The entries in their order.
    pub fn as_slice(&self) -> &[ListEntry]
        ensures { result.now ≡ self.now }
    {
        self.entries.as_slice()
    }
}

/// The result of a call, by its shape (RFC 1094, 2.2).
#[derive(Clone, Debug, Drop, PartialEq, Eq)]
pub enum NfsResult {
    /// NULL, ROOT and WRITECACHE have no result.
    Nothing,
    /// Any status but OK.
    Refused(Stat),
    /// The status OK, alone.
    Done,
    /// An attrstat of OK.
    Attr(Fattr),
    /// A diropres of OK.
    Node {
        handle: Handle,
        fattr: Fattr,
    },
    /// READLINK's text.
    Path(Blob),
    /// READ's bytes.
    Content {
        fattr: Fattr,
        bytes: Blob,
    },
    /// READDIR's entries; `eof` says that no more follow.
    Entries {
        entries: Listing,
        eof: bool,
    },
    /// STATFS: the transfer size and the block size in bytes, and numbers of blocks.
    Space {
        tsize: u32,
        bsize: u32,
        blocks: u32,
        bfree: u32,
        bavail: u32,
    },
}

impl Clone for Listing {
    ghost is_clone = { λ s t. t ≡ s };

    fn clone(&self) -> Result<Listing, AllocError> {
        Ok(Listing {
            entries: self.entries.clone()?,
        })
    }
}

impl PartialEq for Listing {
    ghost use Rattle.std.specs.Prelude.{nat_eq, bytes_eq};
    ghost use Rattle.std.specs.Cmp.{partial_equiv_from_equiv};
    ghost use Rattle.std.proofs.lemmas.Cmp.{lists_equiv, and_equiv, on_equiv, nat_eq_equiv, nat_list_eq_equiv};
    ghost use Rattle.std.specs.Ordering.{eq_of_both, on};
    ghost use Rattle.std.specs.Cmp.Lexicographic.{pointwise};
    ghost use Rattle.nfs2_types.specs.declared.results.ListEntry.{ListEntry};

    ghost eq = { pointwise (eq_of_both (on (λ e. e.fileid) nat_eq) (eq_of_both (on (λ e. e.name) bytes_eq)
        (on (λ e. e.cookie) nat_eq))) };

    ghost laws = { partial_equiv_from_equiv (lists_equiv (and_equiv
        (on_equiv (λ (e : ListEntry). e.fileid) nat_eq_equiv) (and_equiv
        (on_equiv (λ (e : ListEntry). e.name) nat_list_eq_equiv)
        (on_equiv (λ (e : ListEntry). e.cookie) nat_eq_equiv)))) };

    fn eq(&self, other: &Listing) -> bool {
        self.entries.as_slice() == other.entries.as_slice()
    }
}

impl Eq for Listing {
    ghost use Rattle.std.proofs.lemmas.Cmp.{lists_equiv, and_equiv, on_equiv, nat_eq_equiv, nat_list_eq_equiv};
    ghost use Rattle.nfs2_types.specs.declared.results.ListEntry.{ListEntry};

    ghost laws = { lists_equiv (and_equiv
        (on_equiv (λ (e : ListEntry). e.fileid) nat_eq_equiv) (and_equiv
        (on_equiv (λ (e : ListEntry). e.name) nat_list_eq_equiv)
        (on_equiv (λ (e : ListEntry). e.cookie) nat_eq_equiv))) };
}
