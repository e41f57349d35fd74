//! A replica that is being rebuilt.

ghost use Rattle.std.specs.Prelude.{◌≡◌, ◌+◌, ◌^◌, ◌<◌, ℕ, List, Some, Ok, IfOk, OnErr, IsSome, length};
ghost use Rattle.abs_model.specs.declared.Entry.{Entry};
ghost use Rattle.cluster_model.specs.Tree as tree;
ghost use Rattle.state_transfer.specs.Stand.{next_in};
ghost use Rattle.state_transfer.specs.Fetch.{IsAnswer, begun};
ghost use Rattle.state_transfer.specs.declared.item.Taken.TheVariants.{Good};
ghost use Rattle.recovery.specs.Rebuilt.{HasFetched, Begins, aimed, with_item};
ghost use Rattle.replica.specs.Replicas.{digests_of};

use nfs2_types::{Digest, NoMemory};
use partition_tree::Tree;
use state_transfer::{Counts, Fetcher, Item, Taken};
use std::alloc::Global;
use std::marker::Model;

/// A replica that is being rebuilt: the stable place that it is fetched towards, once one is set, and what it got so
/// far. Its array is what its server and table stand for; it keeps the digests of that, and no text of a node.
#[derive(Drop)]
pub struct Rebuild {
    pub(crate) target: Option<u32>,
    pub(crate) root: Digest,
    pub(crate) fetcher: Fetcher,
}

impl Model for Rebuild {
    ghost use Rattle.std.specs.Prelude.{◌≡◌, ◌^◌, length};
    ghost use Rattle.recovery.specs.Rebuilt.{Rebuilt};

    ghost Value = { Rebuilt };

    ghost view = { λ b. record { target = b.target; root = b.root; fetch = b.fetcher } };

    ghost invariant = { λ b. length b.fetcher.own ≡ 16 ^ b.fetcher.levels };
}

impl Rebuild {
    /// Begins over an array with these digests, with no place set.
    pub(crate) fn begin(alloc: Global, own: Tree) -> Result<Rebuild, NoMemory>
        ensures { IfOk result (λ b. (A : List Entry) → own ≡ digests_of A → Begins A b) }
    {
        let root = own.root();
        let fetcher = Fetcher::new(alloc, own, 0, root)?;
        Ok(Rebuild {
            target: None,
            root,
            fetcher,
        })
    }

    /// Begins towards the root of a place, over an array with these digests.
    pub(crate) fn towards(
        alloc: Global,
        own: Tree,
        place: u32,
        root: Digest,
    ) -> Result<Rebuild, NoMemory>
        ensures begun { IfOk result (λ b. b ≡
            record { target = Some place; root = root; fetch = begun own place b.fetch.levels root }) }
        ensures size { IfOk result (λ b. length own ≡ 16 ^ b.fetch.levels) }
    {
        let fetcher = Fetcher::new(alloc, own, place, root)?;
        Ok(Rebuild {
            target: Some(place),
            root,
            fetcher,
        })
    }

    /// Sets a place with its root as the target, and forgets what was got; where that place is the target already,
    /// nothing changes. It takes no memory.
    pub fn aim(&mut self, place: u32, root: Digest)
        ensures { self.new ≡ aimed place root self.old }
    {
        if self.target == Some(place) {
            return;
        }
        self.target = Some(place);
        self.root = root;
        self.fetcher.retarget(place, root);
    }

    /// The item that is to be got next, or `None` where nothing is missing. It takes no memory.
    pub fn next_item(&self) -> Option<Item>
        ensures { result ≡ next_in self.now.fetch.stand }
    {
        self.fetcher.next_item()
    }

    /// Takes the bytes for the item that is next, exactly where they have the digest that is expected there and are the
    /// text of that item. After want of memory it is as it was.
    pub fn accept(&mut self, bytes: &[u8]) -> Result<Taken, NoMemory>
        requires { IsSome (next_in self.old.fetch.stand) }
        ensures taken { IfOk result (IsAnswer bytes.now self.old.fetch self.new.fetch) }
        ensures got { result ≡ Ok Good → (A : List Entry) (got : List (tree.Item × List ℕ)) →
            HasFetched A got self.old →
            HasFetched A (with_item got (next_in self.old.fetch.stand) bytes.now) self.new }
        ensures target { (self.new.target ≡ self.old.target) × (self.new.root ≡ self.old.root) }
        ensures err { OnErr result (self.new ≡ self.old) }
    {
        self.fetcher.accept(bytes)
    }

    /// How many nodes and entries were got towards the target: so few that the two can be added. It takes no memory.
    pub fn counts(&self) -> Counts
        ensures nodes { result.nodes ≡ self.now.fetch.nodes }
        ensures objects { result.objects ≡ length self.now.fetch.changes }
        ensures few { result.nodes + result.objects < 2 ^ 32 }
    {
        self.fetcher.counts()
    }
}
