//! A rebuilding that ends: the entries that were got are put, and the replica is live again.

ghost use Rattle.std.specs.Prelude.{◌≡◌, ℕ, List, Some, None, IfOk, OnOk, IsSome, length};
ghost use Rattle.abs_model.specs.declared.Entry.{Entry};
ghost use Rattle.abs_model.specs.Array.{changed};
ghost use Rattle.abs_model.specs.Valid.{Valid};
ghost use Rattle.cluster_model.specs.Tree as tree;
ghost use Rattle.conf_map.specs.Notice.{Watched};
ghost use Rattle.conf_map.specs.Stands.{StandValid, StandsValid};
ghost use Rattle.inverse_fn.specs.Puts.{CanPutObjs};
ghost use Rattle.partition_tree.specs.Digests.{IsTreeSize, IsRoot};
ghost use Rattle.state_transfer.specs.Stand.{next_in};
ghost use Rattle.recovery.specs.Rebuilt.{HasFetched, retargeted};
ghost use Rattle.replica.specs.Replicas.{digests_of, begun_at};
ghost use Rattle.recovery.specs.Ends.{FinishWatched, IfInvalid};

use crate::failure::FinishErr;
use crate::reading::read_tree;
use crate::rebuild::Rebuild;
use inverse_fn::{PutErr, put_objs};
use nfs2_types::Limits;
use replica::Replica;
use server_trait::{ConfTable, Srv, WrapErr};
use std::alloc::Global;

/// A live replica at a place, over the array that server and table stand for.
fn live_over(
    alloc: Global,
    server: &mut Srv,
    table: &ConfTable,
    place: u32,
) -> Result<Replica, WrapErr>
    requires stands { (A : List Entry) × StandValid (state server.old).tree table.now A }
    requires size { IsTreeSize (length table.now.rows.items) }
    ensures live { IfOk result (λ k. (A : List Entry) → StandValid (state server.old).tree table.now A →
        k ≡ begun_at place (digests_of A)) }
    ensures same { OnOk result ((state server.new).tree ≡ (state server.old).tree) }
    ensures watched { Watched (state server.old) (state server.new) result }
{
    let tree = read_tree(alloc, server, table)?;
    let replica = Replica::begun_at(alloc, place, tree)?;
    Ok(replica)
}

impl Rebuild {
    /// Puts the entries that were got, once nothing is missing: the replica is live again at the place aimed at, whose
    /// checkpoint it holds. `Invalid` comes where they make no valid array; then nothing has changed but that nothing
    /// is got any more. After another error server and table stand for nothing.
    pub fn finish(
        self,
        alloc: Global,
        server: &mut Srv,
        table: &mut ConfTable,
        limits: &Limits,
    ) -> Result<Replica, FinishErr>
        requires can { CanPutObjs limits.now (state server.old) table.old }
        requires size { IsTreeSize limits.now.n }
        requires aimed { IsSome self.target }
        requires whole { next_in self.fetch.stand ≡ None }
        ensures stands { OnOk result ((A : List Entry) → StandsValid limits.now (state server.old).tree table.old A →
            StandsValid limits.now (state server.new).tree table.new (changed self.fetch.changes A)) }
        ensures live { IfOk result (λ k. (A : List Entry) (place : ℕ) →
            StandsValid limits.now (state server.old).tree table.old A → self.target ≡ Some place →
            k ≡ begun_at place (digests_of (changed self.fetch.changes A))) }

        // Whatever digests agree, it has the root that was aimed at.
        ensures root { IfOk result (λ k. (A : List Entry) (got : List (tree.Item × List ℕ)) →
            StandsValid limits.now (state server.old).tree table.old A → HasFetched A got self →
            IsRoot k.tree self.root) }
        ensures invalid { IfInvalid result (λ _. (A : List Entry) →
            StandsValid limits.now (state server.old).tree table.old A →
            Valid limits.now (changed self.fetch.changes A) → ⊥) }
        ensures back { IfInvalid result (λ b. (place : ℕ) → self.target ≡ Some place →
            b ≡ retargeted place self.root self) }
        ensures unchanged { IfInvalid result (λ _.
            ((state server.new).tree ≡ (state server.old).tree) × (table.new ≡ table.old)) }
        ensures watched { FinishWatched (state server.old) (state server.new) result }
    {
        let place = self.target.unwrap();
        let root = self.root;
        let (changes, own) = self.fetcher.changes();
        match put_objs(alloc, server, table, limits, changes) {
            Ok(()) => {}
            Err(PutErr::Invalid) => {
                let back = Rebuild::towards(alloc, own, place, root)?;
                return Err(FinishErr::Invalid(back));
            }
            Err(PutErr::Down) => return Err(FinishErr::Down),
            Err(PutErr::NoMemory) => return Err(FinishErr::NoMemory),
        }
        let replica = live_over(alloc, server, table, place)?;
        Ok(replica)
    }
}
