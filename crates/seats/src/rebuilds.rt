//! A replica that is rebuilt over its position of the bench.

ghost use Rattle.std.specs.Prelude.{◌≡◌, ◌<◌, ℕ, List, Some, None, IfOk, OnOk, IsSome, slice_get, vec_len};
ghost use Rattle.abs_model.specs.declared.Entry.{Entry};
ghost use Rattle.abs_model.specs.Array.{changed, empty_array};
ghost use Rattle.abs_model.specs.Valid.{Valid};
ghost use Rattle.cluster_model.specs.Tree as tree;
ghost use Rattle.conf_map.specs.Stands.{AreWithin};
ghost use Rattle.partition_tree.specs.Digests.{IsTreeSize, IsRoot};
ghost use Rattle.state_transfer.specs.Stand.{next_in};
ghost use Rattle.replica.specs.Replicas.{digests_of, begun_at};
ghost use Rattle.recovery.specs.Rebuilt.{Begins, HasFetched, retargeted};
ghost use Rattle.recovery.specs.Ends.{IfInvalid};
ghost use Rattle.seats.specs.Positions.{StandsAt, HasRoomAt, WatchedAt, FinishWatchedAt, ChangesAt};

use nfs2_types::Limits;
use recovery::{FinishErr, Rebuild};
use replica::Replica;
use server_trait::{Bench, FileServer, Srv, WrapErr};
use std::alloc::Global;

/// Reboots the server of a replica that is given up, whatever the replica believed. Its position stands for the array
/// that it stood for. No other position changes.
pub fn reboot_at(
    alloc: Global,
    bench: &mut Bench,
    r: usize,
    limits: &Limits,
) -> Result<Rebuild, WrapErr>
    requires stands { (A : List Entry) × StandsAt ⟦<Srv as FileServer>⟧.state limits.now
        (slice_get bench.old.servers.items r) (slice_get bench.old.tables.items r) A }
    requires within { AreWithin limits.now }
    requires size { IsTreeSize limits.now.n }
    ensures stands { OnOk result ((A : List Entry) → StandsAt ⟦<Srv as FileServer>⟧.state limits.now
        (slice_get bench.old.servers.items r) (slice_get bench.old.tables.items r) A →
        StandsAt ⟦<Srv as FileServer>⟧.state limits.now
        (slice_get bench.new.servers.items r) (slice_get bench.new.tables.items r) A) }
    ensures begins { IfOk result (λ b. (A : List Entry) → StandsAt ⟦<Srv as FileServer>⟧.state limits.now
        (slice_get bench.old.servers.items r) (slice_get bench.old.tables.items r) A → Begins A b) }
    ensures watched { WatchedAt ⟦<Srv as FileServer>⟧.state
        (slice_get bench.old.servers.items r) (slice_get bench.new.servers.items r) result }
    ensures servers { ChangesAt r bench.old.servers.items bench.new.servers.items }
    ensures tables { ChangesAt r bench.old.tables.items bench.new.tables.items }
    ensures downs { bench.new.downs ≡ bench.old.downs }
{
    Rebuild::after_reboot(alloc, &mut bench.servers[r], &mut bench.tables[r])
}

/// Wipes the server of a position whose replica was down, whatever the server held. No other position changes.
pub fn clear_at(
    alloc: Global,
    bench: &mut Bench,
    r: usize,
    limits: &Limits,
) -> Result<Rebuild, WrapErr>
    requires within { AreWithin limits.now }
    requires size { IsTreeSize limits.now.n }
    requires server { r < vec_len bench.old.servers }
    requires table { r < vec_len bench.old.tables }
    requires room { HasRoomAt ⟦<Srv as FileServer>⟧.state limits.now (slice_get bench.old.servers.items r) }
    ensures begins { IfOk result (Begins (empty_array limits.now.n)) }
    ensures stands { OnOk result (StandsAt ⟦<Srv as FileServer>⟧.state limits.now
        (slice_get bench.new.servers.items r) (slice_get bench.new.tables.items r) (empty_array limits.now.n)) }
    ensures watched { WatchedAt ⟦<Srv as FileServer>⟧.state
        (slice_get bench.old.servers.items r) (slice_get bench.new.servers.items r) result }
    ensures servers { ChangesAt r bench.old.servers.items bench.new.servers.items }
    ensures tables { ChangesAt r bench.old.tables.items bench.new.tables.items }
    ensures downs { bench.new.downs ≡ bench.old.downs }
{
    Rebuild::after_wipe(alloc, &mut bench.servers[r], &mut bench.tables[r], limits)
}

/// Puts the entries that were got, once nothing is missing: the replica is live at the place aimed at, and its position
/// stands for the changed array. `Invalid`: they make no valid array, and what was got is forgotten. No other position
/// changes.
pub fn finish_at(
    alloc: Global,
    bench: &mut Bench,
    r: usize,
    rebuild: Rebuild,
    limits: &Limits,
) -> Result<Replica, FinishErr>
    requires stands { (A : List Entry) × StandsAt ⟦<Srv as FileServer>⟧.state limits.now
        (slice_get bench.old.servers.items r) (slice_get bench.old.tables.items r) A }
    requires within { AreWithin limits.now }
    requires room { HasRoomAt ⟦<Srv as FileServer>⟧.state limits.now (slice_get bench.old.servers.items r) }
    requires size { IsTreeSize limits.now.n }
    requires aimed { IsSome rebuild.target }
    requires whole { next_in rebuild.fetch.stand ≡ None }
    ensures stands { OnOk result ((A : List Entry) → StandsAt ⟦<Srv as FileServer>⟧.state limits.now
        (slice_get bench.old.servers.items r) (slice_get bench.old.tables.items r) A →
        StandsAt ⟦<Srv as FileServer>⟧.state limits.now
        (slice_get bench.new.servers.items r) (slice_get bench.new.tables.items r)
        (changed rebuild.fetch.changes A)) }
    ensures live { IfOk result (λ k. (A : List Entry) (place : ℕ) → StandsAt ⟦<Srv as FileServer>⟧.state limits.now
        (slice_get bench.old.servers.items r) (slice_get bench.old.tables.items r) A →
        rebuild.target ≡ Some place → k ≡ begun_at place (digests_of (changed rebuild.fetch.changes A))) }
    ensures root { IfOk result (λ k. (A : List Entry) (got : List (tree.Item × List ℕ)) →
        StandsAt ⟦<Srv as FileServer>⟧.state limits.now
        (slice_get bench.old.servers.items r) (slice_get bench.old.tables.items r) A →
        HasFetched A got rebuild → IsRoot k.tree rebuild.root) }
    ensures invalid { IfInvalid result (λ _. (A : List Entry) → StandsAt ⟦<Srv as FileServer>⟧.state limits.now
        (slice_get bench.old.servers.items r) (slice_get bench.old.tables.items r) A →
        Valid limits.now (changed rebuild.fetch.changes A) → ⊥) }
    ensures back { IfInvalid result (λ b. (place : ℕ) → rebuild.target ≡ Some place →
        b ≡ retargeted place rebuild.root rebuild) }
    ensures unchanged { IfInvalid result (λ _. (A : List Entry) → StandsAt ⟦<Srv as FileServer>⟧.state limits.now
        (slice_get bench.old.servers.items r) (slice_get bench.old.tables.items r) A →
        StandsAt ⟦<Srv as FileServer>⟧.state limits.now
        (slice_get bench.new.servers.items r) (slice_get bench.new.tables.items r) A) }
    ensures watched { FinishWatchedAt ⟦<Srv as FileServer>⟧.state
        (slice_get bench.old.servers.items r) (slice_get bench.new.servers.items r) result }
    ensures servers { ChangesAt r bench.old.servers.items bench.new.servers.items }
    ensures tables { ChangesAt r bench.old.tables.items bench.new.tables.items }
    ensures downs { bench.new.downs ≡ bench.old.downs }
{
    rebuild.finish(alloc, &mut bench.servers[r], &mut bench.tables[r], limits)
}
