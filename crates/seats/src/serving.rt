//! Items of a checkpoint, given by a live replica over its position of the bench.

ghost use Rattle.std.specs.Prelude.{◌≡◌, List, IfOk, OnOk, slice_get};
ghost use Rattle.abs_model.specs.declared.Entry.{Entry};
ghost use Rattle.cluster_model.specs.State.{lookup_item};
ghost use Rattle.cluster_model.specs.Tree as tree;
ghost use Rattle.conf_map.specs.Stands.{AreWithin};
ghost use Rattle.replica.specs.Replicas.{IsOver};
ghost use Rattle.seats.specs.Positions.{StandsAt, WatchedAt, ChangesAt};
ghost use Rattle.seats.specs.Given.{IsGivenItem};

use nfs2_types::{Blob, Limits, NoMemory};
use recovery::serve_item;
use replica::Replica;
use server_trait::{Bench, FileServer, Srv, WrapErr};
use state_transfer::Item;
use std::alloc::Global;

/// A copy of the newest lie of a replica about an item.
fn lie_about(replica: &Replica, item: Item) -> Result<Option<Blob>, NoMemory>
    ensures { IfOk result (λ lie. lie ≡ lookup_item (tree.item item.level item.number) replica.now.lies.items) }
{
    match replica.lies.item_for(item.level, item.number) {
        Some(lie) => Ok(Some(lie.clone()?)),
        None => Ok(None),
    }
}

/// What a live replica gives for an item at a place: its newest lie about the item, or else what it holds. It changes
/// nothing. The server is asked only where there is no lie.
pub fn serve_at(
    alloc: Global,
    bench: &mut Bench,
    r: usize,
    replica: &mut Replica,
    limits: &Limits,
    place: u32,
    item: Item,
) -> Result<Option<Blob>, WrapErr>
    requires stands { (A : List Entry) × StandsAt ⟦<Srv as FileServer>⟧.state limits.now
        (slice_get bench.old.servers.items r) (slice_get bench.old.tables.items r) A }
    requires over { IsOver limits.now.n replica.old }
    requires within { AreWithin limits.now }
    ensures given { IfOk result (λ text. (A : List Entry) → StandsAt ⟦<Srv as FileServer>⟧.state limits.now
        (slice_get bench.old.servers.items r) (slice_get bench.old.tables.items r) A →
        IsGivenItem place item.level item.number A replica.old text) }
    ensures same { replica.new ≡ replica.old }
    ensures stands { OnOk result ((A : List Entry) → StandsAt ⟦<Srv as FileServer>⟧.state limits.now
        (slice_get bench.old.servers.items r) (slice_get bench.old.tables.items r) A →
        StandsAt ⟦<Srv as FileServer>⟧.state limits.now
        (slice_get bench.new.servers.items r) (slice_get bench.new.tables.items r) A) }
    ensures watched { WatchedAt ⟦<Srv as FileServer>⟧.state
        (slice_get bench.old.servers.items r) (slice_get bench.new.servers.items r) result }
    ensures servers { ChangesAt r bench.old.servers.items bench.new.servers.items }
    ensures tables { bench.new.tables ≡ bench.old.tables }
    ensures downs { bench.new.downs ≡ bench.old.downs }
{
    if let Some(lie) = lie_about(replica, item)? {
        return Ok(Some(lie));
    }
    serve_item(
        alloc,
        &mut replica.store,
        &mut bench.servers[r],
        &bench.tables[r],
        place,
        item,
    )
}
