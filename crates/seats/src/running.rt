//! A replica that begins over its position of the bench, and runs.

ghost use Rattle.std.specs.Prelude.{◌≡◌, ◌<◌, ◌+◌, ◌^◌, true, List, IfOk, OnOk, slice_get, vec_len};
ghost use Rattle.nfs2_types.specs.Times.{is_time};
ghost use Rattle.abs_model.specs.declared.Entry.{Entry};
ghost use Rattle.abs_model.specs.Array.{empty_array};
ghost use Rattle.conf_map.specs.Stands.{AreWithin};
ghost use Rattle.partition_tree.specs.Digests.{IsTreeSize};
ghost use Rattle.replica.specs.Replicas.{IsOver, begun};
ghost use Rattle.seats.specs.Positions.{StandsAt, HasRoomAt, WatchedAt, ChangesAt, PassedAt};

use cluster_model::Request;
use nfs2_types::Limits;
use replica::{Cast, Replica};
use server_trait::{Bench, FileServer, Srv, WrapErr};
use std::alloc::Global;

/// Begins a replica over a position of the bench, whatever its server held. No other position changes.
pub fn fresh_at(
    alloc: Global,
    bench: &mut Bench,
    r: usize,
    limits: &Limits,
) -> Result<Replica, WrapErr>
    requires within { AreWithin limits.now }
    requires size { IsTreeSize limits.now.n }
    requires server { r < vec_len bench.old.servers }
    requires table { r < vec_len bench.old.tables }
    requires room { HasRoomAt ⟦<Srv as FileServer>⟧.state limits.now (slice_get bench.old.servers.items r) }
    ensures begins { IfOk result (λ k. k ≡ begun limits.now.n) }
    ensures stands { OnOk result (StandsAt ⟦<Srv as FileServer>⟧.state limits.now
        (slice_get bench.new.servers.items r) (slice_get bench.new.tables.items r) (empty_array limits.now.n)) }
    ensures watched { WatchedAt ⟦<Srv as FileServer>⟧.state
        (slice_get bench.old.servers.items r) (slice_get bench.new.servers.items r) result }
    ensures servers { ChangesAt r bench.old.servers.items bench.new.servers.items }
    ensures tables { ChangesAt r bench.old.tables.items bench.new.tables.items }
    ensures downs { bench.new.downs ≡ bench.old.downs }
{
    Replica::fresh(alloc, &mut bench.servers[r], &mut bench.tables[r], limits)
}

/// Runs the next request of a replica over its position of the bench. No other position changes.
pub fn run_at(
    alloc: Global,
    bench: &mut Bench,
    r: usize,
    replica: &mut Replica,
    limits: &Limits,
    request: &Request,
) -> Result<Cast, WrapErr>
    requires stands { (A : List Entry) × StandsAt ⟦<Srv as FileServer>⟧.state limits.now
        (slice_get bench.old.servers.items r) (slice_get bench.old.tables.items r) A }
    requires room { HasRoomAt ⟦<Srv as FileServer>⟧.state limits.now (slice_get bench.old.servers.items r) }
    requires over { IsOver limits.now.n replica.old }
    requires within { AreWithin limits.now }
    requires time { is_time request.now.time ≡ true }
    requires place { replica.old.place + 1 < 2 ^ 32 }
    requires interval { 0 < limits.now.k }
    ensures passed { IfOk result (λ cast. PassedAt ⟦<Srv as FileServer>⟧.state limits.now request.now
        (slice_get bench.old.servers.items r) (slice_get bench.old.tables.items r)
        (slice_get bench.new.servers.items r) (slice_get bench.new.tables.items r) replica.old replica.new cast) }
    ensures over { OnOk result (IsOver limits.now.n replica.new) }
    ensures watched { WatchedAt ⟦<Srv as FileServer>⟧.state
        (slice_get bench.old.servers.items r) (slice_get bench.new.servers.items r) result }
    ensures servers { ChangesAt r bench.old.servers.items bench.new.servers.items }
    ensures tables { ChangesAt r bench.old.tables.items bench.new.tables.items }
    ensures downs { bench.new.downs ≡ bench.old.downs }
{
    replica.run_next(
        alloc,
        &mut bench.servers[r],
        &mut bench.tables[r],
        limits,
        request.time,
        request.bytes.as_slice(),
    )
}
