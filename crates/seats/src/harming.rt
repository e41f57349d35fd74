//! What harms a replica over its position of the bench.

ghost use Rattle.std.specs.Prelude.{◌≡◌, ◌<◌, ◌+◌, ◌^◌, true, List, IfOk, OnOk, slice_get, vec_len};
ghost use Rattle.nfs2_types.specs.Times.{is_time};
ghost use Rattle.abs_model.specs.declared.Entry.{Entry};
ghost use Rattle.abs_model.specs.Array.{empty_array};
ghost use Rattle.conf_map.specs.Stands.{AreWithin};
ghost use Rattle.replica.specs.Replicas.{IsOver, harm};
ghost use Rattle.seats.specs.Positions.{StandsAt, HasRoomAt, WatchedAt, ChangesAt, PassedAt, SkippedAt};

use cluster_model::Request;
use nfs2_types::{Digest, Limits};
use replica::{Cast, Replica};
use server_trait::{Bench, FileServer, Srv, WrapErr};
use std::alloc::Global;

/// Runs this request in place of the next one of a replica, which may be wrong from then on. No other position changes.
pub fn rogue_at(
    alloc: Global,
    bench: &mut Bench,
    r: usize,
    replica: &mut Replica,
    limits: &Limits,
    request: &Request,
) -> Result<Cast, WrapErr>
    requires stands { (A : List Entry) × StandsAt ⟦<Srv as FileServer>⟧.state limits.now
        (slice_get bench.old.servers.items r) (slice_get bench.old.tables.items r) A }
    requires room { HasRoomAt ⟦<Srv as FileServer>⟧.state limits.now (slice_get bench.old.servers.items r) }
    requires over { IsOver limits.now.n replica.old }
    requires within { AreWithin limits.now }
    requires time { is_time request.now.time ≡ true }
    requires place { replica.old.place + 1 < 2 ^ 32 }
    requires interval { 0 < limits.now.k }
    ensures passed { IfOk result (λ cast. PassedAt ⟦<Srv as FileServer>⟧.state limits.now request.now
        (slice_get bench.old.servers.items r) (slice_get bench.old.tables.items r)
        (slice_get bench.new.servers.items r) (slice_get bench.new.tables.items r)
        (harm replica.old) replica.new cast) }
    ensures over { OnOk result (IsOver limits.now.n replica.new) }
    ensures watched { WatchedAt ⟦<Srv as FileServer>⟧.state
        (slice_get bench.old.servers.items r) (slice_get bench.new.servers.items r) result }
    ensures servers { ChangesAt r bench.old.servers.items bench.new.servers.items }
    ensures tables { ChangesAt r bench.old.tables.items bench.new.tables.items }
    ensures downs { bench.new.downs ≡ bench.old.downs }
{
    replica.rogue(
        alloc,
        &mut bench.servers[r],
        &mut bench.tables[r],
        limits,
        request.time,
        request.bytes.as_slice(),
    )
}

/// Lets a replica pass its next place with no request. No other position changes.
pub fn skip_at(
    alloc: Global,
    bench: &mut Bench,
    r: usize,
    replica: &mut Replica,
    limits: &Limits,
) -> Result<Option<Digest>, WrapErr>
    requires stands { (A : List Entry) × StandsAt ⟦<Srv as FileServer>⟧.state limits.now
        (slice_get bench.old.servers.items r) (slice_get bench.old.tables.items r) A }
    requires over { IsOver limits.now.n replica.old }
    requires within { AreWithin limits.now }
    requires place { replica.old.place + 1 < 2 ^ 32 }
    requires interval { 0 < limits.now.k }
    ensures skipped { IfOk result (λ root. SkippedAt ⟦<Srv as FileServer>⟧.state limits.now
        (slice_get bench.old.servers.items r) (slice_get bench.old.tables.items r)
        (slice_get bench.new.servers.items r) (slice_get bench.new.tables.items r) replica.old replica.new root) }
    ensures over { OnOk result (IsOver limits.now.n replica.new) }
    ensures watched { WatchedAt ⟦<Srv as FileServer>⟧.state
        (slice_get bench.old.servers.items r) (slice_get bench.new.servers.items r) result }
    ensures servers { ChangesAt r bench.old.servers.items bench.new.servers.items }
    ensures tables { ChangesAt r bench.old.tables.items bench.new.tables.items }
    ensures downs { bench.new.downs ≡ bench.old.downs }
{
    replica.skip(alloc, &mut bench.servers[r], &bench.tables[r], limits)
}

/// Wipes the server of a replica, which may be wrong from then on. No other position changes.
pub fn wipe_at(
    alloc: Global,
    bench: &mut Bench,
    r: usize,
    replica: &mut Replica,
    limits: &Limits,
) -> Result<(), WrapErr>
    requires within { AreWithin limits.now }
    requires server { r < vec_len bench.old.servers }
    requires table { r < vec_len bench.old.tables }
    requires room { HasRoomAt ⟦<Srv as FileServer>⟧.state limits.now (slice_get bench.old.servers.items r) }
    ensures harmed { OnOk result (replica.new ≡ harm replica.old) }
    ensures stands { OnOk result (StandsAt ⟦<Srv as FileServer>⟧.state limits.now
        (slice_get bench.new.servers.items r) (slice_get bench.new.tables.items r) (empty_array limits.now.n)) }
    ensures watched { WatchedAt ⟦<Srv as FileServer>⟧.state
        (slice_get bench.old.servers.items r) (slice_get bench.new.servers.items r) result }
    ensures servers { ChangesAt r bench.old.servers.items bench.new.servers.items }
    ensures tables { ChangesAt r bench.old.tables.items bench.new.tables.items }
    ensures downs { bench.new.downs ≡ bench.old.downs }
{
    replica.wipe(alloc, &mut bench.servers[r], &mut bench.tables[r], limits)
}
