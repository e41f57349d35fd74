//! A replica that is given up, whatever its seat has.

ghost use Rattle.std.specs.Prelude.{◌≡◌, ◌<◌, IfOk, OnOk, slice_get, vec_len};
ghost use Rattle.conf_map.specs.Stands.{AreWithin};
ghost use Rattle.partition_tree.specs.Digests.{IsTreeSize};
ghost use Rattle.seats.specs.Positions.{HasRoomAt, WatchedAt, ChangesAt};
ghost use Rattle.seats.specs.Seats.{HasArray, Restarted};

use crate::rebuilds::{clear_at, reboot_at};
use crate::seat::Seat;
use nfs2_types::Limits;
use recovery::Rebuild;
use server_trait::{Bench, FileServer, Srv, WrapErr};
use std::alloc::Global;

/// Gives up what a seat had, and begins to rebuild it: the server of a replica that is not down is rebooted, and its
/// position stands for the array that it stood for; that of one that is down is wiped. No other position changes.
pub fn rebuild_at(
    alloc: Global,
    bench: &mut Bench,
    r: usize,
    seat: &Seat,
    limits: &Limits,
) -> Result<Rebuild, WrapErr>
    requires array { HasArray ⟦<Srv as FileServer>⟧.state limits.now seat.now
        (slice_get bench.old.servers.items r) (slice_get bench.old.tables.items r) }
    requires within { AreWithin limits.now }
    requires size { IsTreeSize limits.now.n }
    requires server { r < vec_len bench.old.servers }
    requires table { r < vec_len bench.old.tables }
    requires room { HasRoomAt ⟦<Srv as FileServer>⟧.state limits.now (slice_get bench.old.servers.items r) }
    ensures restarted { IfOk result (Restarted ⟦<Srv as FileServer>⟧.state limits.now seat.now
        (slice_get bench.old.servers.items r) (slice_get bench.old.tables.items r)
        (slice_get bench.new.servers.items r) (slice_get bench.new.tables.items r)) }
    ensures watched { WatchedAt ⟦<Srv as FileServer>⟧.state
        (slice_get bench.old.servers.items r) (slice_get bench.new.servers.items r) result }
    ensures servers { ChangesAt r bench.old.servers.items bench.new.servers.items }
    ensures tables { ChangesAt r bench.old.tables.items bench.new.tables.items }
    ensures downs { bench.new.downs ≡ bench.old.downs }
{
    match seat {
        Seat::Down => clear_at(alloc, bench, r, limits),
        Seat::Live(_) => reboot_at(alloc, bench, r, limits),
        Seat::Rebuilding(_) => reboot_at(alloc, bench, r, limits),
    }
}
