//! Records that harm a replica.

ghost use Rattle.std.specs.Prelude.{◌≡◌, ◌<◌, ◌^◌, List, [], IfOk, OnOk, Ok, None, true, vec_len, slice_index_or};
ghost use Rattle.server_trait.specs.declared.FaultPoint.{FaultPoint};
ghost use Rattle.nfs2_types.specs.Times.{is_time};
ghost use Rattle.log_format.specs.declared.Event.TheVariants.{Rogue, Skip, Wipe};
ghost use Rattle.seats.specs.declared.Seat.TheVariants.{Down as DownSeat};
ghost use Rattle.seats.specs.Positions.{AreLater};
ghost use Rattle.cluster.specs.OverBench.{HaveArrays, HaveRoom};
ghost use Rattle.cluster.specs.Kept.{kept};
ghost use Rattle.cluster.specs.Turned.{TurnedBy, TurnStays, rogue_by, skip_by, first_slot, next_in};
ghost use Rattle.cluster.specs.Went.{Went, lie_event};

use super::Cluster;
use crate::lists::{push_fall, push_line};
use cluster_model::Request;
use log_format::{IdleCause, Line};
use nfs2_types::NoMemory;
use replica::Lie;
use seats::{Seat, rogue_at, skip_at, wipe_at};
use server_trait::{Bench, FaultPoint, FileServer, Srv, WrapErr};
use std::alloc::Global;

impl Cluster {
    /// A replica runs this request in place of its next one, or a line says why it doesn't.
    pub(super) fn rogue(
        &mut self,
        alloc: Global,
        bench: &mut Bench,
        met: &mut Vec<FaultPoint>,
        lines: &mut Vec<Line>,
        r: u32,
        request: &Request,
    ) -> Result<(), NoMemory>
        requires arrays { HaveArrays ⟦<Srv as FileServer>⟧.state (kept self.old)
            bench.old.servers.items bench.old.tables.items }
        requires room { HaveRoom ⟦<Srv as FileServer>⟧.state self.old.limits bench.old.servers.items }
        requires replica { r < vec_len self.old.seats }
        requires few { self.old.events < 2 ^ 32 }
        requires time { is_time request.now.time ≡ true }
        requires none { (met.old.items ≡ []) × (lines.old.items ≡ []) }
        ensures went { OnOk result (Went ⟦<Srv as FileServer>⟧.state (Rogue r request.now.time request.now.bytes)
            (kept self.old) (kept self.new)
            bench.old.servers.items bench.new.servers.items bench.old.tables.items bench.new.tables.items
            met.new.items lines.new.items) }
        ensures stays { OnOk result (TurnStays ⟦<Srv as FileServer>⟧.state (kept self.old) (kept self.new)
            bench.new.servers.items bench.new.tables.items) }
        ensures servers { AreLater ⟦<Srv as FileServer>⟧.state (vec_len self.old.seats)
            bench.old.servers.items bench.new.servers.items }
        ensures downs { bench.new.downs ≡ bench.old.downs }
    {
        match self.next_of(r) {
            Err(cause) => push_line(lines, Line::Idle { r, cause })?,
            Ok(next) => self.rogue_turn(alloc, bench, met, lines, r, next, request)?,
        }
        Ok(())
    }

    /// The turn of a replica that has one, in which it runs this request.
    fn rogue_turn(
        &mut self,
        alloc: Global,
        bench: &mut Bench,
        met: &mut Vec<FaultPoint>,
        lines: &mut Vec<Line>,
        r: u32,
        next: usize,
        request: &Request,
    ) -> Result<(), NoMemory>
        requires arrays { HaveArrays ⟦<Srv as FileServer>⟧.state (kept self.old)
            bench.old.servers.items bench.old.tables.items }
        requires room { HaveRoom ⟦<Srv as FileServer>⟧.state self.old.limits bench.old.servers.items }
        requires replica { r < vec_len self.old.seats }
        requires few { self.old.events < 2 ^ 32 }
        requires time { is_time request.now.time ≡ true }
        requires next { next_in (kept self.old) (slice_index_or self.old.seats.items r DownSeat) ≡ Ok next }
        ensures turned { OnOk result (TurnedBy ⟦<Srv as FileServer>⟧.state
            (rogue_by (kept self.old) r request.now) (first_slot r) (kept self.old) (kept self.new)
            bench.old.servers.items bench.new.servers.items bench.old.tables.items bench.new.tables.items
            met.old.items met.new.items lines.old.items lines.new.items) }
        ensures stays { OnOk result (TurnStays ⟦<Srv as FileServer>⟧.state (kept self.old) (kept self.new)
            bench.new.servers.items bench.new.tables.items) }
        ensures servers { AreLater ⟦<Srv as FileServer>⟧.state (vec_len self.old.seats)
            bench.old.servers.items bench.new.servers.items }
        ensures downs { bench.new.downs ≡ bench.old.downs }
    {
        let Some(mut replica) = self.seats[r as usize].take_live() else {
            return Ok(());
        };
        let ran = rogue_at(
            alloc,
            bench,
            r as usize,
            &mut replica,
            &self.limits,
            request,
        );
        match ran {
            Ok(cast) => {
                self.seats[r as usize] = Seat::Live(replica);
                self.vote(alloc, lines, r, cast)?;
            }
            // Its seat is down.
            Err(WrapErr::Down) => push_fall(lines, met, self.events + 1, r)?,
            Err(WrapErr::NoMemory) => return Err(NoMemory),
        }
        Ok(())
    }

    /// A replica passes its next place with no request, or a line says why it doesn't.
    pub(super) fn skip(
        &mut self,
        alloc: Global,
        bench: &mut Bench,
        met: &mut Vec<FaultPoint>,
        lines: &mut Vec<Line>,
        r: u32,
    ) -> Result<(), NoMemory>
        requires arrays { HaveArrays ⟦<Srv as FileServer>⟧.state (kept self.old)
            bench.old.servers.items bench.old.tables.items }
        requires room { HaveRoom ⟦<Srv as FileServer>⟧.state self.old.limits bench.old.servers.items }
        requires replica { r < vec_len self.old.seats }
        requires few { self.old.events < 2 ^ 32 }
        requires none { (met.old.items ≡ []) × (lines.old.items ≡ []) }
        ensures went { OnOk result (Went ⟦<Srv as FileServer>⟧.state (Skip r) (kept self.old) (kept self.new)
            bench.old.servers.items bench.new.servers.items bench.old.tables.items bench.new.tables.items
            met.new.items lines.new.items) }
        ensures stays { OnOk result (TurnStays ⟦<Srv as FileServer>⟧.state (kept self.old) (kept self.new)
            bench.new.servers.items bench.new.tables.items) }
        ensures servers { AreLater ⟦<Srv as FileServer>⟧.state (vec_len self.old.seats)
            bench.old.servers.items bench.new.servers.items }
        ensures downs { bench.new.downs ≡ bench.old.downs }
    {
        match self.next_of(r) {
            Err(cause) => push_line(lines, Line::Idle { r, cause })?,
            Ok(next) => self.skip_turn(alloc, bench, met, lines, r, next)?,
        }
        Ok(())
    }

    /// The turn of a replica that has one, in which it runs no request: it casts no reply word.
    fn skip_turn(
        &mut self,
        alloc: Global,
        bench: &mut Bench,
        met: &mut Vec<FaultPoint>,
        lines: &mut Vec<Line>,
        r: u32,
        next: usize,
    ) -> Result<(), NoMemory>
        requires arrays { HaveArrays ⟦<Srv as FileServer>⟧.state (kept self.old)
            bench.old.servers.items bench.old.tables.items }
        requires room { HaveRoom ⟦<Srv as FileServer>⟧.state self.old.limits bench.old.servers.items }
        requires replica { r < vec_len self.old.seats }
        requires few { self.old.events < 2 ^ 32 }
        requires next { next_in (kept self.old) (slice_index_or self.old.seats.items r DownSeat) ≡ Ok next }
        ensures turned { OnOk result (TurnedBy ⟦<Srv as FileServer>⟧.state (skip_by (kept self.old) r) (first_slot r)
            (kept self.old) (kept self.new)
            bench.old.servers.items bench.new.servers.items bench.old.tables.items bench.new.tables.items
            met.old.items met.new.items lines.old.items lines.new.items) }
        ensures stays { OnOk result (TurnStays ⟦<Srv as FileServer>⟧.state (kept self.old) (kept self.new)
            bench.new.servers.items bench.new.tables.items) }
        ensures servers { AreLater ⟦<Srv as FileServer>⟧.state (vec_len self.old.seats)
            bench.old.servers.items bench.new.servers.items }
        ensures downs { bench.new.downs ≡ bench.old.downs }
    {
        let Some(mut replica) = self.seats[r as usize].take_live() else {
            return Ok(());
        };
        match skip_at(alloc, bench, r as usize, &mut replica, &self.limits) {
            Ok(root) => {
                let place = replica.place;
                self.seats[r as usize] = Seat::Live(replica);
                self.vote_root(alloc, lines, r, place, root)?;
            }
            // Its seat is down.
            Err(WrapErr::Down) => push_fall(lines, met, self.events + 1, r)?,
            Err(WrapErr::NoMemory) => return Err(NoMemory),
        }
        Ok(())
    }

    /// Tells a replica to lie; where it isn't live, a line says so.
    pub(super) fn lie(
        &mut self,
        bench: &Bench,
        lines: &mut Vec<Line>,
        r: u32,
        lie: Lie,
    ) -> Result<(), NoMemory>
        requires arrays { HaveArrays ⟦<Srv as FileServer>⟧.state (kept self.old)
            bench.now.servers.items bench.now.tables.items }
        requires replica { r < vec_len self.old.seats }
        requires none { lines.old.items ≡ [] }
        ensures went { (met : List FaultPoint) → met ≡ [] → OnOk result
            (Went ⟦<Srv as FileServer>⟧.state (lie_event r lie) (kept self.old) (kept self.new)
            bench.now.servers.items bench.now.servers.items bench.now.tables.items bench.now.tables.items
            met lines.new.items) }
        ensures arrays { OnOk result (HaveArrays ⟦<Srv as FileServer>⟧.state (kept self.new)
            bench.now.servers.items bench.now.tables.items) }
    {
        let Some(mut replica) = self.seats[r as usize].take_live() else {
            let cause = IdleCause::NotLive;
            push_line(lines, Line::Idle { r, cause })?;
            return Ok(());
        };
        replica.lie(lie)?;
        self.seats[r as usize] = Seat::Live(replica);
        Ok(())
    }

    /// Wipes the server of a replica; where it isn't live, a line says so.
    pub(super) fn wipe(
        &mut self,
        alloc: Global,
        bench: &mut Bench,
        met: &mut Vec<FaultPoint>,
        lines: &mut Vec<Line>,
        r: u32,
    ) -> Result<(), NoMemory>
        requires arrays { HaveArrays ⟦<Srv as FileServer>⟧.state (kept self.old)
            bench.old.servers.items bench.old.tables.items }
        requires room { HaveRoom ⟦<Srv as FileServer>⟧.state self.old.limits bench.old.servers.items }
        requires replica { r < vec_len self.old.seats }
        requires few { self.old.events < 2 ^ 32 }
        requires none { (met.old.items ≡ []) × (lines.old.items ≡ []) }
        ensures went { OnOk result (Went ⟦<Srv as FileServer>⟧.state (Wipe r) (kept self.old) (kept self.new)
            bench.old.servers.items bench.new.servers.items bench.old.tables.items bench.new.tables.items
            met.new.items lines.new.items) }
        ensures stays { OnOk result (TurnStays ⟦<Srv as FileServer>⟧.state (kept self.old) (kept self.new)
            bench.new.servers.items bench.new.tables.items) }
        ensures servers { AreLater ⟦<Srv as FileServer>⟧.state (vec_len self.old.seats)
            bench.old.servers.items bench.new.servers.items }
        ensures downs { bench.new.downs ≡ bench.old.downs }
    {
        let Some(mut replica) = self.seats[r as usize].take_live() else {
            let cause = IdleCause::NotLive;
            push_line(lines, Line::Idle { r, cause })?;
            return Ok(());
        };
        match wipe_at(alloc, bench, r as usize, &mut replica, &self.limits) {
            Ok(()) => self.seats[r as usize] = Seat::Live(replica),
            // Its seat is down.
            Err(WrapErr::Down) => push_fall(lines, met, self.events + 1, r)?,
            Err(WrapErr::NoMemory) => return Err(NoMemory),
        }
        Ok(())
    }
}
