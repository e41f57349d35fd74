//! Turns of replicas: each runs a request and casts its words.

ghost use Rattle.std.specs.Prelude.{Ok, false, ◌≡◌, ◌<◌, ◌+◌, ◌^◌, suc, ℕ, None, Some, IfOk, OnOk, length, vec_len, slice_index_or};
ghost use Rattle.seats.specs.declared.Seat.TheVariants.{Down as DownSeat};
ghost use Rattle.seats.specs.Positions.{AreLater};
ghost use Rattle.cluster.specs.OverBench.{HaveArrays, HaveRoom};
ghost use Rattle.cluster.specs.Kept.{kept};
ghost use Rattle.cluster.specs.Turned.{Going, RanRounds, IsQuietNow, round_slots, Turned, TurnStays, IsIdle, next_in};

use super::Cluster;
use crate::lists::{push_line, push_point};
use log_format::{IdleCause, Line};
use nfs2_types::NoMemory;
use seats::{Seat, run_at};
use server_trait::{Bench, FaultPoint, FileServer, Srv, WrapErr};
use std::alloc::Global;

impl Cluster {
    /// The place behind which a replica runs its next request, or why it has no turn.
    pub(super) fn next_of(&self, r: u32) -> Result<usize, IdleCause>
        requires { r < vec_len self.now.seats }
        ensures { result ≡ next_in (kept self.now) (slice_index_or self.now.seats.items r DownSeat) }
    {
        let Seat::Live(replica) = &self.seats[r as usize] else {
            return Err(IdleCause::NotLive);
        };
        let place = replica.place;
        if place as usize >= self.requests.len() {
            return Err(IdleCause::AtEnd);
        }
        if u64::from(place) + u64::from(self.limits.k) < u64::from(self.stable) {
            return Err(IdleCause::Behind);
        }
        Ok(place as usize)
    }

    /// The turn of a replica at a stage of a record, or why it has none.
    pub(super) fn turn(
        &mut self,
        alloc: Global,
        bench: &mut Bench,
        met: &mut Vec<FaultPoint>,
        lines: &mut Vec<Line>,
        stage: u64,
        r: u32,
    ) -> Result<Option<IdleCause>, NoMemory>
        requires arrays { HaveArrays ⟦<Srv as FileServer>⟧.state (kept self.old)
            bench.old.servers.items bench.old.tables.items }
        requires room { HaveRoom ⟦<Srv as FileServer>⟧.state self.old.limits bench.old.servers.items }
        requires replica { r < vec_len self.old.seats }
        requires few { self.old.events < 2 ^ 32 }
        ensures turned { OnOk result (Turned ⟦<Srv as FileServer>⟧.state (record { round = stage; replica = r })
            (kept self.old) (kept self.new)
            bench.old.servers.items bench.new.servers.items bench.old.tables.items bench.new.tables.items
            met.old.items met.new.items lines.old.items lines.new.items) }
        ensures stays { OnOk result (TurnStays ⟦<Srv as FileServer>⟧.state (kept self.old) (kept self.new)
            bench.new.servers.items bench.new.tables.items) }
        ensures idle { IfOk result (IsIdle ⟦<Srv as FileServer>⟧.state (kept self.old) (kept self.new)
            bench.old.servers.items bench.new.servers.items bench.old.tables.items bench.new.tables.items
            met.old.items met.new.items lines.old.items lines.new.items r) }
        ensures servers { AreLater ⟦<Srv as FileServer>⟧.state (vec_len self.old.seats)
            bench.old.servers.items bench.new.servers.items }
        ensures downs { bench.new.downs ≡ bench.old.downs }
    {
        match self.next_of(r) {
            Err(cause) => Ok(Some(cause)),
            Ok(next) => {
                self.run_turn(alloc, bench, met, lines, stage, r, next)?;
                Ok(None)
            }
        }
    }

    /// The turn of a replica that has one, at a stage of a record: it runs its next request and casts its words.
    fn run_turn(
        &mut self,
        alloc: Global,
        bench: &mut Bench,
        met: &mut Vec<FaultPoint>,
        lines: &mut Vec<Line>,
        stage: u64,
        r: u32,
        next: usize,
    ) -> Result<(), NoMemory>
        requires arrays { HaveArrays ⟦<Srv as FileServer>⟧.state (kept self.old)
            bench.old.servers.items bench.old.tables.items }
        requires room { HaveRoom ⟦<Srv as FileServer>⟧.state self.old.limits bench.old.servers.items }
        requires replica { r < vec_len self.old.seats }
        requires few { self.old.events < 2 ^ 32 }
        requires next { next_in (kept self.old) (slice_index_or self.old.seats.items r DownSeat) ≡ Ok next }
        ensures turned { OnOk result (Turned ⟦<Srv as FileServer>⟧.state (record { round = stage; replica = r })
            (kept self.old) (kept self.new)
            bench.old.servers.items bench.new.servers.items bench.old.tables.items bench.new.tables.items
            met.old.items met.new.items lines.old.items lines.new.items) }
        ensures stays { OnOk result (TurnStays ⟦<Srv as FileServer>⟧.state (kept self.old) (kept self.new)
            bench.new.servers.items bench.new.tables.items) }
        ensures servers { AreLater ⟦<Srv as FileServer>⟧.state (vec_len self.old.seats)
            bench.old.servers.items bench.new.servers.items }
        ensures downs { bench.new.downs ≡ bench.old.downs }
    {
        let Some(mut replica) = self.seats[r as usize].take_live() else {
            return Ok(());
        };
        let ran = run_at(
            alloc,
            bench,
            r as usize,
            &mut replica,
            &self.limits,
            &self.requests[next],
        );
        match ran {
            Ok(cast) => {
                self.seats[r as usize] = Seat::Live(replica);
                self.vote(alloc, lines, r, cast)?;
            }
            Err(WrapErr::Down) => {
                // Its seat is down.
                push_line(lines, Line::Down { r })?;
                push_point(
                    met,
                    FaultPoint {
                        event: self.events + 1,
                        stage,
                        replica: r,
                    },
                )?;
            }
            Err(WrapErr::NoMemory) => return Err(NoMemory),
        }
        Ok(())
    }

    /// A round: the turn of each replica, in order. Whether one of them had a turn.
    fn round(
        &mut self,
        alloc: Global,
        bench: &mut Bench,
        met: &mut Vec<FaultPoint>,
        lines: &mut Vec<Line>,
        round: u64,
    ) -> Result<bool, NoMemory>
        requires arrays { HaveArrays ⟦<Srv as FileServer>⟧.state (kept self.old)
            bench.old.servers.items bench.old.tables.items }
        requires room { HaveRoom ⟦<Srv as FileServer>⟧.state self.old.limits bench.old.servers.items }
        requires few { self.old.events < 2 ^ 32 }
        ensures going { OnOk result (Going ⟦<Srv as FileServer>⟧.state (round_slots round (vec_len self.old.seats))
            (kept self.old) (kept self.new)
            bench.old.servers.items bench.new.servers.items bench.old.tables.items bench.new.tables.items
            met.old.items met.new.items lines.old.items lines.new.items) }
        ensures quiet { result ≡ Ok false → IsQuietNow ⟦<Srv as FileServer>⟧.state (kept self.new)
            bench.new.servers.items bench.new.tables.items }
        ensures servers { AreLater ⟦<Srv as FileServer>⟧.state (vec_len self.old.seats)
            bench.old.servers.items bench.new.servers.items }
        ensures downs { bench.new.downs ≡ bench.old.downs }
    {
        let mut ran = false;
        for r in 0..self.seats.len() {
            match self.turn(alloc, bench, met, lines, round, r as u32)? {
                None => ran = true,
                Some(_) => {}
            }
        }
        Ok(ran)
    }

    /// As many rounds as there are requests, up to one in which no replica had a turn: what follows would be the same.
    pub(super) fn rounds(
        &mut self,
        alloc: Global,
        bench: &mut Bench,
        met: &mut Vec<FaultPoint>,
        lines: &mut Vec<Line>,
    ) -> Result<(), NoMemory>
        requires arrays { HaveArrays ⟦<Srv as FileServer>⟧.state (kept self.old)
            bench.old.servers.items bench.old.tables.items }
        requires room { HaveRoom ⟦<Srv as FileServer>⟧.state self.old.limits bench.old.servers.items }
        requires few { self.old.events < 2 ^ 32 }
        ensures ran { OnOk result (RanRounds ⟦<Srv as FileServer>⟧.state (kept self.old) (kept self.new)
            bench.old.servers.items bench.new.servers.items bench.old.tables.items bench.new.tables.items
            met.old.items met.new.items lines.old.items lines.new.items) }
        ensures servers { AreLater ⟦<Srv as FileServer>⟧.state (vec_len self.old.seats)
            bench.old.servers.items bench.new.servers.items }
        ensures downs { bench.new.downs ≡ bench.old.downs }
    {
        for done in 0..self.requests.len() {
            if !self.round(alloc, bench, met, lines, done as u64 + 1)? {
                return Ok(());
            }
        }
        Ok(())
    }
}
