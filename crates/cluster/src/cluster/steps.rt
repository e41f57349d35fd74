//! The step of each kind of record.

ghost use Rattle.std.specs.Prelude.{◌≡◌, ◌<◌, ◌+◌, ◌*◌, ◌^◌, ◌++◌, ◌∷◌, [], OnOk, IfOk, length, vec_len, true};
ghost use Rattle.nfs2_types.specs.Times.{is_time};
ghost use Rattle.log_format.specs.declared.Event.TheVariants.{Run, RunAll};
ghost use Rattle.seats.specs.Positions.{AreLater};
ghost use Rattle.cluster.specs.OverBench.{HaveArrays, HaveRoom};
ghost use Rattle.cluster.specs.Kept.{kept};
ghost use Rattle.cluster.specs.Went.{Went, end_line as end_line_of, end_lines};
ghost use Rattle.cluster.specs.Steps.{CanStep};
ghost use Rattle.cluster.specs.Turned.{TurnStays};

use super::Cluster;
use crate::lists::push_line;
use cluster_model::Request;
use log_format::{Event, Line};
use nfs2_types::{Blob, NoMemory, Time};
use replica::Lie;
use seats::Seat;
use server_trait::{Bench, FaultPoint, FileServer, Srv};
use std::alloc::Global;

/// Where a replica stands.
fn end_line(r: u32, seat: &Seat) -> Line
    ensures { result ≡ end_line_of r seat.now }
{
    match seat {
        Seat::Live(replica) => Line::At {
            r,
            place: replica.place,
        },
        Seat::Rebuilding(_) => Line::AtRebuilding { r },
        Seat::Down => Line::AtDown { r },
    }
}

impl Cluster {
    /// Does what a record says. Its fault points and its lines go behind those that are there: none.
    pub(super) fn take(
        &mut self,
        alloc: Global,
        bench: &mut Bench,
        met: &mut Vec<FaultPoint>,
        lines: &mut Vec<Line>,
        event: Event,
    ) -> Result<(), NoMemory>
        requires arrays { HaveArrays ⟦<Srv as FileServer>⟧.state (kept self.old)
            bench.old.servers.items bench.old.tables.items }
        requires room { HaveRoom ⟦<Srv as FileServer>⟧.state self.old.limits bench.old.servers.items }
        requires event { CanStep self.old.limits self.old.requests.items event }
        requires few { self.old.events < 2 ^ 32 }
        requires none { (met.old.items ≡ []) × (lines.old.items ≡ []) }
        ensures went { OnOk result (Went ⟦<Srv as FileServer>⟧.state event (kept self.old) (kept self.new)
            bench.old.servers.items bench.new.servers.items bench.old.tables.items bench.new.tables.items
            met.new.items lines.new.items) }
        ensures arrays { OnOk result (HaveArrays ⟦<Srv as FileServer>⟧.state (kept self.new)
            bench.new.servers.items bench.new.tables.items) }
        ensures servers { AreLater ⟦<Srv as FileServer>⟧.state (vec_len self.old.seats)
            bench.old.servers.items bench.new.servers.items }
        ensures downs { bench.new.downs ≡ bench.old.downs }
    {
        match event {
            Event::Request { time, bytes, .. } => self.ask(time, bytes),
            Event::Run { r } => self.run(alloc, bench, met, lines, r),
            Event::RunAll => self.run_all(alloc, bench, met, lines),
            Event::Reboot { r } => self.reboot(alloc, bench, met, lines, r),
            Event::Fetch { r, n } => self.fetch(alloc, bench, met, lines, r, n),
            Event::End => self.end(lines),
            Event::Rogue { r, time, bytes } => {
                self.rogue(alloc, bench, met, lines, r, &Request { time, bytes })
            }
            Event::Skip { r } => self.skip(alloc, bench, met, lines, r),
            Event::Wipe { r } => self.wipe(alloc, bench, met, lines, r),
            Event::LieReply { r, place, word } => {
                self.lie(bench, lines, r, Lie::OfWord { place, word })
            }
            Event::LieRoot { r, place, root } => {
                self.lie(bench, lines, r, Lie::OfRoot { place, root })
            }
            Event::LieItem {
                r,
                level,
                number,
                bytes,
            } => {
                let lie = Lie::OfItem {
                    level,
                    number,
                    text: bytes,
                };
                self.lie(bench, lines, r, lie)
            }
            _ => Ok(()),
        }
    }

    /// Appends a request.
    fn ask(&mut self, time: Time, bytes: Blob) -> Result<(), NoMemory>
        requires room { length self.old.requests.items + 1 < 2 ^ 32 }
        requires time { is_time time ≡ true }
        ensures { OnOk result (kept self.new ≡ record (kept self.old) {
          requests = self.old.requests.items ++ record { time = time; bytes = bytes } ∷ [];
        }) }
    {
        match self.requests.push(Request { time, bytes }) {
            Ok(()) => Ok(()),
            Err(_) => Err(NoMemory),
        }
    }

    /// The turn of one replica alone; where it has none, a line says why.
    fn run(
        &mut self,
        alloc: Global,
        bench: &mut Bench,
        met: &mut Vec<FaultPoint>,
        lines: &mut Vec<Line>,
        r: u32,
    ) -> Result<(), NoMemory>
        requires arrays { HaveArrays ⟦<Srv as FileServer>⟧.state (kept self.old)
            bench.old.servers.items bench.old.tables.items }
        requires room { HaveRoom ⟦<Srv as FileServer>⟧.state self.old.limits bench.old.servers.items }
        requires replica { r < vec_len self.old.seats }
        requires few { self.old.events < 2 ^ 32 }
        requires none { (met.old.items ≡ []) × (lines.old.items ≡ []) }
        ensures went { OnOk result (Went ⟦<Srv as FileServer>⟧.state (Run r) (kept self.old) (kept self.new)
            bench.old.servers.items bench.new.servers.items bench.old.tables.items bench.new.tables.items
            met.new.items lines.new.items) }
        ensures stays { OnOk result (TurnStays ⟦<Srv as FileServer>⟧.state (kept self.old) (kept self.new)
            bench.new.servers.items bench.new.tables.items) }
        ensures servers { AreLater ⟦<Srv as FileServer>⟧.state (vec_len self.old.seats)
            bench.old.servers.items bench.new.servers.items }
        ensures downs { bench.new.downs ≡ bench.old.downs }
    {
        if let Some(cause) = self.turn(alloc, bench, met, lines, 0, r)? {
            push_line(lines, Line::Idle { r, cause })?;
        }
        Ok(())
    }

    /// All replicas run all requests that they have not run.
    fn run_all(
        &mut self,
        alloc: Global,
        bench: &mut Bench,
        met: &mut Vec<FaultPoint>,
        lines: &mut Vec<Line>,
    ) -> Result<(), NoMemory>
        requires arrays { HaveArrays ⟦<Srv as FileServer>⟧.state (kept self.old)
            bench.old.servers.items bench.old.tables.items }
        requires room { HaveRoom ⟦<Srv as FileServer>⟧.state self.old.limits bench.old.servers.items }
        requires few { self.old.events < 2 ^ 32 }
        requires none { (met.old.items ≡ []) × (lines.old.items ≡ []) }
        ensures went { OnOk result (Went ⟦<Srv as FileServer>⟧.state RunAll (kept self.old) (kept self.new)
            bench.old.servers.items bench.new.servers.items bench.old.tables.items bench.new.tables.items
            met.new.items lines.new.items) }
        ensures stays { OnOk result (TurnStays ⟦<Srv as FileServer>⟧.state (kept self.old) (kept self.new)
            bench.new.servers.items bench.new.tables.items) }
        ensures servers { AreLater ⟦<Srv as FileServer>⟧.state (vec_len self.old.seats)
            bench.old.servers.items bench.new.servers.items }
        ensures downs { bench.new.downs ≡ bench.old.downs }
    {
        self.rounds(alloc, bench, met, lines)
    }

    /// The line of each replica, in order: where it stands.
    fn end(&self, lines: &mut Vec<Line>) -> Result<(), NoMemory>
        ensures { OnOk result (lines.new.items ≡ lines.old.items ++ end_lines 0 self.now.seats.items) }
    {
        for r in 0..self.seats.len() {
            push_line(lines, end_line(r as u32, &self.seats[r]))?;
        }
        Ok(())
    }
}
