//! The record that fetches what a replica lacks.

ghost use Rattle.std.specs.Prelude.{◌≡◌, ◌<◌, ◌^◌, [], IfOk, OnOk, vec_len};
ghost use Rattle.log_format.specs.declared.Event.TheVariants.{Fetch};
ghost use Rattle.seats.specs.Positions.{AreLater};
ghost use Rattle.cluster.specs.OverBench.{HaveArrays, HaveRoom};
ghost use Rattle.cluster.specs.Kept.{kept};
ghost use Rattle.cluster.specs.Turned.{TurnStays};
ghost use Rattle.cluster.specs.Went.{Went};
ghost use Rattle.cluster.specs.Fetching.{scene, Collected};

use super::Cluster;
use crate::lists::push_line;
use log_format::{IdleCause, Line};
use nfs2_types::NoMemory;
use seats::Seat;
use server_trait::{Bench, FaultPoint, FileServer, Srv};
use std::alloc::Global;

impl Cluster {
    /// A replica that is being rebuilt gets at most so many items of the stable place from the others, and is live
    /// there once nothing is missing. Where it is not being rebuilt, a line says so.
    pub(super) fn fetch(
        &mut self,
        alloc: Global,
        bench: &mut Bench,
        met: &mut Vec<FaultPoint>,
        lines: &mut Vec<Line>,
        r: u32,
        n: u32,
    ) -> Result<(), NoMemory>
        requires arrays { HaveArrays ⟦<Srv as FileServer>⟧.state (kept self.old)
            bench.old.servers.items bench.old.tables.items }
        requires room { HaveRoom ⟦<Srv as FileServer>⟧.state self.old.limits bench.old.servers.items }
        requires replica { r < vec_len self.old.seats }
        requires few { self.old.events < 2 ^ 32 }
        requires none { (met.old.items ≡ []) × (lines.old.items ≡ []) }
        ensures went { OnOk result (Went ⟦<Srv as FileServer>⟧.state (Fetch r n) (kept self.old) (kept self.new)
            bench.old.servers.items bench.new.servers.items bench.old.tables.items bench.new.tables.items
            met.new.items lines.new.items) }
        ensures stays { OnOk result (TurnStays ⟦<Srv as FileServer>⟧.state (kept self.old) (kept self.new)
            bench.new.servers.items bench.new.tables.items) }
        ensures servers { AreLater ⟦<Srv as FileServer>⟧.state (vec_len self.old.seats)
            bench.old.servers.items bench.new.servers.items }
        ensures downs { bench.new.downs ≡ bench.old.downs }
    {
        if let Seat::Rebuilding(_) = &self.seats[r as usize] {} else {
            let cause = IdleCause::NotRebuilding;
            push_line(lines, Line::Idle { r, cause })?;
            return Ok(());
        }
        let (place, root) = (self.stable, self.root);
        self.seats[r as usize].aim(place, root);
        let stage = self.collect(alloc, bench, met, lines, r, n)?;
        self.end_fetch(alloc, bench, met, lines, stage, r)
    }

    /// Gets an item at each stage, at most so many, up to a stage at which nothing is missing or no replica has what
    /// is. How many were got.
    fn collect(
        &mut self,
        alloc: Global,
        bench: &mut Bench,
        met: &mut Vec<FaultPoint>,
        lines: &mut Vec<Line>,
        r: u32,
        n: u32,
    ) -> Result<u32, NoMemory>
        requires arrays { HaveArrays ⟦<Srv as FileServer>⟧.state (kept self.old)
            bench.old.servers.items bench.old.tables.items }
        requires room { HaveRoom ⟦<Srv as FileServer>⟧.state self.old.limits bench.old.servers.items }
        requires replica { r < vec_len self.old.seats }
        requires few { self.old.events < 2 ^ 32 }
        ensures collected { IfOk result (λ stages. Collected ⟦<Srv as FileServer>⟧.state r n stages
            (scene (kept self.old) bench.old.servers.items bench.old.tables.items met.old.items lines.old.items)
            (scene (kept self.new) bench.new.servers.items bench.new.tables.items met.new.items lines.new.items)) }
        ensures servers { AreLater ⟦<Srv as FileServer>⟧.state (vec_len self.old.seats)
            bench.old.servers.items bench.new.servers.items }
        ensures downs { bench.new.downs ≡ bench.old.downs }
    {
        for stage in 0..n {
            let Some(item) = self.seats[r as usize].next_item() else {
                return Ok(stage);
            };
            if !self.get_item(alloc, bench, met, lines, stage, r, item)? {
                return Ok(stage);
            }
        }
        Ok(n)
    }
}
