//! The end of a fetch.

ghost use Rattle.std.specs.Prelude.{◌≡◌, ◌<◌, ◌^◌, OnOk, vec_len, slice_index_or};
ghost use Rattle.seats.specs.declared.Seat.TheVariants.{Down as DownSeat};
ghost use Rattle.seats.specs.Positions.{AreLater};
ghost use Rattle.cluster.specs.OverBench.{HaveArrays, HaveRoom, IsAimedAt};
ghost use Rattle.cluster.specs.Kept.{kept};
ghost use Rattle.cluster.specs.Fetching.{scene, Ended};

use super::Cluster;
use crate::lists::{push_fall_at, push_line};
use log_format::Line;
use nfs2_types::NoMemory;
use recovery::FinishErr;
use seats::{Seat, finish_at};
use server_trait::{Bench, FaultPoint, FileServer, Srv};
use std::alloc::Global;

impl Cluster {
    /// Ends a fetch at a stage: where nothing is missing, what was got is put, and the replica is live at the stable
    /// place; its line says how it ended.
    pub(super) fn end_fetch(
        &mut self,
        alloc: Global,
        bench: &mut Bench,
        met: &mut Vec<FaultPoint>,
        lines: &mut Vec<Line>,
        stage: u32,
        r: u32,
    ) -> Result<(), NoMemory>
        requires arrays { HaveArrays ⟦<Srv as FileServer>⟧.state (kept self.old)
            bench.old.servers.items bench.old.tables.items }
        requires room { HaveRoom ⟦<Srv as FileServer>⟧.state self.old.limits bench.old.servers.items }
        requires replica { r < vec_len self.old.seats }
        requires aimed { IsAimedAt self.old.stable (slice_index_or self.old.seats.items r DownSeat) }
        requires few { self.old.events < 2 ^ 32 }
        ensures ended { OnOk result (Ended ⟦<Srv as FileServer>⟧.state r stage
            (scene (kept self.old) bench.old.servers.items bench.old.tables.items met.old.items lines.old.items)
            (scene (kept self.new) bench.new.servers.items bench.new.tables.items met.new.items lines.new.items)) }
        ensures servers { AreLater ⟦<Srv as FileServer>⟧.state (vec_len self.old.seats)
            bench.old.servers.items bench.new.servers.items }
        ensures downs { bench.new.downs ≡ bench.old.downs }
    {
        let place = self.stable;
        let Some(rebuild) = self.seats[r as usize].take_rebuilding() else {
            return Ok(());
        };
        let counts = rebuild.counts();
        let (nodes, objects) = (counts.nodes, counts.objects);
        if rebuild.next_item().is_some() {
            self.seats[r as usize] = Seat::Rebuilding(rebuild);
            let got = nodes + objects;
            return push_line(lines, Line::Fetching { r, place, got });
        }
        match finish_at(alloc, bench, r as usize, rebuild, &self.limits) {
            Ok(replica) => {
                self.seats[r as usize] = Seat::Live(replica);
                push_line(
                    lines,
                    Line::Rebuilt {
                        r,
                        place,
                        nodes,
                        objects,
                    },
                )
            }
            Err(FinishErr::Invalid(back)) => {
                self.seats[r as usize] = Seat::Rebuilding(back);
                push_line(lines, Line::Fetching { r, place, got: 0 })
            }
            // Its seat is down.
            Err(FinishErr::Down) => push_fall_at(lines, met, self.events + 1, u64::from(stage), r),
            Err(FinishErr::NoMemory) => Err(NoMemory),
        }
    }
}
