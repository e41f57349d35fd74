//! The record that gives a replica up.

ghost use Rattle.std.specs.Prelude.{◌≡◌, ◌<◌, ◌^◌, [], OnOk, vec_len};
ghost use Rattle.log_format.specs.declared.Event.TheVariants.{Reboot};
ghost use Rattle.seats.specs.Positions.{AreLater};
ghost use Rattle.cluster.specs.OverBench.{HaveArrays, HaveRoom};
ghost use Rattle.cluster.specs.Kept.{kept};
ghost use Rattle.cluster.specs.Turned.{TurnStays};
ghost use Rattle.cluster.specs.Went.{Went};

use super::Cluster;
use crate::lists::push_fall;
use log_format::Line;
use nfs2_types::NoMemory;
use seats::{Seat, rebuild_at};
use server_trait::{Bench, FaultPoint, FileServer, Srv, WrapErr};
use std::alloc::Global;

impl Cluster {
    /// Reboots the server of a replica, or wipes it where the replica was down: it is being rebuilt from then on, with
    /// no place set. Its words are withdrawn, also where its server then fails.
    pub(super) fn reboot(
        &mut self,
        alloc: Global,
        bench: &mut Bench,
        met: &mut Vec<FaultPoint>,
        lines: &mut Vec<Line>,
        r: u32,
    ) -> Result<(), NoMemory>
        requires arrays { HaveArrays ⟦<Srv as FileServer>⟧.state (kept self.old)
            bench.old.servers.items bench.old.tables.items }
        requires room { HaveRoom ⟦<Srv as FileServer>⟧.state self.old.limits bench.old.servers.items }
        requires replica { r < vec_len self.old.seats }
        requires few { self.old.events < 2 ^ 32 }
        requires none { (met.old.items ≡ []) × (lines.old.items ≡ []) }
        ensures went { OnOk result (Went ⟦<Srv as FileServer>⟧.state (Reboot r) (kept self.old) (kept self.new)
            bench.old.servers.items bench.new.servers.items bench.old.tables.items bench.new.tables.items
            met.new.items lines.new.items) }
        ensures stays { OnOk result (TurnStays ⟦<Srv as FileServer>⟧.state (kept self.old) (kept self.new)
            bench.new.servers.items bench.new.tables.items) }
        ensures servers { AreLater ⟦<Srv as FileServer>⟧.state (vec_len self.old.seats)
            bench.old.servers.items bench.new.servers.items }
        ensures downs { bench.new.downs ≡ bench.old.downs }
    {
        self.votes.withdraw(alloc, r);
        self.roots.withdraw(alloc, r);
        match rebuild_at(
            alloc,
            bench,
            r as usize,
            &self.seats[r as usize],
            &self.limits,
        ) {
            Ok(rebuild) => self.seats[r as usize] = Seat::Rebuilding(rebuild),
            Err(WrapErr::Down) => {
                self.seats[r as usize] = Seat::Down;
                push_fall(lines, met, self.events + 1, r)?;
            }
            Err(WrapErr::NoMemory) => return Err(NoMemory),
        }
        Ok(())
    }
}
