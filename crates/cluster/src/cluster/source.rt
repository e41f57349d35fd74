//! What a replica that is being rebuilt gets from the others.

ghost use Rattle.std.specs.Prelude.{◌≡◌, ◌≢◌, ◌<◌, ◌^◌, ◌∷◌, [], Some, IfOk, vec_len, slice_index_or};
ghost use Rattle.cluster_model.specs.Tree as tree;
ghost use Rattle.service_laws.specs.Served.{service};
ghost use Rattle.seats.specs.declared.Seat.TheVariants.{Down as DownSeat};
ghost use Rattle.seats.specs.Positions.{AreLater, ChangesAt};
ghost use Rattle.seats.specs.Seats.{next_of};
ghost use Rattle.cluster.specs.OverBench.{HaveArrays, HaveRoom};
ghost use Rattle.cluster.specs.Kept.{kept};
ghost use Rattle.cluster.specs.Fetching.{scene, slot_at, Led, Asks, Offered, Staged};

use super::Cluster;
use crate::lists::push_fall_at;
use log_format::Line;
use nfs2_types::{Blob, NoMemory};
use seats::{Seat, serve_at};
use server_trait::{Bench, FaultPoint, FileServer, Srv, WrapErr};
use state_transfer::Item;
use std::alloc::Global;

impl Cluster {
    /// Asks a live replica at a stage for an item of the stable place. One whose server fails is down from then on, and
    /// gives nothing.
    fn ask_source(
        &mut self,
        alloc: Global,
        bench: &mut Bench,
        met: &mut Vec<FaultPoint>,
        lines: &mut Vec<Line>,
        stage: u32,
        r: u32,
        source: u32,
        item: Item,
    ) -> Result<Option<Blob>, NoMemory>
        requires arrays { HaveArrays ⟦<Srv as FileServer>⟧.state (kept self.old)
            bench.old.servers.items bench.old.tables.items }
        requires room { HaveRoom ⟦<Srv as FileServer>⟧.state self.old.limits bench.old.servers.items }
        requires source { source < vec_len self.old.seats }
        requires few { self.old.events < 2 ^ 32 }
        ensures led { IfOk result (λ text. Led ⟦<Srv as FileServer>⟧.state
            (Asks (service self.old.limits) r stage source (tree.item item.level item.number) text)
            (slot_at stage source ∷ [])
            (scene (kept self.old) bench.old.servers.items bench.old.tables.items met.old.items lines.old.items)
            (scene (kept self.new) bench.new.servers.items bench.new.tables.items met.new.items lines.new.items)) }
        ensures seats { IfOk result (λ _. ChangesAt source (kept self.old).seats (kept self.new).seats) }
        ensures servers { AreLater ⟦<Srv as FileServer>⟧.state (vec_len self.old.seats)
            bench.old.servers.items bench.new.servers.items }
        ensures downs { bench.new.downs ≡ bench.old.downs }
    {
        let place = self.stable;
        let Some(mut replica) = self.seats[source as usize].take_live() else {
            return Ok(None);
        };
        let served = serve_at(
            alloc,
            bench,
            source as usize,
            &mut replica,
            &self.limits,
            place,
            item,
        );
        match served {
            Ok(text) => {
                self.seats[source as usize] = Seat::Live(replica);
                Ok(text)
            }
            Err(WrapErr::Down) => {
                // Its seat is down.
                push_fall_at(lines, met, self.events + 1, u64::from(stage), source)?;
                Ok(None)
            }
            Err(WrapErr::NoMemory) => Err(NoMemory),
        }
    }

    /// Asks a replica at a stage for the item that another one is to get next, and offers it what was given. Whether it
    /// was taken.
    fn offer(
        &mut self,
        alloc: Global,
        bench: &mut Bench,
        met: &mut Vec<FaultPoint>,
        lines: &mut Vec<Line>,
        stage: u32,
        r: u32,
        source: u32,
        item: Item,
    ) -> Result<bool, NoMemory>
        requires arrays { HaveArrays ⟦<Srv as FileServer>⟧.state (kept self.old)
            bench.old.servers.items bench.old.tables.items }
        requires room { HaveRoom ⟦<Srv as FileServer>⟧.state self.old.limits bench.old.servers.items }
        requires replica { r < vec_len self.old.seats }
        requires source { (source < vec_len self.old.seats) × (source ≢ r) }
        requires wanted { next_of (slice_index_or self.old.seats.items r DownSeat) ≡ Some item }
        requires few { self.old.events < 2 ^ 32 }
        ensures offered { IfOk result (Offered ⟦<Srv as FileServer>⟧.state r stage source
            (tree.item item.level item.number)
            (scene (kept self.old) bench.old.servers.items bench.old.tables.items met.old.items lines.old.items)
            (scene (kept self.new) bench.new.servers.items bench.new.tables.items met.new.items lines.new.items)) }
        ensures servers { AreLater ⟦<Srv as FileServer>⟧.state (vec_len self.old.seats)
            bench.old.servers.items bench.new.servers.items }
        ensures downs { bench.new.downs ≡ bench.old.downs }
    {
        match self.ask_source(alloc, bench, met, lines, stage, r, source, item)? {
            Some(text) => self.seats[r as usize].give(text.as_slice()),
            None => Ok(false),
        }
    }

    /// Asks the live replicas in rising order for the item that a replica is to get next, up to one whose text is
    /// taken. Whether there was one.
    pub(super) fn get_item(
        &mut self,
        alloc: Global,
        bench: &mut Bench,
        met: &mut Vec<FaultPoint>,
        lines: &mut Vec<Line>,
        stage: u32,
        r: u32,
        item: Item,
    ) -> Result<bool, NoMemory>
        requires arrays { HaveArrays ⟦<Srv as FileServer>⟧.state (kept self.old)
            bench.old.servers.items bench.old.tables.items }
        requires room { HaveRoom ⟦<Srv as FileServer>⟧.state self.old.limits bench.old.servers.items }
        requires replica { r < vec_len self.old.seats }
        requires wanted { next_of (slice_index_or self.old.seats.items r DownSeat) ≡ Some item }
        requires few { self.old.events < 2 ^ 32 }
        ensures staged { IfOk result (Staged ⟦<Srv as FileServer>⟧.state r stage
            (tree.item item.level item.number)
            (scene (kept self.old) bench.old.servers.items bench.old.tables.items met.old.items lines.old.items)
            (scene (kept self.new) bench.new.servers.items bench.new.tables.items met.new.items lines.new.items)) }
        ensures servers { AreLater ⟦<Srv as FileServer>⟧.state (vec_len self.old.seats)
            bench.old.servers.items bench.new.servers.items }
        ensures downs { bench.new.downs ≡ bench.old.downs }
    {
        for source in 0..self.seats.len() {
            let source = source as u32;
            if source == r {
                continue;
            }
            if self.offer(alloc, bench, met, lines, stage, r, source, item)? {
                return Ok(true);
            }
        }
        Ok(false)
    }
}
