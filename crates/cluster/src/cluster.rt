//! A cluster of 3f + 1 replicas, stepped record by record.

ghost use Rattle.std.specs.Prelude.{OnErr, OnOk, IfOk, option_map, slice_get, ◌-◌, ◌+◌, ◌*◌, suc, length, vec_len, ◌≡◌, ◌<◌, ◌≤◌, ◌^◌, ◌++◌, ◌∷◌, []};
ghost use Rattle.conf_map.specs.Stands.{AreWithin};
ghost use Rattle.service_laws.specs.Served.{IsSized};
ghost use Rattle.seats.specs.Positions.{AreLater};
ghost use Rattle.cluster.specs.OverBench.{HaveArrays, HaveRoom};
ghost use Rattle.cluster.specs.Steps.{is_built as is_step_built, CanStep, Starts, Steps};
ghost use Rattle.cluster.specs.Kept.{kept};

mod begins;
mod fetch;
mod fetch_end;
mod harm;
mod reboot;
mod source;
mod state;
mod steps;
mod turns;
mod votes;

use crate::lists::push_points;
use begins::{Begun, begin_all};
use log_format::{Event, Line};
use nfs2_types::{Limits, NoMemory, Time};
use replica::empty_tree;
use reply_vote::Votes;
use server_trait::{Bench, FileServer, Srv};
pub use state::Cluster;
use std::alloc::Global;
use std::collections::BTreeMap;

/// Whether the step of such a record is built.
pub fn is_built(event: &Event) -> bool
    ensures { result ≡ is_step_built event.now }
{
    match event {
        Event::Request { .. } | Event::Run { .. } | Event::RunAll | Event::End => true,
        Event::Reboot { .. } | Event::Fetch { .. } => true,
        Event::Rogue { .. } | Event::Skip { .. } | Event::Wipe { .. } => true,
        Event::LieReply { .. } | Event::LieRoot { .. } | Event::LieItem { .. } => true,
        _ => false,
    }
}

impl Cluster {
    /// Starts 3f + 1 replicas over the first servers of the bench, whatever these held, and gives the lines of the
    /// start. Each server of the bench gets a table. A replica whose server fails is down, and the fault points of
    /// the start are those of the bench. After want of memory there are none, and nothing is said of the tables.
    pub fn start(
        alloc: Global,
        bench: &mut Bench,
        limits: &Limits,
    ) -> Result<(Cluster, Vec<Line>), NoMemory>
        requires within { AreWithin limits.now }
        requires sizes { IsSized limits.now }
        requires replicas { limits.now.f ≤ 2 }
        requires interval { 0 < limits.now.k }
        requires enough { 3 * limits.now.f + 1 ≤ vec_len bench.old.servers }
        requires room { HaveRoom ⟦<Srv as FileServer>⟧.state limits.now bench.old.servers.items }
        ensures starts { IfOk result (λ r. Starts ⟦<Srv as FileServer>⟧.state limits.now (kept r.0)
            bench.old.servers.items bench.new.servers.items bench.new.tables.items bench.new.downs.items r.1.items) }
        ensures arrays { IfOk result (λ r. HaveArrays ⟦<Srv as FileServer>⟧.state (kept r.0)
            bench.new.servers.items bench.new.tables.items) }
        ensures none { OnErr result (bench.new.downs.items ≡ []) }
        ensures servers { AreLater ⟦<Srv as FileServer>⟧.state (3 * limits.now.f + 1)
            bench.old.servers.items bench.new.servers.items }
    {
        let replicas = 3 * limits.f + 1;
        let Begun { seats, met, lines } = begin_all(alloc, bench, limits, replicas)?;
        let tree = empty_tree(alloc, limits.n)?;
        let root = tree.root();
        let votes = Votes::new(alloc, replicas, limits.f + 1)?;
        let roots = Votes::new(alloc, replicas, 2 * limits.f + 1)?;
        bench.downs = met;
        let cluster = Cluster {
            limits: *limits,
            requests: Vec::new(alloc),
            seats,
            votes,
            decisions: BTreeMap::new(alloc),
            roots,
            stable: 0,
            root,
            events: 0,
        };
        Ok((cluster, lines))
    }

    /// How many requests there are.
    pub fn asked(&self) -> usize
        ensures length { result ≡ length (kept self.now).requests }
        ensures few { result < 2 ^ 32 }
    {
        self.requests.len()
    }

    /// The time of the last request.
    pub fn last_time(&self) -> Option<Time>
        ensures { result ≡ option_map (λ r. r.time)
            (slice_get (kept self.now).requests (length (kept self.now).requests - 1)) }
    {
        match self.requests.last() {
            Some(request) => Some(request.time),
            None => None,
        }
    }

    /// Steps a record, and gives the lines that it prints. A replica whose server fails is down from then on, and the
    /// fault points go behind those of the bench. After want of memory the cluster can only be dropped, and nothing is
    /// said of trees and tables.
    pub fn step(
        &mut self,
        alloc: Global,
        bench: &mut Bench,
        event: Event,
    ) -> Result<Vec<Line>, NoMemory>
        requires arrays { HaveArrays ⟦<Srv as FileServer>⟧.state (kept self.old)
            bench.old.servers.items bench.old.tables.items }
        requires room { HaveRoom ⟦<Srv as FileServer>⟧.state (kept self.old).limits bench.old.servers.items }
        requires event { CanStep (kept self.old).limits (kept self.old).requests event }
        requires few { (kept self.old).events < 2 ^ 32 }
        ensures steps { IfOk result (λ lines. Steps ⟦<Srv as FileServer>⟧.state (kept self.old) (kept self.new)
            bench.old.servers.items bench.new.servers.items bench.old.tables.items bench.new.tables.items
            bench.old.downs.items bench.new.downs.items event lines.items) }
        ensures arrays { OnOk result (HaveArrays ⟦<Srv as FileServer>⟧.state (kept self.new)
            bench.new.servers.items bench.new.tables.items) }
        ensures same { OnErr result (bench.new.downs.items ≡ bench.old.downs.items) }
        ensures servers { AreLater ⟦<Srv as FileServer>⟧.state (3 * (kept self.old).limits.f + 1)
            bench.old.servers.items bench.new.servers.items }
    {
        let mut lines = Vec::new(alloc);
        let mut met = Vec::new(alloc);
        self.take(alloc, bench, &mut met, &mut lines, event)?;
        push_points(&mut bench.downs, met.as_slice())?;
        self.events += 1;
        Ok(lines)
    }
}
