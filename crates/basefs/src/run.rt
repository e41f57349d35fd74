//! A run over the replicas, from behind the header of a log.

ghost use Rattle.std.specs.Prelude.{◌≡◌, ◌<◌, ◌≤◌, ◌+◌, ◌*◌, ◌^◌, ℕ, List, Option, IfOk, vec_len};
ghost use Rattle.nfs2_types.specs.Counts.{Rose};
ghost use Rattle.conf_map.specs.Stands.{AreWithin};
ghost use Rattle.service_laws.specs.Served.{IsSized};
ghost use Rattle.cluster.specs.Kept.{kept};
ghost use Rattle.cluster.specs.OverBench.{HaveArrays, HaveRoom};
ghost use Rattle.basefs.specs.Setting.{setting};
ghost use Rattle.basefs.specs.Beginning.{Begun, RunsAll};

use crate::run_err::RunErr;
use crate::status::Status;
use crate::turn::{Turn, run_status, take_turn};
use cluster::Cluster;
use log_stream::write_lines;
use nfs2_types::Limits;
use outside::{Sink, SinkErr, Source};
use server_trait::{Bench, FileServer, Srv};
use std::alloc::Global;

/// The most records of a log.
const MOST_RECORDS: u32 = 16_777_216;

/// Where the first record begins.
const FIRST_RECORD: u64 = 24;

/// Starts the replicas, and writes the lines of the start.
fn begin<O: Sink>(
    alloc: Global,
    limits: &Limits,
    out: &mut O,
    bench: &mut Bench,
) -> Result<Cluster, RunErr>
    requires within { AreWithin limits.now }
    requires sizes { IsSized limits.now }
    requires replicas { limits.now.f ≤ 2 }
    requires interval { 0 < limits.now.k }
    requires enough { 3 * limits.now.f + 1 ≤ vec_len bench.old.servers }
    requires room { HaveRoom ⟦<Srv as FileServer>⟧.state limits.now bench.old.servers.items }
    ensures begun { (left : Option (List ℕ)) → Begun ⟦<Srv as FileServer>⟧.state limits.now
        (setting left (O.written out.old) bench.old.servers.items bench.old.tables.items bench.old.downs.items)
        (setting left (O.written out.new) bench.new.servers.items bench.new.tables.items bench.new.downs.items)
        result }
    ensures arrays { IfOk result (λ c. HaveArrays ⟦<Srv as FileServer>⟧.state (kept c)
        bench.new.servers.items bench.new.tables.items) }
    ensures writes { O.faults out.old ≤ O.faults out.new }
    ensures write { result ≡ Err (RunErr.Sink SinkErr.Failed) → Rose (O.faults out.old) (O.faults out.new) }
{
    let (cluster, lines) = Cluster::start(alloc, bench, limits)?;
    write_lines(alloc, out, &lines)?;
    Ok(cluster)
}

/// Runs the records of a log over replicas with the first servers of the bench. The array of a replica is kept in its
/// server and its table alone.
pub fn run_log<S: Source, O: Sink>(
    alloc: Global,
    limits: &Limits,
    input: &mut S,
    out: &mut O,
    bench: &mut Bench,
) -> Status
    requires few { vec_len bench.old.servers < 2 ^ 32 }
    requires within { AreWithin limits.now }
    requires sizes { IsSized limits.now }
    requires replicas { limits.now.f ≤ 2 }
    requires interval { 0 < limits.now.k }
    requires enough { 3 * limits.now.f + 1 ≤ vec_len bench.old.servers }
    requires room { HaveRoom ⟦<Srv as FileServer>⟧.state limits.now bench.old.servers.items }
    ensures ran { RunsAll ⟦<Srv as FileServer>⟧.state limits.now
        (setting (S.left input.old) (O.written out.old)
        bench.old.servers.items bench.old.tables.items bench.old.downs.items)
        (setting (S.left input.new) (O.written out.new)
        bench.new.servers.items bench.new.tables.items bench.new.downs.items) result }
    ensures reads { S.faults input.old ≤ S.faults input.new }
    ensures writes { O.faults out.old ≤ O.faults out.new }
    ensures read { result ≡ Status.ReadFault → Rose (S.faults input.old) (S.faults input.new) }
    ensures write { result ≡ Status.WriteFault → Rose (O.faults out.old) (O.faults out.new) }
{
    let mut cluster = match begin(alloc, limits, out, bench) {
        Ok(cluster) => cluster,
        Err(error) => return run_status(error),
    };
    let mut place = FIRST_RECORD;
    for _turn in 0..MOST_RECORDS {
        match take_turn(alloc, limits, &mut cluster, place, input, out, bench) {
            Turn::Goes { next } => place = next,
            Turn::Over(status) => return status,
        }
    }
    Status::BadLog { at: place }
}
