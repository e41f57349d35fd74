//! One record of a log: read, judged, stepped, and its lines written.

ghost use Rattle.std.specs.Prelude.{◌≡◌, ◌+◌, ◌*◌, ◌<◌, ◌≤◌, ◌^◌, length, vec_len, IfOk, OnOk};
ghost use Rattle.nfs2_types.specs.Times.{is_time};
ghost use Rattle.nfs2_types.specs.Counts.{Rose};
ghost use Rattle.log_format.specs.Lines.{text_of};
ghost use Rattle.log_format.specs.Records.{record_at};
ghost use Rattle.log_format.specs.Spelling.{record_len};
ghost use Rattle.log_stream.specs.Reading.{Reads, ReadHasCause};
ghost use Rattle.cluster.specs.Kept.{kept};
ghost use Rattle.seats.specs.Positions.{AreLater};
ghost use Rattle.cluster.specs.OverBench.{HaveArrays, HaveRoom};
ghost use Rattle.cluster.specs.Steps.{CanStep};
ghost use Rattle.basefs.specs.Setting.{setting};
ghost use Rattle.basefs.specs.Log.{falls as falls_behind, judge_request as judge_request_of, judge as judge_of};
ghost use Rattle.basefs.specs.Going.{read_status as status_of_read, run_status as status_of_run, Finishes, Turns};
ghost use Rattle.basefs.specs.Turns.{Stepped, IsNear, HaveArraysAfter};

use crate::run_err::RunErr;
use crate::status::Status;
use crate::verdict::Verdict;
use cluster::{Cluster, is_built};
use log_format::Event;
use log_stream::{ReadErr, read_record, write_lines};
use nfs2_types::{Limits, Time};
use outside::{Sink, SinkErr, Source};
use server_trait::{Bench, FileServer, Srv};
use std::alloc::Global;

/// The most requests of a log.
const MOST_REQUESTS: usize = 1_000_000;

/// What came of a turn.
#[derive(Debug, Drop)]
pub enum Turn {
    /// The next record begins at this byte.
    Goes { next: u64 },
    /// The run is over.
    Over(Status),
}

/// Whether a time lies before the last one.
fn falls(time: Time, last: Option<Time>) -> bool
    ensures { result ≡ falls_behind time last }
{
    match last {
        None => false,
        Some(last) => {
            time.secs < last.secs || (time.secs == last.secs && time.micros < last.micros)
        }
    }
}

/// What comes of a request behind so many others.
fn judge_request(asked: usize, last: Option<Time>, time: Time) -> Verdict
    ensures { result ≡ judge_request_of asked last time }
{
    if falls(time, last) || asked >= MOST_REQUESTS {
        Verdict::Wrong
    } else {
        Verdict::Goes
    }
}

/// What comes of a record behind the requests so far.
fn judge(cluster: &Cluster, event: &Event) -> Verdict
    ensures { result ≡ judge_of (kept cluster.now).requests event.now }
{
    let asked = cluster.asked();
    match event {
        Event::Request { time, .. } => judge_request(asked, cluster.last_time(), *time),
        Event::End => Verdict::Ends,
        _ if is_built(event) => Verdict::Goes,
        _ => Verdict::Waits,
    }
}

/// The status of an error of the source, at an item that begins at this byte.
pub fn read_status(error: ReadErr, at: u64) -> Status
    ensures { result ≡ status_of_read error at }
{
    match error {
        ReadErr::Failed => Status::ReadFault,
        ReadErr::NoMemory => Status::NoMemory,
        ReadErr::Wrong => Status::BadLog { at },
    }
}

/// The status of what ends a run.
pub fn run_status(error: RunErr) -> Status
    ensures status { result ≡ status_of_run error }
    ensures write { result ≡ Status.WriteFault → error ≡ RunErr.Sink SinkErr.Failed }
{
    match error {
        RunErr::Sink(SinkErr::Failed) => Status::WriteFault,
        RunErr::Sink(SinkErr::NoMemory) | RunErr::NoMemory => Status::NoMemory,
    }
}

/// Whether anything stands behind the last record, which ends before this byte.
fn finish<S: Source>(input: &mut S, place: u64) -> Status
    ensures bytes { Finishes (S.left input.old) (S.left input.new) place result }
    ensures later { S.faults input.old ≤ S.faults input.new }
    ensures read { result ≡ Status.ReadFault → Rose (S.faults input.old) (S.faults input.new) }
{
    let mut byte = [0u8; 1];
    match input.read(&mut byte) {
        Ok(0) => Status::Done,
        Ok(_) => Status::BadLog { at: place },
        Err(_) => Status::ReadFault,
    }
}

/// Reads the record that begins at this byte, which becomes the byte behind it.
fn read_next<S: Source>(
    alloc: Global,
    f: u32,
    servers: u32,
    place: &mut u64,
    input: &mut S,
) -> Result<Event, ReadErr>
    requires few { f ≤ 2 }
    requires place { place.old < 2 ^ 63 }
    ensures bytes { Reads (record_at f servers) (λ event. event) (S.left input.old) (S.left input.new) result }
    ensures next { IfOk result (λ event. place.new ≡ place.old + record_len event) }
    ensures near { IfOk result (λ event. record_len event ≤ 65556) }
    ensures cause { ReadHasCause (S.faults input.old) (S.faults input.new) result }
{
    match read_record(alloc, input, f, servers) {
        Ok(record) => {
            *place += record.bytes.len() as u64;
            Ok(record.event)
        }
        Err(error) => Err(error),
    }
}

/// A number of servers.
fn narrow(count: usize) -> u32
    requires { count < 2 ^ 32 }
    ensures { result ≡ count }
{
    count as u32
}

/// Steps a record, and writes its lines.
fn step_and_write<O: Sink>(
    alloc: Global,
    cluster: &mut Cluster,
    event: Event,
    out: &mut O,
    bench: &mut Bench,
) -> Result<(), RunErr>
    requires arrays { HaveArrays ⟦<Srv as FileServer>⟧.state (kept cluster.old)
        bench.old.servers.items bench.old.tables.items }
    requires room { HaveRoom ⟦<Srv as FileServer>⟧.state (kept cluster.old).limits bench.old.servers.items }
    requires event { CanStep (kept cluster.old).limits (kept cluster.old).requests event }
    requires few { (kept cluster.old).events < 2 ^ 32 }
    ensures stepped { Stepped ⟦<Srv as FileServer>⟧.state (kept cluster.old) (kept cluster.new)
        bench.old.servers.items bench.new.servers.items bench.old.tables.items bench.new.tables.items
        bench.old.downs.items bench.new.downs.items (O.written out.old) (O.written out.new) event result }
    ensures arrays { OnOk result (HaveArrays ⟦<Srv as FileServer>⟧.state (kept cluster.new)
        bench.new.servers.items bench.new.tables.items) }
    ensures writes { O.faults out.old ≤ O.faults out.new }
    ensures write { result ≡ Err (RunErr.Sink SinkErr.Failed) → Rose (O.faults out.old) (O.faults out.new) }
    ensures servers { AreLater ⟦<Srv as FileServer>⟧.state (3 * (kept cluster.old).limits.f + 1)
        bench.old.servers.items bench.new.servers.items }
{
    let lines = cluster.step(alloc, bench, event)?;
    write_lines(alloc, out, &lines)?;
    Ok(())
}

/// Takes a turn: reads the record that begins at this byte, steps it and writes its lines.
pub fn take_turn<S: Source, O: Sink>(
    alloc: Global,
    limits: &Limits,
    cluster: &mut Cluster,
    place: u64,
    input: &mut S,
    out: &mut O,
    bench: &mut Bench,
) -> Turn
    requires servers { vec_len bench.old.servers < 2 ^ 32 }
    requires limits { (limits.now ≡ (kept cluster.old).limits) × (limits.now.f ≤ 2) }
    requires place { place < 2 ^ 63 }
    requires arrays { HaveArrays ⟦<Srv as FileServer>⟧.state (kept cluster.old)
        bench.old.servers.items bench.old.tables.items }
    requires room { HaveRoom ⟦<Srv as FileServer>⟧.state limits.now bench.old.servers.items }
    requires few { (kept cluster.old).events < 2 ^ 32 }
    ensures turn { Turns ⟦<Srv as FileServer>⟧.state
        (setting (S.left input.old) (O.written out.old)
        bench.old.servers.items bench.old.tables.items bench.old.downs.items)
        (setting (S.left input.new) (O.written out.new)
        bench.new.servers.items bench.new.tables.items bench.new.downs.items)
        (kept cluster.old) (kept cluster.new) place result }
    ensures near { IsNear (kept cluster.old) (kept cluster.new) place result }
    ensures arrays { HaveArraysAfter ⟦<Srv as FileServer>⟧.state (kept cluster.new)
        bench.new.servers.items bench.new.tables.items result }
    ensures reads { S.faults input.old ≤ S.faults input.new }
    ensures writes { O.faults out.old ≤ O.faults out.new }
    ensures read { result ≡ Turn.Over Status.ReadFault → Rose (S.faults input.old) (S.faults input.new) }
    ensures write { result ≡ Turn.Over Status.WriteFault → Rose (O.faults out.old) (O.faults out.new) }
{
    let servers = narrow(bench.servers.len());
    let mut next = place;
    let event = match read_next(alloc, limits.f, servers, &mut next, input) {
        Ok(event) => event,
        Err(error) => return Turn::Over(read_status(error, place)),
    };
    match judge(cluster, &event) {
        Verdict::Wrong => Turn::Over(Status::BadLog { at: place }),
        Verdict::Waits => Turn::Over(Status::NotBuilt { at: place }),
        Verdict::Goes => match step_and_write(alloc, cluster, event, out, bench) {
            Ok(()) => Turn::Goes { next },
            Err(error) => Turn::Over(run_status(error)),
        },
        Verdict::Ends => match step_and_write(alloc, cluster, event, out, bench) {
            Ok(()) => Turn::Over(finish(input, next)),
            Err(error) => Turn::Over(run_status(error)),
        },
    }
}
