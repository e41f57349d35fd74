//! The start of the replicas.

ghost use Rattle.std.specs.Prelude.{◌≡◌, ◌<◌, ◌≤◌, ℕ, ◌++◌, ◌∷◌, [], OnOk, IfOk, vec_len};
ghost use Rattle.conf_map.specs.Stands.{AreWithin};
ghost use Rattle.partition_tree.specs.Digests.{IsTreeSize};
ghost use Rattle.seats.specs.Positions.{AreLater};
ghost use Rattle.cluster.specs.OverBench.{HaveRoom};
ghost use Rattle.cluster.specs.Begun.{BeginsAt, Begun as HaveBegun};

use crate::lists::{push_line, push_point};
use log_format::Line;
use nfs2_types::{Limits, NoMemory};
use seats::{Seat, fresh_at};
use server_trait::{Bench, ConfTable, FaultPoint, FileServer, Srv, WrapErr};
use std::alloc::Global;

/// Replicas that began: those whose servers failed are down, and have their fault points and lines.
#[derive(Drop)]
pub struct Begun {
    pub seats: Vec<Seat>,
    pub met: Vec<FaultPoint>,
    pub lines: Vec<Line>,
}

/// Puts a replica behind the others.
fn push_seat(seats: &mut Vec<Seat>, seat: Seat) -> Result<(), NoMemory>
    ensures { OnOk result (seats.new.items ≡ seats.old.items ++ seat ∷ []) }
{
    match seats.push(seat) {
        Ok(()) => Ok(()),
        Err(_) => Err(NoMemory),
    }
}

/// Gives each server an empty table, and takes all fault points away.
pub fn prepare(alloc: Global, bench: &mut Bench) -> Result<(), NoMemory>
    ensures servers { bench.new.servers.items ≡ bench.old.servers.items }
    ensures tables { OnOk result (vec_len bench.new.tables ≡ vec_len bench.old.servers) }
    ensures downs { bench.new.downs.items ≡ [] }
{
    bench.downs = Vec::new(alloc);
    bench.tables = Vec::new(alloc);
    for _table in 0..bench.servers.len() {
        bench.tables.push(ConfTable::empty(alloc))?;
    }
    Ok(())
}

/// Begins the next replica over its position of the bench.
fn begin(
    alloc: Global,
    bench: &mut Bench,
    limits: &Limits,
    r: u32,
    begun: &mut Begun,
) -> Result<(), NoMemory>
    requires within { AreWithin limits.now }
    requires size { IsTreeSize limits.now.n }
    requires room { HaveRoom ⟦<Srv as FileServer>⟧.state limits.now bench.old.servers.items }
    requires server { r < vec_len bench.old.servers }
    requires table { r < vec_len bench.old.tables }
    ensures begins { OnOk result (BeginsAt ⟦<Srv as FileServer>⟧.state limits.now r
        bench.old.servers.items bench.new.servers.items bench.old.tables.items bench.new.tables.items
        begun.old.seats.items begun.new.seats.items begun.old.met.items begun.new.met.items
        begun.old.lines.items begun.new.lines.items) }
    ensures servers { (n : ℕ) → r < n → AreLater ⟦<Srv as FileServer>⟧.state n
        bench.old.servers.items bench.new.servers.items }
    ensures tables { vec_len bench.new.tables ≡ vec_len bench.old.tables }
    ensures downs { bench.new.downs ≡ bench.old.downs }
{
    match fresh_at(alloc, bench, r as usize, limits) {
        Ok(replica) => push_seat(&mut begun.seats, Seat::Live(replica))?,
        Err(WrapErr::Down) => {
            push_seat(&mut begun.seats, Seat::Down)?;
            push_line(&mut begun.lines, Line::Down { r })?;
            let point = FaultPoint {
                event: 0,
                stage: 0,
                replica: r,
            };
            push_point(&mut begun.met, point)?;
        }
        Err(WrapErr::NoMemory) => return Err(NoMemory),
    }
    Ok(())
}

/// Begins so many replicas over the first positions of the bench, each server with an empty table.
pub fn begin_all(
    alloc: Global,
    bench: &mut Bench,
    limits: &Limits,
    replicas: u32,
) -> Result<Begun, NoMemory>
    requires within { AreWithin limits.now }
    requires size { IsTreeSize limits.now.n }
    requires enough { replicas ≤ vec_len bench.old.servers }
    requires room { HaveRoom ⟦<Srv as FileServer>⟧.state limits.now bench.old.servers.items }
    ensures begun { IfOk result (λ begun. HaveBegun ⟦<Srv as FileServer>⟧.state limits.now replicas
        bench.old.servers.items bench.new.servers.items bench.new.tables.items
        begun.seats.items begun.met.items begun.lines.items) }
    ensures downs { bench.new.downs.items ≡ [] }
    ensures servers { AreLater ⟦<Srv as FileServer>⟧.state replicas
        bench.old.servers.items bench.new.servers.items }
{
    prepare(alloc, bench)?;
    let mut begun = Begun {
        seats: Vec::new(alloc),
        met: Vec::new(alloc),
        lines: Vec::new(alloc),
    };
    for r in 0..replicas {
        begin(alloc, bench, limits, r, &mut begun)?;
    }
    Ok(begun)
}
