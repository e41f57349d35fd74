//! How many blocks a change writes, and how often the live records move to the other half.

ghost use Rattle.std.specs.Prelude.{◌≤◌, OnOk};
ghost use Rattle.server_trait.specs.Step.{HasTree};
ghost use Rattle.log_held.specs.Room.{IsLarge};

use super::chunks::put_chunk;
use super::counting::Counting;
use log_server::LogServer;
use outside::MemMedium;
use server_trait::{FileServer, ServerLimits};
use std::alloc::Global;
use std::test::Fail;

/// How often 480 bytes are written, which is one record each time.
const TIMES: u32 = 6_000;

/// The records of the root, of a file and of its name.
const OTHERS: u64 = 3;

/// Makes a file, and writes its chunks in turn.
fn rewrite<S: FileServer>(server: &mut S, chunks: u32) -> Result<(), Fail>
    requires some { 1 ≤ chunks }
    requires few { chunks ≤ 1000 }
    ensures { OnOk result (HasTree (S.state server.new)) }
{
    server.wipe()?;
    let root = server.root();
    let file = server.create(&root, b"file")?;
    for time in 0..TIMES {
        put_chunk(server, &file, 480 * (time % chunks), (time % 251) as u8)?;
    }
    Ok(())
}

/// How many blocks were written, and how often block 0 was.
#[derive(Clone, Copy, Debug)]
struct Cost {
    writes: u64,
    turns: u64,
}

/// What it costs to write a file over and over that has all the bytes of the limits.
fn cost_of(alloc: Global, limits: ServerLimits, blocks: u32, chunks: u32) -> Result<Cost, Fail>
    requires some { 1 ≤ chunks }
    requires few { chunks ≤ 1000 }
    requires large { IsLarge limits blocks }
{
    let medium = Counting::new(MemMedium::new(alloc, blocks, Vec::new(alloc)));
    let mut server = LogServer::new(alloc, medium, limits);
    rewrite(&mut server, chunks)?;
    let medium = server.into_medium();
    Ok(Cost {
        writes: medium.writes,
        turns: medium.turns,
    })
}

/// Whether a change writes two blocks, but for those that a move to the other half writes: the records that stay, an
/// end mark and block 0. A wipe writes two blocks.
fn is_cheap(cost: Cost, chunks: u64) -> bool {
    let records = u64::from(TIMES) + OTHERS;
    let moves = cost.turns.saturating_sub(1);
    let moved = moves.saturating_mul(chunks.saturating_add(OTHERS + 2));
    cost.writes <= (2 * records + 2).saturating_add(moved)
}

/// Whether records move at most once in 60 changes and two more for each node of the limits.
fn is_rare(cost: Cost, nodes: u64) -> bool {
    let least = nodes.saturating_mul(2).saturating_add(60);
    cost.turns.saturating_sub(1).saturating_mul(least) <= u64::from(TIMES) + OTHERS
}

#[test]
fn one_chunk_is_written_over_and_over(rt: HostRuntime) -> Result<(), Fail> {
    let limits = ServerLimits {
        nodes: 2,
        bytes: 992,
    };
    let cost = cost_of(rt.alloc(), limits, 151, 1)?;
    assert!(rt; is_cheap(cost, 1) && is_rare(cost, 2), "{cost:?}");
    Ok(())
}

#[test]
fn five_hundred_chunks_are_written_in_turn(rt: HostRuntime) -> Result<(), Fail> {
    let limits = ServerLimits {
        nodes: 2,
        bytes: 240_512,
    };
    let cost = cost_of(rt.alloc(), limits, 2023, 500)?;
    assert!(rt; is_cheap(cost, 500) && is_rare(cost, 2), "{cost:?}");
    Ok(())
}
