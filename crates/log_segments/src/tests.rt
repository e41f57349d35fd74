//! A log through compactions and a replay, over any medium and at one over memory.

ghost use Rattle.std.specs.Prelude.{◌≡◌, ◌<◌, ◌≤◌, false, OnOk};
ghost use Rattle.log_segments.specs.Record.{is_end};
ghost use Rattle.log_segments.specs.Segments.{half_of, IsLog};

use super::*;
use nfs2_types::NoMemory;
use outside::{Block, Medium, MediumErr, MemMedium};
use std::alloc::Global;
use std::test::Fail;

/// A record of a key of one byte, with one byte of value.
fn record(mark: u8, key: u8, value: u8) -> Block
    requires { 0 < mark }
    ensures { is_end result ≡ false }
{
    let mut block = [0; 512];
    block[0] = mark;
    block[2] = 1;
    block[3] = key;
    block[4] = value;
    block
}

/// Puts a record, after a compaction where the half is full.
#[tactic(auto, using(crate::proofs::Puts::length_live))]
fn put_in<M: Medium>(log: &mut Log<M>, block: &Block) -> Result<(), MediumErr>
    requires log { IsLog M.content M.size log.old }
    requires block { is_end block.now ≡ false }
    ensures log { OnOk result (IsLog M.content M.size log.new) }
    ensures half { half_of M.size log.new ≡ half_of M.size log.old }
{
    if log.half().saturating_sub(log.len()) == 1 {
        log.compact()?;
    }
    if log.half().saturating_sub(log.len()) < 2 {
        return Err(MediumErr::NoMemory);
    }
    log.put(block)?;
    Ok(())
}

/// Puts 200 records of five keys in turn, takes the key 3 away, and reads the log anew.
fn fill<M: Medium>(log: &mut Log<M>) -> Result<(), MediumErr>
    requires { 1 ≤ half_of M.size log.old }
    ensures { OnOk result (IsLog M.content M.size log.new) }
{
    log.clear()?;
    for turn in 0u8..200 {
        put_in(log, &record(2, turn % 5, turn))?;
    }
    put_in(log, &record(1, 3, 0))?;
    log.replay()?;
    Ok(())
}

/// The value under a key.
fn value_of<M: Medium>(alloc: Global, log: &mut Log<M>, key: u8) -> Result<Option<u8>, MediumErr>
    requires { IsLog M.content M.size log.old }
    ensures { IsLog M.content M.size log.new }
{
    let key = Key::from_slice(alloc, &[key])?;
    match log.find(&key)? {
        Some(block) => Ok(Some(block[4])),
        None => Ok(None),
    }
}

/// How many records are live, place by place.
fn live_count<M: Medium>(log: &mut Log<M>) -> Result<u32, MediumErr>
    requires { IsLog M.content M.size log.old }
    ensures { IsLog M.content M.size log.new }
{
    let mut count = 0;
    for place in 0..log.len() {
        if log.live_at(place)?.is_some() {
            count += 1;
        }
    }
    Ok(count)
}

#[test]
fn the_newest_of_each_key_stays(rt: HostRuntime) -> Result<(), Fail> {
    let alloc = rt.alloc();
    let mut log = Log::new(alloc, MemMedium::new(alloc, 21, Vec::new(alloc)));
    fill(&mut log)?;
    assert_eq!(rt; value_of(alloc, &mut log, 0)?, Some(195));
    assert_eq!(rt; value_of(alloc, &mut log, 1)?, Some(196));
    assert_eq!(rt; value_of(alloc, &mut log, 2)?, Some(197));
    assert_eq!(rt; value_of(alloc, &mut log, 3)?, None);
    assert_eq!(rt; value_of(alloc, &mut log, 4)?, Some(199));
    assert_eq!(rt; live_count(&mut log)?, 4);
    Ok(())
}
