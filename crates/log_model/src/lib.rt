//! Logs of random records, and the lines that a model of the rules has for them.
//!
//! The model is plain data. Its own are the arrays and what a request does to them, the texts that are digested,
//! replicas, checkpoints, votes, lies, transfers and lines, and how requests and records are spelled. Taken over are
//! SHA-256 and the digits of hexadecimal. No server fails here. There are 16 entries, so one node; names have one
//! letter, and callers no credential.
#![tactic(auto)]

mod ballots;
mod dice;
mod draws;
mod holdings;
mod items;
mod model;
mod objects;
mod records;
mod requests;
mod service;
mod spelling;

use dice::Dice;
use draws::{Crew, Draws};
use holdings::Limits;
use model::Model;
use records::Record;
use spelling::put_words;
use std::alloc::{AllocError, Global};

/// The shape of a log.
#[derive(Clone, Copy, Debug)]
struct Shape {
    limits: Limits,
    crew: Crew,
    records: u32,
}

/// f is 0, 1 or 2, and a checkpoint comes each 1 to 4 requests. In one of two logs each replica may be harmed, else f
/// of them. One of five logs is slow: 2f + 1 replicas take most turns, one by one, with a checkpoint at each request.
fn shape_of(seed: u64, dice: &mut Dice) -> Shape {
    let f = u32::try_from(seed % 5).unwrap_or(0).div_ceil(2);
    let most = if dice.one_in(4) { 2048 } else { 65536 };
    let replicas = f.saturating_mul(3).saturating_add(1);
    let victims = if dice.one_in(2) { replicas } else { f.max(1) };
    let is_slow = f > 0 && dice.one_in(5);
    let interval = if is_slow {
        1
    } else {
        u32::try_from(seed / 5 % 4).unwrap_or(0).saturating_add(1)
    };
    let runners = if is_slow {
        f.saturating_mul(2).saturating_add(1)
    } else {
        replicas
    };
    let crew = Crew {
        replicas,
        victims,
        spares: 2,
        runners,
    };
    Shape {
        limits: Limits { f, interval, most },
        crew,
        records: dice.below(31).saturating_add(10),
    }
}

/// A log, the lines that the model has for it, and the servers that it asks for: of each position a number below 3 that
/// says which kind of server stands there.
#[derive(Drop)]
pub struct Course {
    pub log: Vec<u8>,
    pub lines: Vec<u8>,
    pub kinds: Vec<u32>,
}

/// The kinds of so many servers.
fn kinds_of(alloc: Global, dice: &mut Dice, count: u32) -> Result<Vec<u32>, AllocError> {
    let mut kinds = Vec::new(alloc);
    for _ in 0..count {
        kinds.push(dice.below(3))?;
    }
    Ok(kinds)
}

/// Draws a log from a number, the same at each call. Errors: NoMemory.
pub fn course_of(alloc: Global, seed: u64) -> Result<Course, AllocError> {
    let mut dice = Dice::new(seed);
    let shape = shape_of(seed, &mut dice);
    let servers = shape.crew.replicas.saturating_add(shape.crew.spares);
    let kinds = kinds_of(alloc, &mut dice, servers)?;
    let Limits { f, interval, most } = shape.limits;
    let mut log = Vec::new(alloc);
    put_words(&mut log, &[0x42415345, 0x4c4f4731, f, 16, interval, most])?;
    let mut model = Model::new(alloc, shape.limits)?;
    let mut draws = Draws::new(alloc, dice, shape.crew);
    for _ in 0..shape.records {
        let record = draws.next()?;
        record.put(alloc, &mut log)?;
        model.step(&record)?;
    }
    Record::End.put(alloc, &mut log)?;
    model.step(&Record::End)?;
    Ok(Course {
        log,
        lines: model.lines,
        kinds,
    })
}
