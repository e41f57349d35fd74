//! Servers with their tables.

ghost use Rattle.std.specs.Prelude.{◌≡◌, []};
ghost use Rattle.std.specs.BTreeMap as ordered;

use crate::server::Srv;
use nfs2_types::{Handle, NoMemory, Time};
use std::alloc::{AllocError, AllocFailed, Global};
use std::collections::BTreeMap;

/// What is kept of an entry beside its node: its generation, its node's handle and number, the index of the directory
/// that names it (for a directory alone), and its three times. An entry that is null has no handle.
#[derive(Clone, Copy, Debug)]
pub struct ConfEntry {
    pub generation: u32,
    pub handle: Option<Handle>,
    pub number: u64,
    pub parent: u32,
    pub atime: Time,
    pub mtime: Time,
    pub ctime: Time,
}

/// What is kept beside a server: a row for each entry, and where each handle stands. `used` is the number of bytes that
/// all entries use, and no row below `lowest` is free for a new object.
#[derive(Drop)]
pub struct ConfTable {
    pub rows: Vec<ConfEntry>,
    pub by_handle: BTreeMap<Handle, u32>,
    pub used: u64,
    pub lowest: u32,
}

impl ConfTable {
    /// A table without rows. It takes no memory.
    pub fn empty(alloc: Global) -> ConfTable
        ensures rows { result.rows.items ≡ [] }
        ensures by_handle { ordered.IsEmpty result.by_handle }
        ensures used { result.used ≡ 0 }
        ensures lowest { result.lowest ≡ 0 }
    {
        ConfTable {
            rows: Vec::new(alloc),
            by_handle: BTreeMap::new(alloc),
            used: 0,
            lowest: 0,
        }
    }
}

/// Where a server failed: the number of the event, 0 for the start; the stage within it; and the replica.
#[derive(Clone, Copy, Debug, PartialEq, Eq)]
pub struct FaultPoint {
    pub event: u64,
    pub stage: u64,
    pub replica: u32,
}

/// Servers, the table of each, and where they failed.
#[derive(Drop)]
pub struct Bench {
    pub servers: Vec<Srv>,
    pub tables: Vec<ConfTable>,
    pub downs: Vec<FaultPoint>,
}

/// Why a call on a wrapped server fails: the server did, or memory was wanting.
#[derive(Clone, Copy, Debug, PartialEq, Eq)]
pub enum WrapErr {
    Down,
    NoMemory,
}

impl From<NoMemory> for WrapErr {
    ghost use Rattle.server_trait.specs.declared.bench.WrapErr.{WrapErr};
    ghost use Rattle.server_trait.specs.declared.bench.WrapErr.TheVariants as errors;

    ghost from_gives = { λ _ (e : WrapErr). e ≡ errors.NoMemory };

    fn from(_: NoMemory) -> WrapErr {
        WrapErr::NoMemory
    }
}

impl From<AllocError> for WrapErr {
    ghost use Rattle.server_trait.specs.declared.bench.WrapErr.{WrapErr};
    ghost use Rattle.server_trait.specs.declared.bench.WrapErr.TheVariants as errors;

    ghost from_gives = { λ _ (e : WrapErr). e ≡ errors.NoMemory };

    fn from(_: AllocError) -> WrapErr {
        WrapErr::NoMemory
    }
}

impl<T: Drop> From<AllocFailed<T>> for WrapErr {
    ghost use Rattle.server_trait.specs.declared.bench.WrapErr.{WrapErr};
    ghost use Rattle.server_trait.specs.declared.bench.WrapErr.TheVariants as errors;

    ghost from_gives = { λ _ (e : WrapErr). e ≡ errors.NoMemory };

    fn from(_: AllocFailed<T>) -> WrapErr {
        WrapErr::NoMemory
    }
}

impl Bench {
    /// A bench of these servers, without tables and without fault points. It takes no memory.
    pub fn new(alloc: Global, servers: Vec<Srv>) -> Bench
        ensures servers { result.servers ≡ servers }
        ensures tables { result.tables.items ≡ [] }
        ensures downs { result.downs.items ≡ [] }
    {
        Bench {
            servers,
            tables: Vec::new(alloc),
            downs: Vec::new(alloc),
        }
    }
}
