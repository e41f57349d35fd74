//! A path server behind the interface, through tables of calls.

mod calls;
mod case;
mod many;
mod tables;

use case::all_hold;
use server_trait::ServerLimits;
use std::test::Fail;

const ROOMY: ServerLimits = ServerLimits {
    nodes: 16,
    bytes: 4096,
};

/// Room for two nodes beside the root.
const TWO_NODES: ServerLimits = ServerLimits {
    nodes: 3,
    bytes: 4096,
};

/// Room for two names.
const TWO_NAMES: ServerLimits = ServerLimits {
    nodes: 16,
    bytes: 1024,
};

/// Room for ten bytes beside two names.
const TEN_BYTES: ServerLimits = ServerLimits {
    nodes: 16,
    bytes: 1034,
};

/// The same for two nodes beside the root.
const TWO_NODES_TEN_BYTES: ServerLimits = ServerLimits {
    nodes: 3,
    bytes: 1034,
};

#[test]
fn names(rt: HostRuntime) -> Result<(), Fail> {
    all_hold(rt.alloc(), ROOMY, &tables::NAMES)
}

#[test]
fn lists(rt: HostRuntime) -> Result<(), Fail> {
    all_hold(rt.alloc(), ROOMY, &tables::LISTS)
}

#[test]
fn files(rt: HostRuntime) -> Result<(), Fail> {
    all_hold(rt.alloc(), ROOMY, &tables::FILES)
}

#[test]
fn links(rt: HostRuntime) -> Result<(), Fail> {
    all_hold(rt.alloc(), ROOMY, &tables::LINKS)
}

#[test]
fn attributes(rt: HostRuntime) -> Result<(), Fail> {
    all_hold(rt.alloc(), ROOMY, &tables::ATTRIBUTES)
}

#[test]
fn full(rt: HostRuntime) -> Result<(), Fail> {
    all_hold(rt.alloc(), TWO_NODES, &tables::FULL)?;
    all_hold(rt.alloc(), TWO_NAMES, &tables::FULL)
}

#[test]
fn room(rt: HostRuntime) -> Result<(), Fail> {
    all_hold(rt.alloc(), TEN_BYTES, &tables::ROOM)
}

#[test]
fn names_added(rt: HostRuntime) -> Result<(), Fail> {
    all_hold(rt.alloc(), ROOMY, &tables::NAMES_ADDED)
}

#[test]
fn names_removed(rt: HostRuntime) -> Result<(), Fail> {
    all_hold(rt.alloc(), ROOMY, &tables::NAMES_REMOVED)
}

#[test]
fn room_given_back(rt: HostRuntime) -> Result<(), Fail> {
    all_hold(rt.alloc(), TWO_NODES_TEN_BYTES, &tables::ROOM_GIVEN_BACK)
}

#[test]
fn renames(rt: HostRuntime) -> Result<(), Fail> {
    all_hold(rt.alloc(), ROOMY, &tables::RENAMES)
}

#[test]
fn no_renames(rt: HostRuntime) -> Result<(), Fail> {
    all_hold(rt.alloc(), ROOMY, &tables::NO_RENAMES)
}
