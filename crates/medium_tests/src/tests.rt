//! The service over a server of inodes and over one on a log: each call gives what the plain machine gives.

ghost use Rattle.std.specs.Prelude.{◌≡◌};

use inode_server::InodeServer;
use log_server::LogServer;
use outside::MemMedium;
use server_trait::{ServerLimits, Srv};
use service_tables::{
    directories, files_and_links, gap, given_and_taken, gone, listed, many_names_and_a_long_chain,
    moved, named_thrice, restarted,
};
use std::alloc::Global;
use std::test::Fail;

const LIMITS: ServerLimits = ServerLimits {
    nodes: 19,
    bytes: 1_114_112,
};

const ROOMY: ServerLimits = ServerLimits {
    nodes: 515,
    bytes: 2_097_152,
};

/// A server of inodes over 4,568 blocks.
fn inodes(alloc: Global) -> Result<Srv, Fail> {
    let medium = MemMedium::new(alloc, 4568, Vec::new(alloc));
    let server: Srv = Box::new(alloc, InodeServer::new(alloc, medium, LIMITS)?)?;
    Ok(server)
}

/// A server on a log over 8,984 blocks.
fn log(alloc: Global) -> Result<Srv, Fail> {
    let medium = MemMedium::new(alloc, 8984, Vec::new(alloc));
    let server: Srv = Box::new(alloc, LogServer::new(alloc, medium, LIMITS))?;
    Ok(server)
}

#[test]
fn over_a_server_of_inodes(rt: HostRuntime) -> Result<(), Fail> {
    let alloc = rt.alloc();
    directories(alloc, inodes(alloc)?)?;
    files_and_links(alloc, inodes(alloc)?)?;
    given_and_taken(alloc, inodes(alloc)?)?;
    moved(alloc, inodes(alloc)?)?;
    restarted(alloc, inodes(alloc)?, true)
}

#[test]
fn word_for_word_over_a_server_of_inodes(rt: HostRuntime) -> Result<(), Fail> {
    let alloc = rt.alloc();
    listed(alloc, inodes(alloc)?)?;
    gap(alloc, inodes(alloc)?)?;
    named_thrice(alloc, inodes(alloc)?)?;
    gone(alloc, inodes(alloc)?)
}

#[test]
fn over_a_server_on_a_log(rt: HostRuntime) -> Result<(), Fail> {
    let alloc = rt.alloc();
    directories(alloc, log(alloc)?)?;
    files_and_links(alloc, log(alloc)?)?;
    given_and_taken(alloc, log(alloc)?)?;
    moved(alloc, log(alloc)?)?;
    restarted(alloc, log(alloc)?, false)
}

#[test]
fn word_for_word_over_a_server_on_a_log(rt: HostRuntime) -> Result<(), Fail> {
    let alloc = rt.alloc();
    listed(alloc, log(alloc)?)?;
    gap(alloc, log(alloc)?)?;
    named_thrice(alloc, log(alloc)?)?;
    gone(alloc, log(alloc)?)
}

#[test]
fn many_names(rt: HostRuntime) -> Result<(), Fail> {
    let alloc = rt.alloc();
    let medium = MemMedium::new(alloc, 12_376, Vec::new(alloc));
    let server: Srv = Box::new(alloc, InodeServer::new(alloc, medium, ROOMY)?)?;
    many_names_and_a_long_chain(alloc, server)?;
    let medium = MemMedium::new(alloc, 20_632, Vec::new(alloc));
    let server: Srv = Box::new(alloc, LogServer::new(alloc, medium, ROOMY))?;
    many_names_and_a_long_chain(alloc, server)
}
