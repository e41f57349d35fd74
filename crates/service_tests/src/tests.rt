//! The service over a path server, and over one that does no more than it must: each call gives what the plain machine
//! gives, with each refusal and each effect of RFC 1094, 2.2.

ghost use Rattle.std.specs.Prelude.{◌≤◌};

use path_server::PathServer;
use reluctant_server::Reluctant;
use server_trait::{ServerLimits, Srv};
use service_tables::{
    directories, files_and_links, gap, given_and_taken, gone, listed, many_names_and_a_long_chain,
    moved, named_thrice, restarted,
};
use std::alloc::Global;
use std::test::Fail;

const LIMITS: ServerLimits = ServerLimits {
    nodes: 19,
    bytes: 1_114_112,
};

/// A path server.
fn path_server(alloc: Global, limits: ServerLimits) -> Result<PathServer, Fail>
    requires { limits.bytes ≤ 1073741824 }
{
    match PathServer::new(alloc, limits) {
        Ok(server) => Ok(server),
        Err(_) => Err("no memory".into()),
    }
}

/// A path server that is large enough.
fn path(alloc: Global) -> Result<Srv, Fail> {
    let server: Srv = Box::new(alloc, path_server(alloc, LIMITS)?)?;
    Ok(server)
}

/// The same behind one that does no more than it must.
fn reluctant(alloc: Global) -> Result<Srv, Fail> {
    let server: Srv = Box::new(alloc, Reluctant::new(path_server(alloc, LIMITS)?))?;
    Ok(server)
}

#[test]
fn over_a_path_server(rt: HostRuntime) -> Result<(), Fail> {
    let alloc = rt.alloc();
    directories(alloc, path(alloc)?)?;
    files_and_links(alloc, path(alloc)?)?;
    given_and_taken(alloc, path(alloc)?)?;
    moved(alloc, path(alloc)?)
}

#[test]
fn over_a_reluctant_server(rt: HostRuntime) -> Result<(), Fail> {
    let alloc = rt.alloc();
    directories(alloc, reluctant(alloc)?)?;
    files_and_links(alloc, reluctant(alloc)?)?;
    given_and_taken(alloc, reluctant(alloc)?)?;
    moved(alloc, reluctant(alloc)?)
}

#[test]
fn with_restarts(rt: HostRuntime) -> Result<(), Fail> {
    let alloc = rt.alloc();
    restarted(alloc, path(alloc)?, true)?;
    restarted(alloc, reluctant(alloc)?, true)
}

#[test]
fn word_for_word(rt: HostRuntime) -> Result<(), Fail> {
    let alloc = rt.alloc();
    listed(alloc, path(alloc)?)?;
    gap(alloc, path(alloc)?)?;
    named_thrice(alloc, path(alloc)?)?;
    gone(alloc, path(alloc)?)
}

#[test]
fn many_names(rt: HostRuntime) -> Result<(), Fail> {
    let alloc = rt.alloc();
    let roomy = ServerLimits {
        nodes: 515,
        bytes: 2_097_152,
    };
    let server: Srv = Box::new(alloc, path_server(alloc, roomy)?)?;
    many_names_and_a_long_chain(alloc, server)
}
