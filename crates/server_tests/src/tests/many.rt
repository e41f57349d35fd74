//! A directory of three hundred names, and a chain of forty directories with names of 255 bytes.

ghost use Rattle.std.specs.Prelude.{OnOk};
ghost use Rattle.server_trait.specs.Step.{HasTree};

use super::calls::{created, found, listed, made, renamed};
use super::case::handle;
use nfs2_types::Handle;
use path_server::PathServer;
use server_trait::{FileServer, ServerLimits, Srv};
use std::alloc::Global;
use std::test::Fail;

const MANY: u32 = 300;

const DEPTH: u32 = 40;

/// The name of a number.
fn name_of(alloc: Global, number: u32) -> Result<Vec<u8>, Fail> {
    let text = format!(in alloc; "n{number}")?;
    Ok(Vec::from_slice(alloc, text.as_bytes())?)
}

/// The name of a number, of 255 bytes.
fn long_name(alloc: Global, number: u32) -> Result<Vec<u8>, Fail> {
    let mut name = name_of(alloc, number)?;
    name.resize(255, b'x')?;
    Ok(name)
}

/// Makes a name of a directory lead to a file, or to a directory with a file below it.
fn put(server: &mut Srv, dir: &Handle, name: &[u8], number: u32) -> Result<(), Fail>
    requires { HasTree (⟦<Srv as FileServer>⟧.state server.old) }
    ensures { OnOk result (HasTree (⟦<Srv as FileServer>⟧.state server.new)) }
{
    if number % 10 != 0 {
        let Ok(_) = created(server, dir, name)? else {
            return Err("a file".into());
        };
        return Ok(());
    }
    let Ok(below) = made(server, dir, name)? else {
        return Err("a directory".into());
    };
    let Ok(_) = created(server, &below, b"below")? else {
        return Err("a file below".into());
    };
    Ok(())
}

/// Fills a directory with the names of all numbers.
fn filled(alloc: Global, server: &mut Srv, dir: &Handle) -> Result<(), Fail>
    requires { HasTree (⟦<Srv as FileServer>⟧.state server.old) }
    ensures { OnOk result (HasTree (⟦<Srv as FileServer>⟧.state server.new)) }
{
    for number in 0..MANY {
        let name = name_of(alloc, number)?;
        put(server, dir, &name, number)?;
    }
    Ok(())
}

/// Whether a directory has just the names of all numbers.
fn lists_all(alloc: Global, server: &mut Srv, dir: &Handle) -> Result<bool, Fail>
    requires { HasTree (⟦<Srv as FileServer>⟧.state server.old) }
    ensures { OnOk result (HasTree (⟦<Srv as FileServer>⟧.state server.new)) }
{
    let Ok(rows) = listed(server, dir)? else {
        return Ok(false);
    };
    for number in 0..MANY {
        let name = name_of(alloc, number)?;
        if !rows
            .iter()
            .any(|row| row.name.as_slice() == name.as_slice())
        {
            return Ok(false);
        }
    }
    Ok(rows.len() == MANY as usize)
}

/// Makes a chain of directories below one, and gives the last.
fn chained(alloc: Global, server: &mut Srv, top: &Handle) -> Result<Handle, Fail>
    requires { HasTree (⟦<Srv as FileServer>⟧.state server.old) }
    ensures { OnOk result (HasTree (⟦<Srv as FileServer>⟧.state server.new)) }
{
    let mut dir = *top;
    for number in 0..DEPTH {
        let name = long_name(alloc, number)?;
        let Ok(next) = made(server, &dir, &name)? else {
            return Err("a directory of the chain".into());
        };
        dir = next;
    }
    Ok(dir)
}

/// Where the names of a chain lead from its second directory on.
fn walked(alloc: Global, server: &mut Srv, second: &Handle) -> Result<Handle, Fail>
    requires { HasTree (⟦<Srv as FileServer>⟧.state server.old) }
    ensures { OnOk result (HasTree (⟦<Srv as FileServer>⟧.state server.new)) }
{
    let mut dir = *second;
    for number in 1..DEPTH {
        let name = long_name(alloc, number)?;
        let Ok(next) = found(server, &dir, &name)? else {
            return Err("a name of the chain".into());
        };
        dir = next;
    }
    Ok(dir)
}

/// A server with much room.
fn roomy(alloc: Global) -> Result<PathServer, Fail> {
    let limits = ServerLimits {
        nodes: 512,
        bytes: 1_048_576,
    };
    match PathServer::new(alloc, limits) {
        Ok(server) => Ok(server),
        Err(_) => Err("new".into()),
    }
}

#[test]
fn many_names(rt: HostRuntime) -> Result<(), Fail> {
    let mut server: Srv = Box::new(rt.alloc(), roomy(rt.alloc())?)?;
    let Ok(()) = server.wipe() else {
        return Err("wipe".into());
    };
    filled(rt.alloc(), &mut server, &handle(1))?;
    assert!(rt; lists_all(rt.alloc(), &mut server, &handle(1))?);
    Ok(())
}

#[test]
fn long_chain(rt: HostRuntime) -> Result<(), Fail> {
    let mut server: Srv = Box::new(rt.alloc(), roomy(rt.alloc())?)?;
    let Ok(()) = server.wipe() else {
        return Err("wipe".into());
    };
    let last = chained(rt.alloc(), &mut server, &handle(1))?;
    assert_eq!(rt; last, handle(41));
    let top = long_name(rt.alloc(), 0)?;
    let moved = renamed(&mut server, &handle(1), &top, &handle(1), b"moved")?;
    assert_eq!(rt; moved, Ok(()));
    assert_eq!(rt; found(&mut server, &handle(1), &top)?, Err("no entry"));
    assert_eq!(rt; found(&mut server, &handle(1), b"moved")?, Ok(handle(2)));
    assert_eq!(rt; walked(rt.alloc(), &mut server, &handle(2))?, last);
    Ok(())
}
