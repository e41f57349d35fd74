//! That the server does no more than it must.

ghost use Rattle.std.specs.Prelude.{◌≡◌, ◌≤◌, ◌+◌, true, IfOk, OnOk, length};
ghost use Rattle.nfs2_types.specs.Names.{is_name};
ghost use Rattle.server_trait.specs.Step.{HasTree};

use crate::Reluctant;
use nfs2_types::Handle;
use path_server::PathServer;
use server_trait::{FileServer, Listed, ServerLimits, Srv, SrvErr};
use std::alloc::Global;
use std::test::Fail;

/// A server with an empty root.
fn reluctant(alloc: Global) -> Result<Srv, Fail>
    ensures { IfOk result (λ s. HasTree (⟦<Srv as FileServer>⟧.state s)) }
{
    let limits = ServerLimits {
        nodes: 8,
        bytes: 65_536,
    };
    let Ok(inner) = PathServer::new(alloc, limits) else {
        return Err("no memory".into());
    };
    let mut server: Srv = Box::new(alloc, Reluctant::new(inner))?;
    match server.wipe() {
        Ok(()) => Ok(server),
        Err(_) => Err("wipe".into()),
    }
}

fn created(server: &mut Srv, dir: &Handle, name: &[u8]) -> Result<Handle, Fail>
    requires tree { HasTree (⟦<Srv as FileServer>⟧.state server.old) }
    requires name { is_name name.now ≡ true }
    ensures { OnOk result (HasTree (⟦<Srv as FileServer>⟧.state server.new)) }
{
    match server.create(dir, name) {
        Ok(handle) => Ok(handle),
        Err(_) => Err("create".into()),
    }
}

/// How many bytes of a piece were taken; none where the server refused.
fn taken(server: &mut Srv, file: &Handle, offset: u32, piece: &[u8]) -> Result<Option<u32>, Fail>
    requires tree { HasTree (⟦<Srv as FileServer>⟧.state server.old) }
    requires some { 1 ≤ length piece.now }
    requires low { offset + length piece.now ≤ 8388608 }
    ensures { OnOk result (HasTree (⟦<Srv as FileServer>⟧.state server.new)) }
{
    match server.write(file, offset, piece) {
        Ok(count) => Ok(Some(count)),
        Err(SrvErr::Refused) => Ok(None),
        Err(_) => Err("write".into()),
    }
}

fn listed(server: &mut Srv, dir: &Handle) -> Result<Vec<Listed>, Fail>
    requires { HasTree (⟦<Srv as FileServer>⟧.state server.old) }
{
    match server.list(dir) {
        Ok(rows) => Ok(rows),
        Err(_) => Err("list".into()),
    }
}

#[test]
fn it_does_no_more_than_it_must(rt: HostRuntime) -> Result<(), Fail> {
    let alloc = rt.alloc();
    let mut server = reluctant(alloc)?;
    let root = server.root();
    let file = created(&mut server, &root, b"a")?;
    created(&mut server, &root, b"b")?;
    // Of three bytes it takes one, and none past the end.
    let first = taken(&mut server, &file, 0, b"xyz")?;
    assert!(rt; first == Some(1));
    let past = taken(&mut server, &file, 2, b"z")?;
    assert!(rt; past.is_none());
    // A PathServer lists in the order of names; this one the other way round.
    let rows = listed(&mut server, &root)?;
    assert!(rt; rows.len() == 2);
    let names: [&[u8]; 2] = [b"b", b"a"];
    for (row, name) in rows.iter().zip(names) {
        assert!(rt; row.name.as_slice() == name);
    }
    Ok(())
}
