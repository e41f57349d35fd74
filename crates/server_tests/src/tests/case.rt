//! Calls on a boxed server, with what they are to answer.

ghost use Rattle.std.specs.Prelude.{◌≤◌, OnOk};
ghost use Rattle.server_trait.specs.Step.{HasTree};

use super::calls::{
    Answer, attr_of, attr_set, bytes_at, created, emptied, found, linked, listed, made, named,
    renamed, sized, text_of, unnamed, wrote,
};
use nfs2_types::{Handle, Kind};
use path_server::PathServer;
use server_trait::{FileServer, Listed, NodeAttr, ServerLimits, Srv};
use std::alloc::Global;
use std::test::Fail;

/// A call with what it is to answer. Nodes go by their serial numbers: the root has 1, and each new node the next. Each
/// stands at a place of its own, and a node that has the place of one that went has a hundred times its number besides.
#[derive(Clone, Copy)]
pub enum Case {
    Mkdir(u64, &'static [u8], Answer<u64>),
    Create(u64, &'static [u8], Answer<u64>),
    Symlink(u64, &'static [u8], &'static [u8], Answer<u64>),
    Lookup(u64, &'static [u8], Answer<u64>),
    List(u64, Answer<&'static [(&'static [u8], u64)]>),
    Write(u64, u32, &'static [u8], Answer<u32>),
    SetSize(u64, u32, Answer<()>),
    Read(u64, u32, u32, Answer<&'static [u8]>),
    ReadLink(u64, Answer<&'static [u8]>),
    Link(u64, u64, &'static [u8], Answer<()>),
    Remove(u64, &'static [u8], Answer<()>),
    Rmdir(u64, &'static [u8], Answer<()>),
    Rename(u64, &'static [u8], u64, &'static [u8], Answer<()>),
    SetAttr(u64, u32, u32, u32),
    Attr(u64, Answer<(Kind, u32, u32, u32, u32, u32)>),
}

/// The handle of a node: zeros, and eight bytes each for its serial number and its place, the most significant first.
pub fn handle(node: u64) -> Handle {
    let serial = node % 100;
    let first = if node < 100 { serial } else { node / 100 };
    let mut handle = [0; 32];
    handle[8..16].copy_from_slice(&serial.to_be_bytes());
    handle[16..24].copy_from_slice(&first.saturating_sub(1).to_be_bytes());
    handle
}

/// Whether bytes are as wanted.
fn same_bytes(answer: Answer<Vec<u8>>, wanted: Answer<&[u8]>) -> bool {
    match (answer, wanted) {
        (Ok(bytes), Ok(wanted)) => bytes.as_slice() == wanted,
        (Err(error), Err(wanted)) => error == wanted,
        _ => false,
    }
}

/// Whether names are as wanted, in any order.
fn same_names(answer: Answer<Vec<Listed>>, wanted: Answer<&[(&[u8], u64)]>) -> bool {
    match (answer, wanted) {
        (Ok(rows), Ok(wanted)) => {
            rows.len() == wanted.len()
                && wanted.iter().all(|(name, serial)| {
                    let node = handle(*serial);
                    rows.iter()
                        .any(|row| row.name.as_slice() == *name && row.handle == node)
                })
        }
        (Err(error), Err(wanted)) => error == wanted,
        _ => false,
    }
}

/// Whether a node is as wanted: its kind, mode and owners, its size and its links.
fn same_attr(answer: Answer<NodeAttr>, wanted: Answer<(Kind, u32, u32, u32, u32, u32)>) -> bool {
    match (answer, wanted) {
        (Ok(a), Ok(wanted)) => (a.kind, a.mode, a.uid, a.gid, a.size, a.links) == wanted,
        (Err(error), Err(wanted)) => error == wanted,
        _ => false,
    }
}

/// Whether a handle is that of a serial number.
fn same_node(answer: Answer<Handle>, wanted: Answer<u64>) -> bool {
    match (answer, wanted) {
        (Ok(found), Ok(node)) => found == handle(node),
        (Err(error), Err(wanted)) => error == wanted,
        _ => false,
    }
}

/// Whether a call answers as wanted.
fn holds(server: &mut Srv, case: Case) -> Result<bool, Fail>
    requires { HasTree (⟦<Srv as FileServer>⟧.state server.old) }
    ensures { OnOk result (HasTree (⟦<Srv as FileServer>⟧.state server.new)) }
{
    match case {
        Case::Mkdir(dir, name, wanted) => {
            Ok(same_node(made(server, &handle(dir), name)?, wanted))
        }
        Case::Create(dir, name, wanted) => {
            Ok(same_node(created(server, &handle(dir), name)?, wanted))
        }
        Case::Symlink(dir, name, text, wanted) => Ok(same_node(
            linked(server, &handle(dir), name, text)?,
            wanted,
        )),
        Case::Lookup(dir, name, wanted) => {
            Ok(same_node(found(server, &handle(dir), name)?, wanted))
        }
        Case::List(dir, wanted) => Ok(same_names(listed(server, &handle(dir))?, wanted)),
        Case::Write(file, offset, piece, wanted) => {
            Ok(wrote(server, &handle(file), offset, piece)? == wanted)
        }
        Case::SetSize(file, size, wanted) => { Ok(sized(server, &handle(file), size)? == wanted) }
        Case::Read(file, offset, count, wanted) => Ok(same_bytes(
            bytes_at(server, &handle(file), offset, count)?,
            wanted,
        )),
        Case::ReadLink(link, wanted) => Ok(same_bytes(text_of(server, &handle(link))?, wanted)),
        Case::Link(node, dir, name, wanted) => {
            Ok(named(server, &handle(node), &handle(dir), name)? == wanted)
        }
        Case::Remove(dir, name, wanted) => Ok(unnamed(server, &handle(dir), name)? == wanted),
        Case::Rmdir(dir, name, wanted) => Ok(emptied(server, &handle(dir), name)? == wanted),
        Case::Rename(from, name, to, to_name, wanted) => {
            Ok(renamed(server, &handle(from), name, &handle(to), to_name)? == wanted)
        }
        Case::SetAttr(node, mode, uid, gid) => {
            Ok(attr_set(server, &handle(node), mode, uid, gid)? == Ok(()))
        }
        Case::Attr(node, wanted) => Ok(same_attr(attr_of(server, &handle(node))?, wanted)),
    }
}

/// Which of the calls answers otherwise.
fn first_odd(server: &mut Srv, cases: &[Case]) -> Result<Option<usize>, Fail>
    requires { HasTree (⟦<Srv as FileServer>⟧.state server.old) }
    ensures { OnOk result (HasTree (⟦<Srv as FileServer>⟧.state server.new)) }
{
    for (at, case) in cases.iter().enumerate() {
        if !holds(server, *case)? {
            return Ok(Some(at));
        }
    }
    Ok(None)
}

/// Fails unless each of the calls on a server that was wiped once answers as wanted.
pub fn all_hold(alloc: Global, limits: ServerLimits, cases: &[Case]) -> Result<(), Fail>
    requires { limits.bytes ≤ 1073741824 }
{
    let Ok(server) = PathServer::new(alloc, limits) else {
        return Err("new".into());
    };
    let mut server: Srv = Box::new(alloc, server)?;
    let Ok(()) = server.wipe() else {
        return Err("wipe".into());
    };
    match first_odd(&mut server, cases)? {
        None => Ok(()),
        Some(at) => Err(format!(in alloc; "another answer to the call {at}")?.into()),
    }
}
