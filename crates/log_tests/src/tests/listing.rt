//! How many blocks a list reads.

ghost use Rattle.std.specs.Prelude.{IfOk, OnOk};
ghost use Rattle.server_trait.specs.Step.{HasTree};
ghost use Rattle.log_held.specs.Room.{IsLarge};

use super::chunks::put_chunk;
use super::counting::Counting;
use log_server::LogServer;
use nfs2_types::Handle;
use outside::MemMedium;
use server_trait::{FileServer, Listed, ServerLimits};
use std::alloc::Global;
use std::test::Fail;

/// How often 480 bytes of a file beside the directory are written, which is one record each time.
const TIMES: u32 = 5_000;

const LIMITS: ServerLimits = ServerLimits {
    nodes: 8,
    bytes: 8_192,
};

/// Half of these blocks hold all records of a session.
const BLOCKS: u32 = 20_001;

/// Makes a directory with three names, and writes a file beside it over and over.
fn fill<S: FileServer>(server: &mut S) -> Result<Handle, Fail>
    ensures { OnOk result (HasTree (S.state server.new)) }
{
    server.wipe()?;
    let root = server.root();
    let dir = server.mkdir(&root, b"dir")?;
    server.create(&dir, b"a")?;
    server.create(&dir, b"b")?;
    server.create(&dir, b"c")?;
    let file = server.create(&root, b"file")?;
    for time in 0..TIMES {
        put_chunk(server, &file, 0, (time % 251) as u8)?;
    }
    Ok(dir)
}

/// Whether rows have these names in this order.
fn are_named(rows: &[Listed], names: &[&[u8]]) -> bool {
    rows.len() == names.len()
        && rows
            .iter()
            .zip(names)
            .all(|(row, name)| row.name.as_slice() == *name)
}

/// Lists the directory so many times.
fn list_often<S: FileServer>(server: &mut S, dir: &Handle, lists: u32) -> Result<(), Fail>
    requires { HasTree (S.state server.old) }
{
    for _list in 0..lists {
        let rows = server.list(dir)?;
        if !are_named(&rows, &[b"c", b"b", b"a"]) {
            return Err("the names, the newest first".into());
        }
    }
    Ok(())
}

/// How many blocks a session reads that lists so many times.
fn reads_of(alloc: Global, lists: u32) -> Result<u64, Fail> {
    let medium = Counting::new(MemMedium::new(alloc, BLOCKS, Vec::new(alloc)));
    let mut server = LogServer::new(alloc, medium, LIMITS);
    let dir = fill(&mut server)?;
    list_often(&mut server, &dir, lists)?;
    Ok(server.into_medium().reads)
}

#[test]
fn a_list_reads_a_block_for_each_name(rt: HostRuntime) -> Result<(), Fail> {
    let alloc = rt.alloc();
    let none = reads_of(alloc, 0)?;
    let ten = reads_of(alloc, 10)?;
    // The directory is looked up in memory.
    assert_eq!(rt; ten.saturating_sub(none), 10 * 3);
    Ok(())
}
