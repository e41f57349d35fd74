//! How many blocks of a medium a call reads and writes.

ghost use Rattle.std.specs.Prelude.{◌≡◌, OnOk};
ghost use Rattle.server_trait.specs.Step.{HasTree};

use super::calls::*;
use super::counting::Counting;
use super::large::name_of;
use inode_server::InodeServer;
use nfs2_types::Handle;
use outside::MemMedium;
use server_trait::{FileServer, ServerLimits};
use std::alloc::Global;

type Served = InodeServer<Counting<MemMedium>>;

/// Blocks that were read and that were written.
#[derive(Clone, Copy, Debug, PartialEq, Eq)]
struct Cost {
    reads: u64,
    writes: u64,
}

/// What a server has asked of its medium since it had asked so much.
fn since(server: &Served, before: Cost) -> Cost {
    let medium = server.medium();
    Cost {
        reads: medium.reads.saturating_sub(before.reads),
        writes: medium.writes.saturating_sub(before.writes),
    }
}

/// What a server has asked of its medium.
fn so_far(server: &Served) -> Cost {
    since(
        server,
        Cost {
            reads: 0,
            writes: 0,
        },
    )
}

/// Puts bytes into a file at an offset, by as many calls as it takes.
fn write_all<S: FileServer>(
    server: &mut S,
    file: &Handle,
    offset: u32,
    piece: &[u8],
) -> Result<(), Fail>
    requires { HasTree (S.state server.old) }
    ensures { OnOk result (HasTree (S.state server.new)) }
{
    let mut at: usize = 0;
    for _call in 0..piece.len() {
        if at >= piece.len() || piece.len() > 100_000 || offset > 1_000_000 {
            break;
        }
        at = at.saturating_add(write(server, file, offset + at as u32, &piece[at..])? as usize);
    }
    Ok(())
}

/// Puts 208 blocks into a file.
fn fill<S: FileServer>(server: &mut S, file: &Handle) -> Result<(), Fail>
    requires { HasTree (S.state server.old) }
    ensures { OnOk result (HasTree (S.state server.new)) }
{
    for part in 0..13 {
        write_all(server, file, 8192 * part, &[b'a'; 8192])?;
    }
    Ok(())
}

/// Gives a directory the names of so many numbers, which lead to one file.
fn put_names<S: FileServer>(
    alloc: Global,
    server: &mut S,
    dir: &Handle,
    file: &Handle,
    count: u32,
) -> Result<(), Fail>
    requires { HasTree (S.state server.old) }
    ensures { OnOk result (HasTree (S.state server.new)) }
{
    for number in 0..count {
        let name = name_of(alloc, number)?;
        link(server, file, dir, &name)?;
    }
    Ok(())
}

/// What a read and a write of 8,192 bytes cost, which begin within a block.
fn costs_of_bytes(server: &mut Served, file: &Handle) -> Result<[Cost; 2], Fail>
    requires { HasTree (⟦<Served as FileServer>⟧.state server.old) }
{
    let before = so_far(server);
    read(server, file, 1000, 8192)?;
    let of_read = since(server, before);
    let before = so_far(server);
    write_all(server, file, 1000, &[b'b'; 8192])?;
    Ok([of_read, since(server, before)])
}

#[test]
fn a_file_of_208_blocks(rt: HostRuntime) -> Result<(), Fail> {
    let alloc = rt.alloc();
    let limits = ServerLimits {
        nodes: 8,
        bytes: 200_000,
    };
    let medium = Counting::new(MemMedium::new(alloc, 1000, Vec::new(alloc)));
    let mut server = InodeServer::new(alloc, medium, limits)?;
    wipe(&mut server)?;
    let root = server.root();
    let file = create(&mut server, &root, b"file")?;
    fill(&mut server, &file)?;
    let [of_read, of_write] = costs_of_bytes(&mut server, &file)?;
    // Seventeen blocks, two nodes above each, and the inode.
    assert!(rt;
        of_read.reads <= 17 * 3 + 1 && of_read.writes == 0,
        "{of_read:?}"
    );
    // Seventeen blocks are changed, each by a call of its own, which reads the inode and the nodes twice.
    assert!(rt; of_write.reads <= 17 * (2 + 2 * 2 + 1), "{of_write:?}");
    assert_eq!(rt; of_write.writes, 17);
    Ok(())
}

/// What a look-up, a new node under a new name, a new name, and a removed name cost in a directory.
fn costs_of_names(server: &mut Served, dir: &Handle, file: &Handle) -> Result<[Cost; 4], Fail>
    requires { HasTree (⟦<Served as FileServer>⟧.state server.old) }
{
    let before = so_far(server);
    lookup(server, dir, b"n1234")?;
    let of_lookup = since(server, before);
    let before = so_far(server);
    create(server, dir, b"new")?;
    let of_create = since(server, before);
    let before = so_far(server);
    link(server, file, dir, b"newer")?;
    let of_link = since(server, before);
    let before = so_far(server);
    remove(server, dir, b"n1234")?;
    Ok([of_lookup, of_create, of_link, since(server, before)])
}

#[test]
fn a_directory_of_4000_names(rt: HostRuntime) -> Result<(), Fail> {
    let alloc = rt.alloc();
    let limits = ServerLimits {
        nodes: 8,
        bytes: 2_200_000,
    };
    let medium = Counting::new(MemMedium::new(alloc, 9000, Vec::new(alloc)));
    let mut server = InodeServer::new(alloc, medium, limits)?;
    wipe(&mut server)?;
    let root = server.root();
    let file = create(&mut server, &root, b"file")?;
    put_names(alloc, &mut server, &root, &file, 3999)?;
    let [of_lookup, of_create, of_link, of_remove] = costs_of_names(&mut server, &root, &file)?;
    assert_eq!(rt; (of_lookup.reads, of_lookup.writes), (0, 0));
    // A slot lies in two blocks, each of which is written by a call of its own. Both read the inode, the block, and the
    // two nodes above it twice, and write the inode; a new block is cleared, and a pointer to it written. Before that
    // the slots are counted. A new node has an inode of its own.
    assert!(rt;
        of_link.reads <= 1 + 2 * (1 + 2 * 2 + 1) && of_link.writes <= 2 * 2 + 2,
        "{of_link:?}"
    );
    assert!(rt;
        of_create.reads <= 13 && of_create.writes <= 6 + 1,
        "{of_create:?}"
    );
    // The last slot is read as well, and the tree is cut at the end, which writes both nodes and the inode.
    assert!(rt;
        of_remove.reads <= 13 + (1 + 2 * 3) + (1 + 2),
        "{of_remove:?}"
    );
    assert!(rt; of_remove.writes <= 2 + 2 + 1, "{of_remove:?}");
    Ok(())
}
