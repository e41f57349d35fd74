//! A server over memory.

mod calls;
mod costs;
mod counting;
mod large;
mod nodes;
mod short;

ghost use Rattle.std.specs.Prelude.{IfOk};
ghost use Rattle.server_trait.specs.Step.{HasTree};

use calls::{Fail, is_stale, reboot, wipe};
use counting::Counting;
use inode_server::InodeServer;
use large::{SIZE, build, walk};
use outside::{Medium, MemMedium};
use server_trait::{FileServer, ServerLimits, SrvErr};
use short::session;
use std::alloc::Global;

/// The medium of a server goes to another, which mounts it.
fn moved<M: Medium + Drop>(alloc: Global, server: InodeServer<M>) -> Result<InodeServer<M>, Fail>
    requires { HasTree (⟦<InodeServer<M> as FileServer>⟧.state server) }
    ensures { IfOk result (λ s. HasTree (⟦<InodeServer<M> as FileServer>⟧.state s)) }
{
    let limits = server.limits();
    let mut next = InodeServer::new(alloc, server.into_medium(), limits)?;
    next.mount()?;
    Ok(next)
}

/// Whether the bytes are those of the file with gaps.
fn is_big(bytes: &[u8]) -> bool {
    let size = SIZE as usize;
    bytes.len() == size
        && bytes.starts_with(b"begin")
        && bytes.ends_with(b"end")
        && bytes[5..size - 3].iter().all(|byte| *byte == 0)
}

#[test]
fn a_tree_is_the_same_when_it_is_read_again(rt: HostRuntime) -> Result<(), Fail> {
    let alloc = rt.alloc();
    let limits = ServerLimits {
        nodes: 64,
        bytes: 300_000,
    };
    let medium = MemMedium::new(alloc, 2000, Vec::new(alloc));
    let mut server = InodeServer::new(alloc, medium, limits)?;
    wipe(&mut server)?;
    build(alloc, &mut server)?;
    let before = walk(alloc, &mut server)?;
    // The names of 270 numbers lead to the file, and one of its own; beside 300 names stands that of a directory.
    assert_eq!(rt;
        (before.names, before.links, before.size),
        (301, 271, 70_003)
    );
    assert!(rt; is_big(&before.bytes));
    assert_eq!(rt; before.text.as_slice(), b"../n7".as_slice());
    let root = server.root();
    reboot(&mut server)?;
    assert!(rt; is_stale(&mut server, &root)?);
    assert_eq!(rt; walk(alloc, &mut server)?, before);
    let mut next = moved(alloc, server)?;
    assert_eq!(rt; walk(alloc, &mut next)?, before);
    Ok(())
}

/// Whether a session failed over a medium that fails at one call, as it should, and the next session did not.
fn fails_at(alloc: Global, call: u64) -> Result<bool, Fail> {
    let limits = ServerLimits {
        nodes: 8,
        bytes: 8192,
    };
    let mut fails = Vec::new(alloc);
    fails.push(call)?;
    let medium = Counting::new(MemMedium::new(alloc, 200, fails));
    let mut server = InodeServer::new(alloc, medium, limits)?;
    match session(&mut server) {
        Ok(()) => return Ok(false),
        Err(Fail::Server(SrvErr::Fault)) => {}
        Err(e) => return Err(e),
    }
    if server.medium().fails != 1 {
        return Err(Fail::Unfit);
    }
    session(&mut server)?;
    Ok(true)
}

#[test]
fn each_call_of_a_medium_may_fail(rt: HostRuntime) -> Result<(), Fail> {
    let mut failed = 0;
    for call in 1..2000 {
        if !fails_at(rt.alloc(), call)? {
            break;
        }
        failed = call;
    }
    assert!(rt; failed > 20 && failed < 1999, "{failed}");
    Ok(())
}
