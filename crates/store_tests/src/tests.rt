//! A store of checkpoints over a session of calls: what it is told, what it holds of each place, and what it forgets.

ghost use Rattle.std.specs.Prelude.{IfOk};
ghost use Rattle.store_tests.specs.Beside.{IsBeside};

mod kept;
mod words;

use kept::Kept;
use path_server::PathServer;
use server_trait::{FileServer, ServerLimits, Srv};
use std::alloc::Global;
use std::test::Fail;

/// A server in memory.
fn path(alloc: Global) -> Result<Srv, Fail> {
    let limits = ServerLimits {
        nodes: 19,
        bytes: 1_114_112,
    };
    match PathServer::new(alloc, limits) {
        Ok(server) => {
            let server: Srv = Box::new(alloc, server)?;
            Ok(server)
        }
        Err(_) => Err("no memory".into()),
    }
}

/// A session with checkpoints of the places 0, 4 and 8, and what is told meanwhile: the objects that a call changes,
/// and an index of which the store is told besides.
fn session(alloc: Global) -> Result<Kept, Fail>
    ensures { IfOk result (λ k. IsBeside k.limits (⟦<Srv as FileServer>⟧.state k.server) k.table k.place k.store) }
{
    let mut kept = Kept::new(alloc, path(alloc)?)?;
    kept.was_told(&[])?;
    kept.call_all(alloc, &words::FIRST)?;
    kept.was_told(&[0, 1, 2, 3])?;
    kept.take(alloc, 4)?;
    kept.was_told(&[])?;
    kept.call_all(alloc, &words::SECOND)?;
    kept.was_told(&[0, 1, 2, 3])?;
    kept.take(alloc, 8)?;
    kept.tell(4)?;
    kept.was_told(&[4])?;
    kept.call_all(alloc, &words::THIRD)?;
    kept.was_told(&[0, 4])?;
    Ok(kept)
}

#[test]
fn texts_are_held_as_they_were(rt: HostRuntime) -> Result<(), Fail> {
    let alloc = rt.alloc();
    let mut kept = session(alloc)?;
    kept.holds_all(alloc, 0, &words::AT_0)?;
    kept.holds_all(alloc, 4, &words::AT_4)?;
    kept.holds_all(alloc, 8, &words::AT_8)?;
    kept.lacks(4, 16)?;
    kept.lacks(3, 0)?;
    kept.lacks(5, 0)?;
    kept.lacks(10, 0)
}

#[test]
fn lower_places_are_forgotten(rt: HostRuntime) -> Result<(), Fail> {
    let alloc = rt.alloc();
    let mut kept = session(alloc)?;
    kept.drop_before(3);
    kept.lacks(0, 0)?;
    kept.holds_all(alloc, 4, &words::AT_4)?;
    kept.drop_before(8);
    kept.lacks(4, 0)?;
    kept.holds_all(alloc, 8, &words::AT_8)?;
    kept.drop_before(9);
    kept.lacks(8, 0)?;
    kept.was_told(&[0, 4])?;
    kept.call_all(alloc, &words::FOURTH)?;
    kept.was_told(&[0, 1, 4])?;
    kept.take(alloc, 12)?;
    kept.was_told(&[])?;
    kept.holds_all(alloc, 12, &words::AT_12)
}
