//! The tables, each over a server that a caller hands in. What the server holds before is gone.

use crate::service::{Exchange, Service};
use crate::{dirs, files, many, moves, names, restarts, results};
use server_trait::Srv;
use std::alloc::Global;
use std::test::Fail;

/// The tables of directories. Like the others but for that of many names, it asks for 19 nodes and 1,114,112 bytes.
pub fn directories(alloc: Global, server: Srv) -> Result<(), Fail> {
    let mut service = Service::new(alloc, server)?;
    service.gives_all(alloc, &dirs::LOOKED_AT)?;
    service.gives_all(alloc, &dirs::MADE)?;
    service.gives_all(alloc, &dirs::LISTED)?;
    service.gives_all(alloc, &dirs::FILLED)
}

/// The tables of files and links.
pub fn files_and_links(alloc: Global, server: Srv) -> Result<(), Fail> {
    let mut service = Service::new(alloc, server)?;
    service.gives_all(alloc, &files::MADE)?;
    service.gives_all(alloc, &files::WRITTEN)?;
    service.gives_all(alloc, &files::SET)
}

/// The tables of names that are given and taken.
pub fn given_and_taken(alloc: Global, server: Srv) -> Result<(), Fail> {
    let mut service = Service::new(alloc, server)?;
    service.gives_all(alloc, &names::LINKED)?;
    service.gives_all(alloc, &names::NOT_LINKED)?;
    service.gives_all(alloc, &names::REMOVED)?;
    service.gives_all(alloc, &names::DIRS_REMOVED)
}

/// The tables of names that move.
pub fn moved(alloc: Global, server: Srv) -> Result<(), Fail> {
    let mut service = Service::new(alloc, server)?;
    service.gives_all(alloc, &moves::REFUSED)?;
    service.gives_all(alloc, &moves::TESTED)?;
    service.gives_all(alloc, &moves::FILES_MOVED)?;
    service.gives_all(alloc, &moves::DIRS_MOVED)?;
    service.gives_all(alloc, &moves::WRITTEN_BELOW)
}

/// The tables around restarts, of a server that gives each node another handle then if it `renews` them.
pub fn restarted(alloc: Global, server: Srv, renews: bool) -> Result<(), Fail> {
    let mut service = Service::new(alloc, server)?;
    service.restart(alloc, renews)?;
    service.gives_all(alloc, &restarts::BUILT)?;
    service.gives_all(alloc, &restarts::LOOKED_AT)?;
    service.restart(alloc, renews)?;
    service.gives_all(alloc, &restarts::LOOKED_AT)?;
    service.gives_all(alloc, &restarts::CHANGED)?;
    service.restart(alloc, renews)?;
    service.restart(alloc, renews)?;
    service.gives_all(alloc, &restarts::LEFT)
}

/// One of the tables of calls with their results word for word.
fn said(alloc: Global, server: Srv, rows: &[Exchange]) -> Result<(), Fail> {
    let mut service = Service::new(alloc, server)?;
    service.says_all(alloc, rows)
}

/// The names "b" and "a", which are made and listed.
pub fn listed(alloc: Global, server: Srv) -> Result<(), Fail> {
    said(alloc, server, &results::LISTED)
}

/// Bytes behind a gap.
pub fn gap(alloc: Global, server: Srv) -> Result<(), Fail> {
    said(alloc, server, &results::GAP)
}

/// A file with three names.
pub fn named_thrice(alloc: Global, server: Srv) -> Result<(), Fail> {
    said(alloc, server, &results::NAMED_THRICE)
}

/// What is made and goes again.
pub fn gone(alloc: Global, server: Srv) -> Result<(), Fail> {
    said(alloc, server, &results::GONE)
}

/// Three hundred names and a long chain of directories. It asks for 515 nodes and 2,097,152 bytes.
pub fn many_names_and_a_long_chain(alloc: Global, server: Srv) -> Result<(), Fail> {
    let mut service = Service::with_room(alloc, server, 512, 1_048_576)?;
    many::filled(alloc, &mut service)?;
    // The names, "." and "..".
    if many::paged(alloc, &mut service, 512)? != 302 {
        return Err("another number of entries".into());
    }
    many::chained(alloc, &mut service, 301)?;
    if many::paged(alloc, &mut service, 4096)? != 303 {
        return Err("another number of entries".into());
    }
    Ok(())
}
