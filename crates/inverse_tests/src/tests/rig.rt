//! A service over a path server, into which entries are put.

ghost use Rattle.std.specs.Prelude.{◌≡◌, IfOk, OnOk};
ghost use Rattle.inverse_fn.specs.Puts.{CanPutObjs};

use super::objects::{Row, changes_of, index_of, is_of};
use abs_model::{Change, Entry};
use abstraction_fn::entry_of;
use conf_map::fresh;
use inverse_fn::{PutErr, put_objs};
use nfs2_types::Limits;
use path_server::PathServer;
use server_trait::{ConfTable, FileServer, ServerLimits, Srv};
use std::alloc::Global;
use std::test::Fail;

/// A path server that is large enough.
fn path(alloc: Global) -> Result<Srv, Fail> {
    let limits = ServerLimits {
        nodes: 11,
        bytes: 1_114_112,
    };
    match PathServer::new(alloc, limits) {
        Ok(server) => {
            let server: Srv = Box::new(alloc, server)?;
            Ok(server)
        }
        Err(_) => Err("no memory".into()),
    }
}

/// A table of eight entries over a server that is wiped.
fn started(alloc: Global, server: &mut Srv, limits: &Limits) -> Result<ConfTable, Fail>
    requires n { limits.now.n ≡ 8 }
    requires t { limits.now.t ≡ 65536 }
    ensures { IfOk result (λ table. CanPutObjs limits.now (state server.new) table) }
{
    let most = server.limits();
    if most.nodes < 11 || most.bytes < 1_114_112 {
        return Err("a small server".into());
    }
    let mut table = ConfTable::empty(alloc);
    match fresh(alloc, server, &mut table, 8) {
        Ok(()) => Ok(table),
        Err(_) => Err("the server failed".into()),
    }
}

/// Puts entries.
fn put(
    alloc: Global,
    server: &mut Srv,
    table: &mut ConfTable,
    limits: &Limits,
    changes: Vec<Change>,
) -> Result<(), Fail>
    requires { CanPutObjs limits.now (state server.old) table.old }
    ensures { OnOk result (CanPutObjs limits.now (state server.new) table.new) }
{
    match put_objs(alloc, server, table, limits, changes) {
        Ok(()) => Ok(()),
        Err(PutErr::Invalid) => Err("not valid".into()),
        Err(_) => Err("the server failed".into()),
    }
}

/// Fails unless entries are found not to be valid.
fn refused(
    alloc: Global,
    server: &mut Srv,
    table: &mut ConfTable,
    limits: &Limits,
    changes: Vec<Change>,
) -> Result<(), Fail>
    requires { CanPutObjs limits.now (state server.old) table.old }
    ensures { OnOk result (CanPutObjs limits.now (state server.new) table.new) }
{
    match put_objs(alloc, server, table, limits, changes) {
        Err(PutErr::Invalid) => Ok(()),
        _ => Err("valid, or a failed server".into()),
    }
}

/// The entry at an index.
fn entry_at(
    alloc: Global,
    server: &mut Srv,
    table: &ConfTable,
    limits: &Limits,
    index: u32,
) -> Result<Entry, Fail>
    requires { CanPutObjs limits.now (state server.old) table.now }
    ensures { OnOk result (CanPutObjs limits.now (state server.new) table.now) }
{
    if index as usize >= table.rows.len() {
        return Err("no such index".into());
    }
    match entry_of(alloc, server, table, index) {
        Ok(entry) => Ok(entry),
        Err(_) => Err("the server failed".into()),
    }
}

/// A server, its table, and the limits of the service.
#[derive(Drop)]
pub struct Rig {
    server: Srv,
    table: ConfTable,
    limits: Limits,
}

impl Rig {
    /// A service of eight entries over a path server.
    pub fn new(alloc: Global) -> Result<Rig, Fail>
        ensures { IfOk result (λ r. CanPutObjs r.limits (⟦<Srv as FileServer>⟧.state r.server) r.table) }
    {
        let limits = Limits {
            n: 8,
            k: 4,
            t: 65536,
            f: 0,
        };
        let mut server = path(alloc)?;
        let table = started(alloc, &mut server, &limits)?;
        Ok(Rig {
            server,
            table,
            limits,
        })
    }

    /// Puts these objects.
    pub fn put(&mut self, alloc: Global, rows: &[Row]) -> Result<(), Fail>
        requires { CanPutObjs self.old.limits (⟦<Srv as FileServer>⟧.state self.old.server) self.old.table }
        ensures { OnOk result (CanPutObjs self.new.limits (⟦<Srv as FileServer>⟧.state self.new.server)
            self.new.table) }
    {
        let changes = changes_of(alloc, rows)?;
        put(
            alloc,
            &mut self.server,
            &mut self.table,
            &self.limits,
            changes,
        )
    }

    /// Fails unless these objects are found not to be valid.
    pub fn refuses(&mut self, alloc: Global, rows: &[Row]) -> Result<(), Fail>
        requires { CanPutObjs self.old.limits (⟦<Srv as FileServer>⟧.state self.old.server) self.old.table }
        ensures { OnOk result (CanPutObjs self.new.limits (⟦<Srv as FileServer>⟧.state self.new.server)
            self.new.table) }
    {
        let changes = changes_of(alloc, rows)?;
        refused(
            alloc,
            &mut self.server,
            &mut self.table,
            &self.limits,
            changes,
        )
    }

    /// Fails unless this object stands at its index.
    fn has(&mut self, alloc: Global, row: &Row) -> Result<(), Fail>
        requires { CanPutObjs self.old.limits (⟦<Srv as FileServer>⟧.state self.old.server) self.old.table }
        ensures { OnOk result (CanPutObjs self.new.limits (⟦<Srv as FileServer>⟧.state self.new.server)
            self.new.table) }
    {
        let index = index_of(row);
        let entry = entry_at(alloc, &mut self.server, &self.table, &self.limits, index)?;
        if entry.generation != 1 || !is_of(&entry.object, row) {
            return Err(format!(in alloc; "another object at {index}")?.into());
        }
        Ok(())
    }

    /// Fails unless these objects stand at their indexes.
    pub fn has_all(&mut self, alloc: Global, rows: &[Row]) -> Result<(), Fail>
        requires { CanPutObjs self.old.limits (⟦<Srv as FileServer>⟧.state self.old.server) self.old.table }
        ensures { OnOk result (CanPutObjs self.new.limits (⟦<Srv as FileServer>⟧.state self.new.server)
            self.new.table) }
    {
        for row in rows {
            self.has(alloc, row)?;
        }
        Ok(())
    }
}
