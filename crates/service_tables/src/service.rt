//! Calls that go to a server and to the plain machine.

ghost use Rattle.std.specs.Prelude.{◌≡◌, ◌<◌, ◌≤◌, ◌^◌, IfOk, OnOk, length};
ghost use Rattle.server_trait.specs.Step.{HasTree};
ghost use Rattle.conf_map.specs.Stands.{HasRoom};
ghost use Rattle.service_tables.specs.Ready.{IsReady};

use abs_plain::{AbsArray, is_valid, plain_step};
use conf_map::{TouchList, fresh};
use dispatch::answer;
use nfs2_args::read_args;
use nfs2_results::read_result;
use nfs2_types::{Blob16, Cred, Handle, Limits, NfsResult, Time, Word};
use restart::restart;
use rpc_core::write_call;
use server_trait::{ConfEntry, ConfTable, FileServer, Srv, SrvErr};
use std::alloc::{AllocError, Global};
use std::test::Fail;

/// A call: the status that it is to give, its procedure, and the words of its arguments in parts.
pub type Row = (u32, u32, &'static [&'static [u32]]);

/// A call, as its procedure and the words of its arguments in parts, and the words of its result.
pub type Exchange = (u32, &'static [&'static [u32]], &'static [&'static [u32]]);

/// A user that is somebody, and the one of a call without a name.
const SOMEBODY: (u32, u32) = (7, 8);

const NOBODY: (u32, u32) = (65534, 65534);

/// The bytes of words, the high byte first.
fn bytes_of(alloc: Global, parts: &[&[u32]]) -> Result<Vec<u8>, AllocError> {
    let mut bytes = Vec::new(alloc);
    for words in parts {
        for word in *words {
            bytes.extend_from_slice(&word.to_be_bytes())?;
        }
    }
    Ok(bytes)
}

/// What the plain machine gives to the call with these arguments.
fn plain(
    alloc: Global,
    array: &mut AbsArray,
    limits: &Limits,
    cred: &Cred,
    secs: u32,
    proc: u32,
    args: &[u8],
) -> Result<NfsResult, Fail>
    requires { proc ≤ 17 }
{
    let Ok(args) = read_args(proc, args) else {
        return Err("the arguments are not spelled".into());
    };
    if !is_valid(alloc, array.entries(), limits)? {
        return Err("the array is not valid".into());
    }
    let time = Time { secs, micros: 0 };
    Ok(plain_step(alloc, array, limits, cred, time, &args)?)
}

/// The service's word on a call.
fn served(
    alloc: Global,
    server: &mut Srv,
    table: &mut ConfTable,
    limits: &Limits,
    secs: u32,
    call: &[u8],
) -> Result<Word, Fail>
    requires { IsReady limits.now (state server.old) table.old }
    ensures { OnOk result (IsReady limits.now (state server.new) table.new) }
{
    let time = Time { secs, micros: 0 };
    let mut told = TouchList::new(alloc);
    match answer(alloc, server, table, limits, time, call, &mut told) {
        Ok(word) => Ok(word),
        Err(_) => Err("the server failed".into()),
    }
}

/// What an accepted reply says.
fn said(alloc: Global, xid: u32, proc: u32, word: &Word) -> Result<NfsResult, Fail>
    requires { proc ≤ 17 }
{
    let Word::Reply(reply) = word else {
        return Err("no reply".into());
    };
    let front = bytes_of(alloc, &[&[xid, 1, 0, 0, 0, 0]])?;
    let text = reply.as_slice();
    if text.len() < 24 || &text[..24] != front.as_slice() {
        return Err("not accepted".into());
    }
    match read_result(alloc, proc, &text[24..]) {
        Ok(result) => Ok(result),
        Err(_) => Err("the result is not spelled".into()),
    }
}

/// The status of a result; that of a call without one is OK.
fn status_of(found: &NfsResult) -> u32 {
    match found {
        NfsResult::Refused(stat) => stat.0,
        _ => 0,
    }
}

/// Fails where the handle leads to a node.
fn is_stale(server: &mut Srv, handle: &Handle) -> Result<(), Fail>
    requires { HasTree (state server.old) }
    ensures same { OnOk result ((state server.new).tree ≡ (state server.old).tree) }
    ensures limits { (state server.new).limits ≡ (state server.old).limits }
{
    match server.attr(handle) {
        Err(SrvErr::Stale) => Ok(()),
        _ => Err("a handle of before leads to a node".into()),
    }
}

/// Fails where the handle of a row leads to a node.
fn are_stale(server: &mut Srv, rows: &[ConfEntry]) -> Result<(), Fail>
    requires { HasTree (state server.old) }
    ensures same { OnOk result ((state server.new).tree ≡ (state server.old).tree) }
    ensures limits { OnOk result ((state server.new).limits ≡ (state server.old).limits) }
{
    for row in rows {
        let Some(handle) = row.handle else {
            continue;
        };
        is_stale(server, &handle)?;
    }
    Ok(())
}

/// Restarts the server.
fn restarted(
    alloc: Global,
    server: &mut Srv,
    table: &mut ConfTable,
    limits: &Limits,
) -> Result<(), Fail>
    requires { IsReady limits.now (state server.old) table.old }
    ensures { OnOk result (IsReady limits.now (state server.new) table.new) }
{
    match restart(alloc, server, table) {
        Ok(()) => Ok(()),
        Err(_) => Err("the server failed".into()),
    }
}

/// Restarts the server, and fails where an old handle leads to a node.
fn renewed(
    alloc: Global,
    server: &mut Srv,
    table: &mut ConfTable,
    limits: &Limits,
) -> Result<(), Fail>
    requires { IsReady limits.now (state server.old) table.old }
    ensures { OnOk result (IsReady limits.now (state server.new) table.new) }
{
    let before = table.rows.clone()?;
    restarted(alloc, server, table, limits)?;
    are_stale(server, &before)
}

/// A service over a server, and the array of the plain machine.
#[derive(Drop)]
pub struct Service {
    server: Srv,
    table: ConfTable,
    array: AbsArray,
    limits: Limits,
    calls: u32,
}

impl Service {
    /// Both at their beginning, with sixteen entries.
    pub fn new(alloc: Global, server: Srv) -> Result<Service, Fail>
        ensures { IfOk result (λ s. IsReady s.limits (⟦<Srv as FileServer>⟧.state s.server) s.table) }
    {
        Service::with_room(alloc, server, 16, 65536)
    }

    /// Both at their beginning, with so many entries, and room for so many bytes.
    pub fn with_room(alloc: Global, mut server: Srv, n: u32, t: u32) -> Result<Service, Fail>
        requires some { 1 ≤ n }
        requires few { n ≤ 4096 }
        requires least { 512 ≤ t }
        requires most { t ≤ 16777216 }
        ensures { IfOk result (λ s. IsReady s.limits (⟦<Srv as FileServer>⟧.state s.server) s.table) }
    {
        let limits = Limits {
            n,
            k: 1024,
            t,
            f: 0,
        };
        let most = server.limits();
        if most.nodes < n + 3 || most.bytes < u64::from(t) + 1048576 {
            return Err("a small server".into());
        }
        let mut table = ConfTable::empty(alloc);
        match fresh(alloc, &mut server, &mut table, n) {
            Ok(()) => {}
            Err(_) => return Err("the server failed".into()),
        }
        Ok(Service {
            server,
            table,
            array: AbsArray::empty(alloc, n)?,
            limits,
            calls: 0,
        })
    }

    /// Sends a call of a user and a group to both, and fails unless the same comes of it. The n-th call comes at the
    /// second n.
    fn call_of(
        &mut self,
        alloc: Global,
        user: (u32, u32),
        proc: u32,
        parts: &[&[u32]],
    ) -> Result<NfsResult, Fail>
        requires ready { IsReady self.old.limits (⟦<Srv as FileServer>⟧.state self.old.server) self.old.table }
        requires proc { proc ≤ 17 }
        ensures { OnOk result (IsReady self.new.limits (⟦<Srv as FileServer>⟧.state self.new.server) self.new.table) }
    {
        let (uid, gid) = user;
        self.calls = self.calls.saturating_add(1);
        let cred = Cred {
            uid,
            gid,
            gids: Blob16::new(),
        };
        let args = bytes_of(alloc, parts)?;
        let expected = plain(
            alloc,
            &mut self.array,
            &self.limits,
            &cred,
            self.calls,
            proc,
            &args,
        )?;
        let call = write_call(alloc, self.calls, 100003, 2, proc, &cred, &args)?;
        let word = served(
            alloc,
            &mut self.server,
            &mut self.table,
            &self.limits,
            self.calls,
            &call,
        )?;
        let found = said(alloc, self.calls, proc, &word)?;
        if found != expected {
            return Err("another result than the plain machine's".into());
        }
        Ok(found)
    }

    /// Sends a call of somebody to both, and fails unless the same comes of it.
    pub fn call(&mut self, alloc: Global, proc: u32, parts: &[&[u32]]) -> Result<NfsResult, Fail>
        requires ready { IsReady self.old.limits (⟦<Srv as FileServer>⟧.state self.old.server) self.old.table }
        requires proc { proc ≤ 17 }
        ensures { OnOk result (IsReady self.new.limits (⟦<Srv as FileServer>⟧.state self.new.server) self.new.table) }
    {
        self.call_of(alloc, SOMEBODY, proc, parts)
    }

    /// Sends a call of nobody to both, and fails unless they give this result.
    fn says(&mut self, alloc: Global, row: &Exchange) -> Result<(), Fail>
        requires { IsReady self.old.limits (⟦<Srv as FileServer>⟧.state self.old.server) self.old.table }
        ensures { OnOk result (IsReady self.new.limits (⟦<Srv as FileServer>⟧.state self.new.server) self.new.table) }
    {
        let (proc, parts, words) = row;
        if *proc > 17 {
            return Err("no procedure".into());
        }
        let found = self.call_of(alloc, NOBODY, *proc, parts)?;
        match read_result(alloc, *proc, &bytes_of(alloc, words)?) {
            Ok(wanted) if wanted == found => Ok(()),
            _ => Err(format!(in alloc; "procedure {proc} gives {found:?}")?.into()),
        }
    }

    /// Sends calls of nobody one after another, each of which is to give its result.
    pub fn says_all(&mut self, alloc: Global, rows: &[Exchange]) -> Result<(), Fail>
        requires { IsReady self.old.limits (⟦<Srv as FileServer>⟧.state self.old.server) self.old.table }
        ensures { OnOk result (IsReady self.new.limits (⟦<Srv as FileServer>⟧.state self.new.server) self.new.table) }
    {
        for row in rows {
            self.says(alloc, row)?;
        }
        Ok(())
    }

    /// Sends a call to both, and fails unless they give the same, with this status.
    pub fn gives(
        &mut self,
        alloc: Global,
        status: u32,
        proc: u32,
        parts: &[&[u32]],
    ) -> Result<(), Fail>
        requires ready { IsReady self.old.limits (⟦<Srv as FileServer>⟧.state self.old.server) self.old.table }
        requires proc { proc ≤ 17 }
        ensures { OnOk result (IsReady self.new.limits (⟦<Srv as FileServer>⟧.state self.new.server) self.new.table) }
    {
        let found = self.call(alloc, proc, parts)?;
        if status_of(&found) != status {
            return Err(format!(in alloc; "procedure {proc} gives {found:?}")?.into());
        }
        Ok(())
    }

    /// Sends calls one after another, each of which is to give its status.
    pub fn gives_all(&mut self, alloc: Global, rows: &[Row]) -> Result<(), Fail>
        requires { IsReady self.old.limits (⟦<Srv as FileServer>⟧.state self.old.server) self.old.table }
        ensures { OnOk result (IsReady self.new.limits (⟦<Srv as FileServer>⟧.state self.new.server) self.new.table) }
    {
        for (status, proc, parts) in rows {
            if *proc > 17 {
                return Err("no procedure".into());
            }
            self.gives(alloc, *status, *proc, parts)?;
        }
        Ok(())
    }

    /// Restarts the server, where each node gets another handle if it `renews` them.
    pub fn restart(&mut self, alloc: Global, renews: bool) -> Result<(), Fail>
        requires { IsReady self.old.limits (⟦<Srv as FileServer>⟧.state self.old.server) self.old.table }
        ensures { OnOk result (IsReady self.new.limits (⟦<Srv as FileServer>⟧.state self.new.server) self.new.table) }
    {
        if renews {
            return renewed(alloc, &mut self.server, &mut self.table, &self.limits);
        }
        restarted(alloc, &mut self.server, &mut self.table, &self.limits)
    }
}
