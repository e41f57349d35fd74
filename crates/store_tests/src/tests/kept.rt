//! A service of sixteen entries over a server in memory, and a store of checkpoints that is told of what it changes.

ghost use Rattle.std.specs.Prelude.{◌≡◌, ◌<◌, ◌^◌, List, IfOk, OnOk, length};
ghost use Rattle.abs_model.specs.declared.Entry.{Entry};
ghost use Rattle.conf_map.specs.Stands.{StandValid};
ghost use Rattle.store_tests.specs.Beside.{IsReady, IsBeside};

use abstraction_fn::get_obj;
use conf_map::{Modify, fresh};
use cow_checkpoint::CheckpointStore;
use dispatch::answer;
use nfs2_types::{Blob, Blob16, Cred, Limits, Time, Word};
use partition_tree::Tree;
use rpc_core::write_call;
use server_trait::{ConfTable, FileServer, Srv};
use std::alloc::{AllocError, Global};
use std::rc::RcSlice;
use std::test::Fail;

/// A call: its procedure, and the words of its arguments in parts.
pub type Call = (u32, &'static [&'static [u32]]);

/// An index, and the words of its text in parts.
pub type Text = (u32, &'static [&'static [u32]]);

/// The bytes of words, the high byte first.
fn bytes_of(alloc: Global, parts: &[&[u32]]) -> Result<Vec<u8>, AllocError> {
    let mut bytes = Vec::new(alloc);
    for words in parts {
        for word in *words {
            bytes.extend_from_slice(&word.to_be_bytes())?;
        }
    }
    Ok(bytes)
}

/// The texts of all entries.
fn texts_of(alloc: Global, server: &mut Srv, table: &ConfTable) -> Result<Vec<Blob>, Fail>
    requires stands { (A : List Entry) × StandValid (state server.old).tree table.now A }
    requires few { length table.now.rows.items < 2 ^ 32 }
    ensures size { IfOk result (λ texts. length texts.items ≡ length table.now.rows.items) }
    ensures same { OnOk result ((state server.new).tree ≡ (state server.old).tree) }
    ensures limits { OnOk result ((state server.new).limits ≡ (state server.old).limits) }
{
    let mut texts = Vec::new(alloc);
    for index in 0..table.rows.len() {
        match get_obj(alloc, server, table, index as u32) {
            Ok(text) => texts.push(Blob::new(text))?,
            Err(_) => return Err("a text can't be read".into()),
        }
    }
    Ok(texts)
}

/// The digests of the texts of all sixteen entries.
fn digests_of(alloc: Global, server: &mut Srv, table: &ConfTable) -> Result<Tree, Fail>
    requires stands { (A : List Entry) × StandValid (state server.old).tree table.now A }
    requires entries { length table.now.rows.items ≡ 16 }
    ensures size { IfOk result (λ tree. length tree ≡ 16) }
    ensures same { OnOk result ((state server.new).tree ≡ (state server.old).tree) }
    ensures limits { OnOk result ((state server.new).limits ≡ (state server.old).limits) }
{
    let texts = texts_of(alloc, server, table)?;
    match Tree::build(alloc, texts.as_slice()) {
        Ok(tree) => Ok(tree),
        Err(_) => Err("no memory".into()),
    }
}

/// A table of sixteen entries over a server that is wiped.
fn started(alloc: Global, server: &mut Srv, limits: &Limits) -> Result<ConfTable, Fail>
    requires n { limits.now.n ≡ 16 }
    requires t { limits.now.t ≡ 65536 }
    ensures { IfOk result (λ table. IsReady limits.now (state server.new) table) }
{
    let most = server.limits();
    if most.nodes < 19 || most.bytes < 1_114_112 {
        return Err("a small server".into());
    }
    let mut table = ConfTable::empty(alloc);
    match fresh(alloc, server, &mut table, 16) {
        Ok(()) => Ok(table),
        Err(_) => Err("the server failed".into()),
    }
}

/// The service's word on a call, of which the store is told what it changes.
fn served(
    alloc: Global,
    server: &mut Srv,
    table: &mut ConfTable,
    limits: &Limits,
    secs: u32,
    call: &[u8],
    store: &mut CheckpointStore,
) -> Result<Word, Fail>
    requires { IsReady limits.now (state server.old) table.old }
    ensures ready { OnOk result (IsReady limits.now (state server.new) table.new) }
    ensures size { OnOk result (store.new.size ≡ store.old.size) }
    ensures taken { OnOk result (store.new.taken ≡ store.old.taken) }
{
    let time = Time { secs, micros: 0 };
    match answer(alloc, server, table, limits, time, call, store) {
        Ok(word) => Ok(word),
        Err(_) => Err("the server failed".into()),
    }
}

/// A service, and a store that is told of what it changes.
#[derive(Drop)]
pub struct Kept {
    server: Srv,
    table: ConfTable,
    limits: Limits,
    place: u32,
    store: CheckpointStore,
    calls: u32,
}

impl Kept {
    /// A service at its beginning, of which the store holds place 0.
    pub fn new(alloc: Global, mut server: Srv) -> Result<Kept, Fail>
        ensures { IfOk result (λ k.
            IsBeside k.limits (⟦<Srv as FileServer>⟧.state k.server) k.table k.place k.store) }
    {
        let limits = Limits {
            n: 16,
            k: 4,
            t: 65536,
            f: 0,
        };
        let table = started(alloc, &mut server, &limits)?;
        let tree = digests_of(alloc, &mut server, &table)?;
        match CheckpointStore::new(alloc, 0, tree) {
            Ok(store) => Ok(Kept {
                server,
                table,
                limits,
                place: 0,
                store,
                calls: 0,
            }),
            Err(_) => Err("no memory".into()),
        }
    }

    /// Tells the store of an index, although nothing changes there.
    pub fn tell(&mut self, index: u32) -> Result<(), Fail>
        requires beside { IsBeside self.old.limits (⟦<Srv as FileServer>⟧.state self.old.server) self.old.table
            self.old.place self.old.store }
        requires within { index < 16 }
        ensures { OnOk result (IsBeside self.new.limits (⟦<Srv as FileServer>⟧.state self.new.server) self.new.table
            self.new.place self.new.store) }
    {
        match self.store.modify(&mut self.server, &self.table, index) {
            Ok(()) => Ok(()),
            Err(_) => Err("the notice failed".into()),
        }
    }

    /// Sends a call of user 7 and group 8. The n-th call comes at the second n.
    fn call(&mut self, alloc: Global, proc: u32, parts: &[&[u32]]) -> Result<(), Fail>
        requires { IsBeside self.old.limits (⟦<Srv as FileServer>⟧.state self.old.server) self.old.table
            self.old.place self.old.store }
        ensures { OnOk result (IsBeside self.new.limits (⟦<Srv as FileServer>⟧.state self.new.server) self.new.table
            self.new.place self.new.store) }
    {
        self.calls = self.calls.saturating_add(1);
        let cred = Cred {
            uid: 7,
            gid: 8,
            gids: Blob16::new(),
        };
        let args = bytes_of(alloc, parts)?;
        let call = write_call(alloc, self.calls, 100003, 2, proc, &cred, &args)?;
        let _word = served(
            alloc,
            &mut self.server,
            &mut self.table,
            &self.limits,
            self.calls,
            &call,
            &mut self.store,
        )?;
        Ok(())
    }

    /// Sends calls one after another.
    pub fn call_all(&mut self, alloc: Global, rows: &[Call]) -> Result<(), Fail>
        requires { IsBeside self.old.limits (⟦<Srv as FileServer>⟧.state self.old.server) self.old.table
            self.old.place self.old.store }
        ensures { OnOk result (IsBeside self.new.limits (⟦<Srv as FileServer>⟧.state self.new.server) self.new.table
            self.new.place self.new.store) }
    {
        for (proc, parts) in rows {
            self.call(alloc, *proc, parts)?;
        }
        Ok(())
    }

    /// Takes the checkpoint of a later place.
    pub fn take(&mut self, alloc: Global, place: u32) -> Result<(), Fail>
        requires { IsBeside self.old.limits (⟦<Srv as FileServer>⟧.state self.old.server) self.old.table
            self.old.place self.old.store }
        ensures { OnOk result (IsBeside self.new.limits (⟦<Srv as FileServer>⟧.state self.new.server) self.new.table
            self.new.place self.new.store) }
    {
        if place <= self.place {
            return Err("no later place".into());
        }
        let tree = digests_of(alloc, &mut self.server, &self.table)?;
        match self.store.take(place, &tree) {
            Ok(()) => {
                self.place = place;
                Ok(())
            }
            Err(_) => Err("no memory".into()),
        }
    }

    /// The text of an index at a place, if it is held.
    fn text(&mut self, place: u32, index: u32) -> Result<Option<RcSlice<u8>>, Fail>
        requires { IsBeside self.old.limits (⟦<Srv as FileServer>⟧.state self.old.server) self.old.table
            self.old.place self.old.store }
        ensures { OnOk result (IsBeside self.new.limits (⟦<Srv as FileServer>⟧.state self.new.server) self.new.table
            self.new.place self.new.store) }
    {
        match self.store.get(&mut self.server, &self.table, place, index) {
            Ok(text) => Ok(text),
            Err(_) => Err("a text can't be read".into()),
        }
    }

    /// Fails unless the store holds these words of an index at a place.
    fn holds(&mut self, alloc: Global, place: u32, index: u32, parts: &[&[u32]]) -> Result<(), Fail>
        requires { IsBeside self.old.limits (⟦<Srv as FileServer>⟧.state self.old.server) self.old.table
            self.old.place self.old.store }
        ensures { OnOk result (IsBeside self.new.limits (⟦<Srv as FileServer>⟧.state self.new.server) self.new.table
            self.new.place self.new.store) }
    {
        let wanted = bytes_of(alloc, parts)?;
        let Some(text) = self.text(place, index)? else {
            return Err("no text is held".into());
        };
        if text.as_slice() != wanted.as_slice() {
            return Err(format!(in alloc; "another text of {index} at {place}")?.into());
        }
        Ok(())
    }

    /// Fails unless the store holds these texts at a place.
    pub fn holds_all(&mut self, alloc: Global, place: u32, rows: &[Text]) -> Result<(), Fail>
        requires { IsBeside self.old.limits (⟦<Srv as FileServer>⟧.state self.old.server) self.old.table
            self.old.place self.old.store }
        ensures { OnOk result (IsBeside self.new.limits (⟦<Srv as FileServer>⟧.state self.new.server) self.new.table
            self.new.place self.new.store) }
    {
        for (index, parts) in rows {
            self.holds(alloc, place, *index, parts)?;
        }
        Ok(())
    }

    /// Fails where the store holds a text of an index at a place.
    pub fn lacks(&mut self, place: u32, index: u32) -> Result<(), Fail>
        requires { IsBeside self.old.limits (⟦<Srv as FileServer>⟧.state self.old.server) self.old.table
            self.old.place self.old.store }
        ensures { OnOk result (IsBeside self.new.limits (⟦<Srv as FileServer>⟧.state self.new.server) self.new.table
            self.new.place self.new.store) }
    {
        match self.text(place, index)? {
            Some(_) => Err("a text is held".into()),
            None => Ok(()),
        }
    }

    /// Fails unless these indexes, rising, were told since the newest checkpoint.
    pub fn was_told(&self, wanted: &[u32]) -> Result<(), Fail> {
        match self.store.touched() {
            Ok(found) if found.as_slice() == wanted => Ok(()),
            Ok(_) => Err("others are touched".into()),
            Err(_) => Err("no memory".into()),
        }
    }

    /// Forgets the checkpoints of lower places.
    pub fn drop_before(&mut self, place: u32)
        requires { IsBeside self.old.limits (⟦<Srv as FileServer>⟧.state self.old.server) self.old.table
            self.old.place self.old.store }
        ensures { IsBeside self.new.limits (⟦<Srv as FileServer>⟧.state self.new.server) self.new.table
            self.new.place self.new.store }
    {
        self.store.drop_before(place);
    }
}
