//! Objects begin in the staging directory.

ghost use Rattle.std.specs.Prelude.{◌≡◌, ◌<◌, ◌≤◌, ◌^◌, List, [], Some, true, false, set, length, IsSomeAnd, IfOk, OnOk};
ghost use Rattle.std.specs.Fmt.{decimal};
ghost use Rattle.std.specs.String.{string_bytes};
ghost use Rattle.nfs2_types.specs.Names.{is_name};
ghost use Rattle.server_trait.specs.Tree.{Tree, BytesOf, TextOf};
ghost use Rattle.server_trait.specs.Step.{LacksName};
ghost use Rattle.server_trait.specs.Calls.{Made};
ghost use Rattle.abs_model.specs.declared.entry.Entry.{Entry};
ghost use Rattle.abs_model.specs.declared.entry.NameRow.{NameRow};
ghost use Rattle.abs_model.specs.Objects.{is_null};
ghost use Rattle.conf_map.specs.Notice.{Watched};
ghost use Rattle.staging.specs.Begin.{CanBegin, HasRoomFor, begun_at, begun_bytes, begun_content, staged_with};
ghost use Rattle.staging.specs.Staged.{StagedAt};

use abs_model::{Entry, Object};
use conf_map::{attr_of, bind_row, broken, make_node_dir};
use nfs2_types::{Handle, NoMemory, Time};
use server_trait::{ConfEntry, ConfTable, FileServer, Srv, WrapErr};
use std::alloc::{AllocError, Global};

/// The first moment.
const ZERO_TIME: Time = Time { secs: 0, micros: 0 };

/// The name of an object in the staging directory.
pub fn staged_name(alloc: Global, index: u32) -> Result<String, AllocError>
    ensures text { IfOk result (λ text. string_bytes text ≡ decimal index) }
    ensures good { is_name (decimal index) ≡ true }
{
    format!(in alloc; "{index}")
}

/// Makes a file without bytes under a new name.
fn make_file(server: &mut Srv, dir: &Handle, name: &[u8]) -> Result<Handle, WrapErr>
    requires lacks { IsSomeAnd (state server.old).tree (λ t. LacksName t dir.now name.now) }
    requires name { is_name name.now ≡ true }
    requires room { HasRoomFor (state server.old) 0 }
    ensures made { IfOk result (λ h. (t : Tree) → (state server.old).tree ≡ Some t →
        Made t dir.now name.now (BytesOf []) h (state server.new).tree) }
    ensures watched { Watched (state server.old) (state server.new) result }
{
    match server.create(dir, name) {
        Ok(handle) => Ok(handle),
        Err(error) => Err(broken(error)),
    }
}

/// Makes a link with its text under a new name.
fn make_link(server: &mut Srv, dir: &Handle, name: &[u8], text: &[u8]) -> Result<Handle, WrapErr>
    requires lacks { IsSomeAnd (state server.old).tree (λ t. LacksName t dir.now name.now) }
    requires name { is_name name.now ≡ true }
    requires text { length text.now ≤ 1024 }
    requires room { HasRoomFor (state server.old) (length text.now) }
    ensures made { IfOk result (λ h. (t : Tree) → (state server.old).tree ≡ Some t →
        Made t dir.now name.now (TextOf text.now) h (state server.new).tree) }
    ensures watched { Watched (state server.old) (state server.new) result }
{
    match server.symlink(dir, name, text) {
        Ok(handle) => Ok(handle),
        Err(error) => Err(broken(error)),
    }
}

/// Makes the node of an object, as it begins, under a new name.
fn make_node(server: &mut Srv, dir: &Handle, name: &[u8], entry: &Entry) -> Result<Handle, WrapErr>
    requires lacks { IsSomeAnd (state server.old).tree (λ t. LacksName t dir.now name.now) }
    requires name { is_name name.now ≡ true }
    requires live { is_null entry.now ≡ false }
    requires text { begun_bytes entry.now ≤ 1024 }
    requires room { HasRoomFor (state server.old) (begun_bytes entry.now) }
    ensures made { IfOk result (λ h. (t : Tree) → (state server.old).tree ≡ Some t →
        Made t dir.now name.now (begun_content entry.now.object) h (state server.new).tree) }
    ensures watched { Watched (state server.old) (state server.new) result }
{
    match &entry.object {
        Object::Dir { .. } => make_node_dir(server, dir, name),
        Object::File { .. } => make_file(server, dir, name),
        Object::Link { text, .. } => make_link(server, dir, name, text.as_slice()),
        Object::Null => unreachable!(),
    }
}

/// Begins a live object in the staging directory.
pub fn begin(
    alloc: Global,
    server: &mut Srv,
    table: &mut ConfTable,
    staging: &Handle,
    index: u32,
    entry: &Entry,
) -> Result<(), WrapErr>
    requires can { IsSomeAnd (state server.old).tree (λ t. (A : List Entry) × (S : List NameRow)
        × CanBegin t (state server.old).limits staging.now table.old A S index entry.now) }
    requires live { is_null entry.now ≡ false }
    ensures begun { OnOk result ((t : Tree) (A : List Entry) (S : List NameRow) →
        (state server.old).tree ≡ Some t →
        CanBegin t (state server.old).limits staging.now table.old A S index entry.now →
        StagedAt (state server.new).tree staging.now table.new (begun_at A index entry.now)
        (staged_with S index entry.now)) }
    ensures watched { Watched (state server.old) (state server.new) result }
{
    let name = match staged_name(alloc, index) {
        Ok(name) => name,
        Err(_) => return Err(WrapErr::NoMemory),
    };
    let handle = make_node(server, staging, name.as_bytes(), entry)?;
    let told = attr_of(server, &handle)?;
    let row = ConfEntry {
        generation: entry.generation,
        handle: Some(handle),
        number: told.number,
        parent: 0,
        atime: ZERO_TIME,
        mtime: ZERO_TIME,
        ctime: ZERO_TIME,
    };
    match bind_row(table, index, row) {
        Ok(()) => Ok(()),
        Err(_) => Err(WrapErr::NoMemory),
    }
}

/// Whether nothing stands there.
pub fn is_null_entry(entry: &Entry) -> bool
    ensures { result ≡ is_null entry.now }
{
    match &entry.object {
        Object::Null => true,
        _ => false,
    }
}

/// Gives a null entry its generation.
pub fn renew(
    server: &Srv,
    table: &mut ConfTable,
    staging: &Handle,
    index: u32,
    entry: &Entry,
) -> Result<(), NoMemory>
    requires can { IsSomeAnd (state server.now).tree (λ t. (A : List Entry) × (S : List NameRow)
        × CanBegin t (state server.now).limits staging.now table.old A S index entry.now) }
    requires null { is_null entry.now ≡ true }
    ensures begun { OnOk result ((t : Tree) (A : List Entry) (S : List NameRow) →
        (state server.now).tree ≡ Some t →
        CanBegin t (state server.now).limits staging.now table.old A S index entry.now →
        StagedAt (state server.now).tree staging.now table.new (begun_at A index entry.now)
        (staged_with S index entry.now)) }
{
    let row = ConfEntry {
        generation: entry.generation,
        handle: None,
        number: 0,
        parent: 0,
        atime: ZERO_TIME,
        mtime: ZERO_TIME,
        ctime: ZERO_TIME,
    };
    match bind_row(table, index, row) {
        Ok(()) => Ok(()),
        Err(error) => Err(error),
    }
}
