//! Calls on a store, with what they are to answer.

ghost use Rattle.std.specs.Prelude.{◌≡◌, ◌++◌, true, false, IfOk, OnOk, is_some};
ghost use Rattle.std.specs.FinMap as map;
ghost use Rattle.nfs2_types.specs.Names.{is_name};
ghost use Rattle.path_store.specs.Tables.{HasRoom};
ghost use Rattle.path_store.specs.Stored.{HasNoNames, IsAtOrBelow, IsDir, IsUnnamed};

use crate::dirs::row_at;
use crate::{PathStore, place_of};
use nfs2_types::{Handle, is_bad, is_dot};
use std::alloc::Global;
use std::test::Fail;

/// A call with what it is to answer. The handle of a number carries it as its place; the root's is 0.
#[derive(Clone, Copy)]
pub enum Case {
    AddDir(u8, &'static [u8], u8),
    Add(u8, &'static [u8], u8),
    Remove(u8, &'static [u8]),
    Rename(u8, &'static [u8], u8, &'static [u8]),
    Get(u8, &'static [u8], Option<u8>),
    List(u8, &'static [(&'static [u8], u8)]),
    IsBelow(u8, u8, bool),
}

/// Whether a handle is that of a directory.
fn is_dir(store: &PathStore, dir: &Handle) -> bool
    ensures { result ≡ is_some (map.get store.now.dirs dir.now) }
{
    store.dirs.get(dir).is_some()
}

/// Whether no other directory has the place of a handle.
fn has_room(store: &PathStore, dir: &Handle) -> bool
    ensures { result ≡ true → HasRoom store.now.dirs dir.now }
{
    let dirs = &store.dirs;
    match row_at(dirs.rows.as_slice(), place_of(dir)) {
        Some(row) => row.handle == *dir,
        None => true,
    }
}

/// The handle of a number.
fn handle(number: u8) -> Handle {
    let mut handle = [0; 32];
    handle[23] = number;
    handle
}

/// Whether a name leads to a handle.
fn is_named(store: &PathStore, to: &Handle) -> bool
    requires { store.now.whole ≡ true }
    ensures { result ≡ false → IsUnnamed store.now to.now }
{
    for (_, row) in store.rows.iter() {
        if row.to == *to {
            return true;
        }
    }
    false
}

/// Whether a handle has no names.
fn is_bare(store: &PathStore, dir: &Handle) -> Result<bool, Fail>
    requires { store.now.whole ≡ true }
    ensures { IfOk result (λ b. b ≡ true → HasNoNames store.now dir.now) }
{
    if store.dirs.get(dir).is_none() {
        return Ok(true);
    }
    match store.list(dir) {
        Ok(rows) => Ok(rows.as_slice().is_empty()),
        Err(_) => Err("memory".into()),
    }
}

/// Where a name leads, which is a name.
fn found(store: &PathStore, dir: &Handle, name: &[u8]) -> Result<Option<Handle>, Fail>
    requires { store.now.whole ≡ true }
    ensures leads { IfOk result (λ o. o ≡ map.get store.now.names (dir.now ++ name.now)) }
    ensures name { OnOk result (is_name name.now ≡ true) }
{
    if is_bad(name) || is_dot(name) || name.len() > 255 {
        return Err("name".into());
    }
    match store.get(dir, name) {
        Ok(found) => Ok(found),
        Err(_) => Err("memory".into()),
    }
}

/// Adds a name that leads to what is no directory, where the store takes it.
fn added(store: &mut PathStore, dir: &Handle, name: &[u8], to: &Handle) -> Result<bool, Fail>
    requires { store.old.whole ≡ true }
    ensures { OnOk result (store.new.whole ≡ true) }
{
    let None = found(store, dir, name)? else {
        return Ok(false);
    };
    if !is_dir(store, dir) {
        return Ok(false);
    }
    if is_dir(store, to) {
        return Ok(false);
    }
    match store.add(dir, name, to) {
        Ok(()) => Ok(true),
        Err(_) => Err("memory".into()),
    }
}

/// Adds a directory, where the store takes it.
fn added_dir(store: &mut PathStore, dir: &Handle, name: &[u8], to: &Handle) -> Result<bool, Fail>
    requires { store.old.whole ≡ true }
    ensures { OnOk result (store.new.whole ≡ true) }
{
    let None = found(store, dir, name)? else {
        return Ok(false);
    };
    if !is_dir(store, dir) {
        return Ok(false);
    }
    if is_dir(store, to) {
        return Ok(false);
    }
    if is_named(store, to) {
        return Ok(false);
    }
    if !has_room(store, to) {
        return Ok(false);
    }
    match store.add_dir(dir, name, to) {
        Ok(()) => Ok(true),
        Err(_) => Err("memory".into()),
    }
}

/// Takes out a name, where the store takes that.
fn removed(store: &mut PathStore, dir: &Handle, name: &[u8]) -> Result<bool, Fail>
    requires { store.old.whole ≡ true }
    ensures { OnOk result (store.new.whole ≡ true) }
{
    let Some(to) = found(store, dir, name)? else {
        return Ok(false);
    };
    if !is_dir(store, dir) {
        return Ok(false);
    }
    if !is_bare(store, &to)? {
        return Ok(false);
    }
    match store.remove(dir, name, &to) {
        Ok(()) => Ok(true),
        Err(_) => Err("memory".into()),
    }
}

/// Whether a directory lies below a node, which may be none.
fn is_within(store: &PathStore, top: &Handle, dir: &Handle) -> bool
    requires whole { store.now.whole ≡ true }
    requires dir { IsDir store.now dir.now }
    ensures { result ≡ false → IsDir store.now top.now → IsAtOrBelow store.now.names top.now dir.now → ⊥ }
{
    if !is_dir(store, top) {
        return false;
    }
    store.is_below(top, dir)
}

/// Moves a name, where the store takes that.
fn renamed(
    store: &mut PathStore,
    from: &Handle,
    name: &[u8],
    to: &Handle,
    to_name: &[u8],
) -> Result<bool, Fail>
    requires { store.old.whole ≡ true }
    ensures { OnOk result (store.new.whole ≡ true) }
{
    let Some(moved) = found(store, from, name)? else {
        return Ok(false);
    };
    let None = found(store, to, to_name)? else {
        return Ok(false);
    };
    if !is_dir(store, from) {
        return Ok(false);
    }
    if !is_dir(store, to) {
        return Ok(false);
    }
    if is_within(store, &moved, to) {
        return Ok(false);
    }
    match store.rename(from, name, to, to_name, &moved) {
        Ok(()) => Ok(true),
        Err(_) => Err("memory".into()),
    }
}

/// Whether a directory has these names, in this order.
fn lists(store: &PathStore, dir: &Handle, wanted: &[(&[u8], u8)]) -> Result<bool, Fail>
    requires { store.now.whole ≡ true }
{
    if !is_dir(store, dir) {
        return Ok(false);
    }
    let Ok(rows) = store.list(dir) else {
        return Err("memory".into());
    };
    Ok(
        rows.len() == wanted.len()
            && rows.iter().zip(wanted).all(|(row, (name, to))| row.name.as_slice() == *name
                && row.handle == handle(*to)),
    )
}

/// Whether a call answers as wanted.
fn holds(store: &mut PathStore, case: Case) -> Result<bool, Fail>
    requires { store.old.whole ≡ true }
    ensures { OnOk result (store.new.whole ≡ true) }
{
    match case {
        Case::AddDir(dir, name, to) => added_dir(store, &handle(dir), name, &handle(to)),
        Case::Add(dir, name, to) => added(store, &handle(dir), name, &handle(to)),
        Case::Remove(dir, name) => removed(store, &handle(dir), name),
        Case::Rename(from, name, to, to_name) => {
            renamed(store, &handle(from), name, &handle(to), to_name)
        }
        Case::Get(dir, name, Some(to)) => Ok(found(store, &handle(dir), name)? == Some(handle(to))),
        Case::Get(dir, name, None) => Ok(found(store, &handle(dir), name)? == None),
        Case::List(dir, wanted) => lists(store, &handle(dir), wanted),
        Case::IsBelow(top, dir, wanted) => {
            let (top, dir) = (handle(top), handle(dir));
            if !is_dir(store, &top) || !is_dir(store, &dir) {
                return Ok(false);
            }
            Ok(store.is_below(&top, &dir) == wanted)
        }
    }
}

/// Which of the calls on a new store answers otherwise.
pub fn odd_one(alloc: Global, cases: &[Case]) -> Result<Option<usize>, Fail> {
    let Ok(mut store) = PathStore::new(alloc, &handle(0)) else {
        return Err("memory".into());
    };
    for (at, case) in cases.iter().enumerate() {
        if !holds(&mut store, *case)? {
            return Ok(Some(at));
        }
    }
    Ok(None)
}
