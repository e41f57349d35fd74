//! A server and its table as a service begins.

ghost use Rattle.std.specs.Prelude.{◌≡◌, ◌≤◌, ◌+◌, ◌-◌, ◌∷◌, ℕ, List, Some, None, true, cond, replicate, IsSome, IsSomeAnd, IfOk, OnOk};
ghost use Rattle.std.specs.Ordering.{nat_cmp, is_eq};
ghost use Rattle.std.specs.Cmp.Lexicographic.{slice_cmp};
ghost use Rattle.std.specs.BTreeMap as ordered;
ghost use Rattle.std.specs.FinMap.{empty};
ghost use Rattle.nfs2_types.specs.Names.{is_name};
ghost use Rattle.server_trait.specs.Tree.{Tree, Node, NamesOf, node_at, edited, with_attr};
ghost use Rattle.server_trait.specs.Step.{LacksName};
ghost use Rattle.server_trait.specs.Calls.{Made};
ghost use Rattle.abs_model.specs.Array.{empty_array};
ghost use Rattle.conf_map.specs.Stands.{Stands};
ghost use Rattle.conf_map.specs.Tallied.{Tallied};
ghost use Rattle.conf_map.specs.Notice.{Watched};
ghost use Rattle.conf_map.specs.Fresh.{HoldsUpTo, HasRoomForOne, IsEmptyTree, unused_row, export_row};

use crate::failure::broken;
use crate::space::SPARE_BYTES;
use nfs2_types::{Handle, Time};
use server_trait::{ConfEntry, ConfTable, FileServer, Srv, WrapErr};
use std::alloc::{AllocError, Global};
use std::collections::BTreeMap;

/// The first moment.
const ZERO_TIME: Time = Time { secs: 0, micros: 0 };

/// A handle, and the number of the node that it names.
#[derive(Clone, Copy)]
struct Place {
    handle: Handle,
    number: u64,
}

/// Makes a directory under a new name, where the server has room for it.
pub fn make_node_dir(server: &mut Srv, dir: &Handle, name: &[u8]) -> Result<Handle, WrapErr>
    requires lacks { IsSomeAnd (state server.old).tree (λ t. LacksName t dir.now name.now) }
    requires name { is_name name.now ≡ true }
    requires room { HasRoomForOne (state server.old) }
    ensures made { IfOk result (λ h. (t : Tree) → (state server.old).tree ≡ Some t →
        Made t dir.now name.now (NamesOf empty) h (state server.new).tree) }
    ensures watched { Watched (state server.old) (state server.new) result }
{
    match server.mkdir(dir, name) {
        Ok(handle) => Ok(handle),
        Err(error) => Err(broken(error)),
    }
}

/// Lets everyone read, write and search a directory.
fn open_to_all(server: &mut Srv, dir: &Handle) -> Result<(), WrapErr>
    requires node { IsSomeAnd (state server.old).tree (λ t. IsSome (node_at t dir.now)) }
    ensures set { OnOk result ((t : Tree) → (state server.old).tree ≡ Some t →
        (state server.new).tree ≡ Some (edited t dir.now (with_attr 511 0 0))) }
    ensures watched { Watched (state server.old) (state server.new) result }
{
    match server.set_attr(dir, 0o777, 0, 0) {
        Ok(()) => Ok(()),
        Err(error) => Err(broken(error)),
    }
}

/// The number of a node.
fn number_of(server: &mut Srv, node: &Handle) -> Result<u64, WrapErr>
    requires node { IsSomeAnd (state server.old).tree (λ t. IsSome (node_at t node.now)) }
    ensures number { IfOk result (λ number. (t : Tree) (n : Node) → (state server.old).tree ≡ Some t →
        node_at t node.now ≡ Some n → number ≡ n.number) }
    ensures tree { OnOk result ((state server.new).tree ≡ (state server.old).tree) }
    ensures watched { Watched (state server.old) (state server.new) result }
{
    match server.attr(node) {
        Ok(attr) => Ok(attr.number),
        Err(error) => Err(broken(error)),
    }
}

/// Wipes the server and makes the directories of its root. The place is that of `export`.
fn make_tree(server: &mut Srv) -> Result<Place, WrapErr>
    requires { HoldsUpTo (state server.old).limits 3 1024 }
    ensures empty { IfOk result (λ export. IsEmptyTree (state server.new).tree export.handle export.number) }
    ensures watched { Watched (state server.old) (state server.new) result }
{
    match server.wipe() {
        Ok(()) => {}
        Err(error) => return Err(broken(error)),
    }
    let root = server.root();
    let handle = make_node_dir(server, &root, b"export")?;
    make_node_dir(server, &root, b"staging")?;
    open_to_all(server, &handle)?;
    let number = number_of(server, &handle)?;
    Ok(Place { handle, number })
}

/// The table of an empty array.
fn first_table(alloc: Global, export: Place, n: u32) -> Result<ConfTable, AllocError>
    requires { 1 ≤ n }
    ensures rows { IfOk result (λ table.
        table.rows.items ≡ export_row export.handle export.number ∷ replicate (n - 1) unused_row) }
    ensures by_handle { IfOk result (λ table. (q : List ℕ) →
        ordered.get (slice_cmp nat_cmp) table.by_handle q ≡
        cond (is_eq (slice_cmp nat_cmp export.handle q)) (Some 0) None) }
    ensures used { IfOk result (λ table. table.used ≡ 0) }
    ensures lowest { IfOk result (λ table. table.lowest ≡ 0) }
{
    let unused = ConfEntry {
        generation: 0,
        handle: None,
        number: 0,
        parent: 0,
        atime: ZERO_TIME,
        mtime: ZERO_TIME,
        ctime: ZERO_TIME,
    };
    let mut rows = vec![in alloc; unused; n as usize]?;
    rows[0] = ConfEntry {
        generation: 1,
        handle: Some(export.handle),
        number: export.number,
        ..unused
    };
    let mut by_handle = BTreeMap::new(alloc);
    by_handle.insert(export.handle, 0)?;
    Ok(ConfTable {
        rows,
        by_handle,
        used: 0,
        lowest: 0,
    })
}

/// Wipes a server and makes a table of `n` rows, so that they stand for the array with which a service begins. It asks
/// nothing of what was there. The server holds the spare bytes at least, and three nodes more than there are entries.
pub fn fresh(alloc: Global, server: &mut Srv, table: &mut ConfTable, n: u32) -> Result<(), WrapErr>
    requires some { 1 ≤ n }
    requires room { HoldsUpTo (state server.old).limits (n + 3) SPARE_BYTES }
    ensures stands { OnOk result (Stands (state server.new).tree table.new (empty_array n)) }
    ensures tallied { OnOk result (Tallied table.new (empty_array n)) }
    ensures watched { Watched (state server.old) (state server.new) result }
{
    let export = make_tree(server)?;
    let made = first_table(alloc, export, n)?;
    *table = made;
    Ok(())
}
