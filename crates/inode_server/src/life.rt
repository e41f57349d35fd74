//! A tree that is made anew, or read again.

ghost use Rattle.std.specs.Prelude.{◌≡◌, ◌≤◌, ◌++◌, Bool, false, Some, OnOk, IfErr, codes, replicate};
ghost use Rattle.std.specs.Int.{w32, to_be_bytes};
ghost use Rattle.server_trait.specs.Step.{Counts};
ghost use Rattle.server_trait.specs.Calls.{Reboot, Wipe};
ghost use Rattle.inode_store.specs.Layout.{superblock, HoldsTree};
ghost use Rattle.inode_tree.specs.Sound.{IsPlanned};
ghost use Rattle.inode_tree.specs.Whole.{tree_in, IsWhole};
ghost use Rattle.inode_server.specs.Answers.{is_kept, stands};
ghost use Rattle.inode_server.specs.Ready.{IsReady};
ghost use Rattle.inode_server.specs.State.{Does, NoneStays, server_of};

use crate::answers::srv_error;
use inode_mount::{holds_tree, read_tables};
use inode_tree::InodeTree;
use outside::{Block, Medium};
use server_trait::{ServerLimits, SrvErr};

/// The eight letters, then the most nodes and the most bytes.
fn limits_bytes(limits: ServerLimits) -> [u8; 16]
    requires { limits.bytes ≤ 1073741824 }
    ensures { result ≡ codes "BASEINO1" ++ (to_be_bytes w32 limits.nodes ++ to_be_bytes w32 limits.bytes) }
{
    let n = limits.nodes.to_be_bytes();
    let b = (limits.bytes as u32).to_be_bytes();
    [
        b'B', b'A', b'S', b'E', b'I', b'N', b'O', b'1', n[0], n[1], n[2], n[3], b[0], b[1], b[2],
        b[3],
    ]
}

/// The bytes of block 0.
fn superblock_of(limits: ServerLimits) -> Block
    requires { limits.bytes ≤ 1073741824 }
    ensures { result ≡ (codes "BASEINO1" ++ (to_be_bytes w32 limits.nodes ++ to_be_bytes w32 limits.bytes)) ++
        replicate 496 0 }
{
    let mut block = [0; 512];
    block[..16].copy_from_slice(&limits_bytes(limits));
    block
}

/// Makes an empty root, whatever the medium held.
pub(crate) fn wipe<M: Medium>(tree: &mut InodeTree<M>) -> Result<(), SrvErr>
    requires { IsPlanned tree.old.limits tree.old.store.area tree.old.store.inodes (M.size tree.old.store.medium) }
    ensures wipe { (up : Bool) → Wipe (server_of M.content M.faults up tree.old) result
        (server_of M.content M.faults (stands result) tree.new) }
    ensures ready { IsReady M.content M.size (stands result) tree.new }
{
    let name = superblock_of(tree.limits);
    match tree.wipe(&name) {
        Ok(()) => Ok(()),
        Err(e) => Err(srv_error(e)),
    }
}

/// Reads the tree again, each node under another handle.
pub(crate) fn reboot<M: Medium>(tree: &mut InodeTree<M>) -> Result<(), SrvErr>
    requires whole { IsWhole M.content M.size tree.old }
    requires name { M.content tree.old.store.medium 0 ≡ superblock tree.old.limits }
    ensures does { Does M.content M.size M.faults Reboot tree.old result tree.new }
    ensures stale { OnOk result (NoneStays (Some (tree_in M.content tree.old)) (Some (tree_in M.content tree.new))) }
{
    holds_tree(tree);
    match read_tables(tree) {
        Ok(()) => Ok(()),
        Err(e) => Err(srv_error(e)),
    }
}

/// Reads the tree that the medium holds.
pub(crate) fn read_tree<M: Medium>(tree: &mut InodeTree<M>) -> Result<(), SrvErr>
    requires planned { IsPlanned tree.old.limits tree.old.store.area tree.old.store.inodes
        (M.size tree.old.store.medium) }
    requires holds { HoldsTree tree.old.limits tree.old.store.area tree.old.store.inodes
        (M.content tree.old.store.medium) }
    ensures whole { OnOk result (IsWhole M.content M.size tree.new) }
    ensures broken { IfErr result (λ e. is_kept e ≡ false) }
    ensures content { M.content tree.new.store.medium ≡ M.content tree.old.store.medium }
    ensures limits { tree.new.limits ≡ tree.old.limits }
    ensures area { tree.new.store.area ≡ tree.old.store.area }
    ensures inodes { tree.new.store.inodes ≡ tree.old.store.inodes }
    ensures size { M.size tree.new.store.medium ≡ M.size tree.old.store.medium }
    ensures faults { Counts (M.faults tree.old.store.medium) (M.faults tree.new.store.medium) result }
{
    match read_tables(tree) {
        Ok(()) => Ok(()),
        Err(e) => Err(srv_error(e)),
    }
}
