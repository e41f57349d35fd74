//! A root with attributes, read back from its medium, also where a read fails.

ghost use Rattle.log_held.specs.Room.{IsLarge};

use super::*;
use log_changes::{LogTree, ROOT};
use nfs2_types::Kind;
use outside::{Medium, MediumErr, MemMedium};
use server_trait::ServerLimits;
use std::alloc::Global;
use std::test::Fail;

const LIMITS: ServerLimits = ServerLimits {
    nodes: 1,
    bytes: 128,
};

/// Makes a root with attributes, and reads it from its medium into another tree, once more where that failed. The tree,
/// and whether it failed.
fn make_and_read<M: Medium + Drop>(
    alloc: Global,
    medium: M,
) -> Result<(LogTree<M>, bool), MediumErr>
    requires { IsLarge LIMITS (M.size medium) }
{
    let mut made = LogTree::new(alloc, medium, LIMITS);
    made.wipe()?;
    made.set_attr(&ROOT, 0o755, 7, 8)?;
    let mut tree = LogTree::new(alloc, made.into_medium(), LIMITS);
    let failed = read_log(&mut tree) == Err(MediumErr::Failed);
    if failed {
        read_log(&mut tree)?;
    }
    Ok((tree, failed))
}

/// Whether a tree has that root alone.
fn has_root<M: Medium>(tree: &LogTree<M>) -> bool {
    let Some(root) = tree.index.get(&ROOT) else {
        return false;
    };
    let attributes = root.mode == 0o755 && root.uid == 7 && root.gid == 8;
    let empty = root.kind == Kind::Dir && root.size == 0 && root.links == 0;
    attributes && empty && tree.index.count() == 1 && tree.index.used() == 0
}

#[test]
fn a_root_is_read_back(rt: HostRuntime) -> Result<(), Fail> {
    let alloc = rt.alloc();
    let (tree, failed) = make_and_read(alloc, MemMedium::new(alloc, 137, Vec::new(alloc)))?;
    assert!(rt; has_root(&tree));
    assert!(rt; !failed);
    Ok(())
}

#[test]
fn a_root_is_read_after_a_read_that_failed(rt: HostRuntime) -> Result<(), Fail> {
    let alloc = rt.alloc();
    for call in 7..15 {
        let mut fails = Vec::new(alloc);
        fails.push(call)?;
        let (tree, failed) = make_and_read(alloc, MemMedium::new(alloc, 137, fails))?;
        assert!(rt; has_root(&tree), "{call}");
        assert!(rt; failed, "{call}");
    }
    Ok(())
}
