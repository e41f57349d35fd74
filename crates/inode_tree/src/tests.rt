//! A medium over memory is wiped, and its inodes are taken until none is free.

use super::*;
use block_alloc::BlockMap;
use inode_store::InodeStore;
use nfs2_types::Kind;
use outside::MemMedium;
use pointer_tree::Area;
use server_trait::ServerLimits;
use std::test::Fail;

#[test]
fn inodes_are_taken_until_none_is_free(rt: HostRuntime) -> Result<(), Fail> {
    let alloc = rt.alloc();
    let mut tree = InodeTree {
        alloc,
        limits: ServerLimits {
            nodes: 4,
            bytes: 4096,
        },
        store: InodeStore {
            medium: MemMedium::new(alloc, 200, Vec::new(alloc)),
            map: BlockMap::new(alloc, 0)?,
            area: Area { first: 5, end: 112 },
            inodes: 4,
        },
        tables: InodeTables::new(alloc, 4, 0)?,
    };
    tree.wipe(&[b'x'; 512])?;
    assert_eq!(rt; tree.take_node(Kind::File)?, Some(1));
    assert_eq!(rt; tree.take_node(Kind::Dir)?, Some(2));
    assert_eq!(rt; tree.take_node(Kind::Link)?, Some(3));
    assert_eq!(rt; tree.take_node(Kind::File)?, None);
    Ok(())
}
