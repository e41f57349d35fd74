//! The tree that a medium holds.

ghost use Rattle.std.specs.Prelude.{◌≡◌, ◌^◌, ◌<◌, ◌≤◌, IfOk};
ghost use Rattle.inode_tree.specs.Planned.{blocks_for, epoch_of};
ghost use Rattle.inode_tree.specs.Sound.{IsPlanned};

use crate::tables::InodeTables;
use block_alloc::BlockMap;
use inode_store::InodeStore;
use nfs2_types::NoMemory;
use outside::Medium;
use pointer_tree::Area;
use server_trait::ServerLimits;
use std::alloc::Global;

/// The inodes of a medium, and tables of them in memory. After an error of a call nothing is known of either.
#[derive(Drop)]
pub struct InodeTree<M> {
    pub alloc: Global,
    pub limits: ServerLimits,
    pub store: InodeStore<M>,
    pub tables: InodeTables,
}

impl<M: Medium + Drop> InodeTree<M> {
    /// A medium of which nothing is read yet, and tables of no inodes, under handles of epoch 0.
    pub fn new(alloc: Global, medium: M, limits: ServerLimits) -> Result<InodeTree<M>, NoMemory>
        requires room { blocks_for limits ≤ M.size medium }
        requires small { M.size medium < 2 ^ 32 }
        requires limited { limits.bytes ≤ 1073741824 }
        ensures planned { IfOk result (λ t. IsPlanned t.limits t.store.area t.store.inodes (M.size t.store.medium)) }
        ensures medium { IfOk result (λ t. t.store.medium ≡ medium) }
        ensures limits { IfOk result (λ t. t.limits ≡ limits) }
        ensures epoch { IfOk result (λ t. epoch_of t.tables ≡ 0) }
    {
        let inodes = limits.nodes.max(1);
        let area = Area {
            first: 1 + inodes,
            end: 64 + 8 * inodes + (limits.bytes / 256) as u32,
        };
        let tables = InodeTables::new(alloc, 0, 0)?;
        let map = BlockMap::new(alloc, 0)?;
        let store = InodeStore {
            medium,
            map,
            area,
            inodes,
        };
        Ok(InodeTree {
            alloc,
            limits,
            store,
            tables,
        })
    }
}

impl<M: Medium> InodeTree<M> {
    /// The medium as it is.
    pub fn into_medium(self) -> M
        ensures { result ≡ self.store.medium }
    {
        let InodeTree {
            alloc: _,
            limits: _,
            store,
            tables: _,
        } = self;
        let InodeStore {
            medium,
            map: _,
            area: _,
            inodes: _,
        } = store;
        medium
    }
}
