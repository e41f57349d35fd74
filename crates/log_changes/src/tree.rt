//! A log with its memory.

ghost use Rattle.std.specs.Prelude.{◌≡◌};
ghost use Rattle.log_changes.specs.Kept.{log_medium};

use log_index::LogIndex;
use log_store::LogStore;
use outside::Medium;
use server_trait::ServerLimits;
use std::alloc::Global;

/// A tree on a log, and what is kept of it in memory. Where a call answers an error, it is not known what is left.
#[derive(Drop)]
pub struct LogTree<M: Medium> {
    pub alloc: Global,
    pub store: LogStore<M>,
    pub index: LogIndex,
    pub limits: ServerLimits,
}

impl<M: Medium> LogTree<M> {
    /// A tree whose medium is not read yet. It takes no memory.
    pub fn new(alloc: Global, medium: M, limits: ServerLimits) -> LogTree<M>
        ensures medium { log_medium result ≡ medium }
        ensures limits { result.limits ≡ limits }
    {
        LogTree {
            alloc,
            store: LogStore::new(alloc, medium),
            index: LogIndex::new(alloc),
            limits,
        }
    }

    /// The medium, given back.
    pub fn into_medium(self) -> M
        ensures { result ≡ log_medium self }
    {
        self.store.into_medium()
    }
}
