//! The bytes of files, and of links' texts.

ghost use Rattle.std.specs.Prelude.{◌≡◌, ◌≤◌, ◌<◌, length, option_map, IfOk, OnOk};
ghost use Rattle.log_segments.specs.Newest.{find};
ghost use Rattle.log_records.specs.Layout as layout;
ghost use Rattle.log_records.specs.Layout.{value_of, chunk_in};
ghost use Rattle.log_store.specs.Store.{IsStore, HasRoom, HasBefore, KeepsOthers, Puts, Drops, PutsChunk, DropsChunk, Reads, Writes, live_in};

use crate::store::LogStore;
use log_records::{NodeId, chunk_key, chunk_record, gone_record, read_chunk};
use outside::{Medium, MediumErr};

impl<M: Medium> LogStore<M> {
    /// The bytes of a chunk.
    pub fn chunk(&mut self, id: &NodeId, place: u32) -> Result<Option<Vec<u8>>, MediumErr>
        requires { IsStore M.content M.size self.old }
        ensures found { let live = live_in M.content M.size self.old in
            let chunk = option_map (λ r. chunk_in (value_of r)) (find (layout.chunk_key id.now place) live) in
            IfOk result (λ found. option_map (λ bytes. bytes.items) found ≡ chunk) }
        ensures reads { Reads M.content M.size M.faults self.old self.new result }
    {
        let key = chunk_key(self.alloc, id, place)?;
        match self.find(&key)? {
            Some(block) => Ok(Some(read_chunk(self.alloc, &block)?)),
            None => Ok(None),
        }
    }

    /// Puts a chunk of at most 480 bytes. All chunks before it must be there.
    pub fn put_chunk(&mut self, id: &NodeId, place: u32, bytes: &[u8]) -> Result<(), MediumErr>
        requires store { IsStore M.content M.size self.old }
        requires room { HasRoom M.content M.size self.old }
        requires few { place < 17477 }
        requires before { HasBefore (live_in M.content M.size self.old) id.now place }
        requires bytes { length bytes.now ≤ 480 }
        ensures puts { let live = live_in M.content M.size in
            OnOk result (PutsChunk (live self.old) id.now place bytes.now (live self.new)) }
        ensures here { let live = live_in M.content M.size in let key = layout.chunk_key id.now place in
            OnOk result (Puts chunk_in (live self.old) key bytes.now (live self.new)) }
        ensures others { let live = live_in M.content M.size in
            OnOk result (KeepsOthers (live self.old) (layout.chunk_key id.now place) (live self.new)) }
        ensures writes { Writes M.content M.size M.faults self.old self.new result }
    {
        self.put(&chunk_record(id, place, bytes))?;
        Ok(())
    }

    /// Takes a chunk out. All chunks before it must be there.
    pub fn drop_chunk(&mut self, id: &NodeId, place: u32) -> Result<(), MediumErr>
        requires store { IsStore M.content M.size self.old }
        requires room { HasRoom M.content M.size self.old }
        requires few { place < 17477 }
        requires before { HasBefore (live_in M.content M.size self.old) id.now place }
        ensures drops { let live = live_in M.content M.size in
            OnOk result (DropsChunk (live self.old) id.now place (live self.new)) }
        ensures none { let live = live_in M.content M.size in
            OnOk result (Drops (live self.old) (layout.chunk_key id.now place) (live self.new)) }
        ensures others { let live = live_in M.content M.size in
            OnOk result (KeepsOthers (live self.old) (layout.chunk_key id.now place) (live self.new)) }
        ensures writes { Writes M.content M.size M.faults self.old self.new result }
    {
        let key = chunk_key(self.alloc, id, place)?;
        self.put(&gone_record(&key))?;
        Ok(())
    }
}
