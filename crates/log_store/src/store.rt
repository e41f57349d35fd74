//! A store on a log.

ghost use Rattle.std.specs.Prelude.{◌≡◌, ◌<◌, ◌≤◌, false, [], length, slice_get, OnOk, IfOk, IfSome, Some};
ghost use Rattle.outside.specs.Causes.{WriteHasCause};
ghost use Rattle.log_segments.specs.Newest.{IsLiveAt, after, find};
ghost use Rattle.log_segments.specs.Record.{is_end, is_gone};
ghost use Rattle.log_segments.specs.Segments.{half_size};
ghost use Rattle.log_store.specs.Store.{IsStore, HasRoom, Reads, Writes, live_in, medium_of, records_in};

use log_segments::{Key, Log};
use outside::{Block, Medium, MediumErr};
use std::alloc::Global;

/// Nodes, names and chunks of bytes on a log. Where a call that writes answers an error, the store serves again after a
/// `clear` or a `replay`.
#[derive(Drop)]
pub struct LogStore<M: Medium> {
    pub(crate) alloc: Global,
    pub(crate) log: Log<M>,
}

impl<M: Medium> LogStore<M> {
    /// A store whose medium is not read yet. It takes no memory.
    pub fn new(alloc: Global, medium: M) -> LogStore<M>
        ensures { medium_of result ≡ medium }
    {
        LogStore {
            alloc,
            log: Log::new(alloc, medium),
        }
    }

    /// The medium, given back.
    pub fn into_medium(self) -> M
        ensures { result ≡ medium_of self }
    {
        self.log.into_medium()
    }

    /// Makes the store empty, whatever the medium holds.
    pub fn clear(&mut self) -> Result<(), MediumErr>
        requires half { 1 ≤ half_size (M.size (medium_of self.old)) }
        ensures store { OnOk result (IsStore M.content M.size self.new) }
        ensures empty { OnOk result (live_in M.content M.size self.new ≡ []) }
        ensures size { M.size (medium_of self.new) ≡ M.size (medium_of self.old) }
        ensures cause { WriteHasCause (M.faults (medium_of self.old)) (M.faults (medium_of self.new)) result }
    {
        self.log.clear()?;
        Ok(())
    }

    /// Reads the medium.
    pub fn replay(&mut self) -> Result<(), MediumErr>
        requires half { 1 ≤ half_size (M.size (medium_of self.old)) }
        ensures store { OnOk result (IsStore M.content M.size self.new) }
        ensures content { M.content (medium_of self.new) ≡ M.content (medium_of self.old) }
        ensures size { M.size (medium_of self.new) ≡ M.size (medium_of self.old) }
        ensures cause { WriteHasCause (M.faults (medium_of self.old)) (M.faults (medium_of self.new)) result }
    {
        self.log.replay()?;
        Ok(())
    }

    /// How many records the log has, those among them that later ones replace.
    pub fn len(&self) -> u32
        requires { IsStore M.content M.size self.now }
        ensures { result ≡ length (records_in M.content M.size self.now) }
    {
        self.log.len()
    }

    /// The record at a place of the log, of which the oldest is at 0.
    pub fn read(&mut self, place: u32) -> Result<Block, MediumErr>
        requires store { IsStore M.content M.size self.old }
        requires within { place < length (records_in M.content M.size self.old) }
        ensures read { IfOk result (λ block. slice_get (records_in M.content M.size self.old) place ≡ Some block) }
        ensures whole { IfOk result (λ block. length block ≡ 512) }
        ensures reads { Reads M.content M.size M.faults self.old self.new result }
    {
        let block = self.log.read(place)?;
        Ok(block)
    }

    /// The record at a place of the log, of which the oldest is at 0, where it is the newest of its key and stands.
    pub fn live_at(&mut self, place: u32) -> Result<Option<Block>, MediumErr>
        requires store { IsStore M.content M.size self.old }
        requires within { place < length (records_in M.content M.size self.old) }
        ensures live { IfOk result (IsLiveAt (records_in M.content M.size self.old) place) }
        ensures stands { IfOk result (λ found. IfSome found (λ block. is_gone block ≡ false)) }
        ensures whole { IfOk result (λ found. IfSome found (λ block. length block ≡ 512)) }
        ensures reads { Reads M.content M.size M.faults self.old self.new result }
    {
        let found = self.log.live_at(place)?;
        Ok(found)
    }

    /// Puts a record.
    pub(crate) fn put(&mut self, block: &Block) -> Result<(), MediumErr>
        requires store { IsStore M.content M.size self.old }
        requires room { HasRoom M.content M.size self.old }
        requires stands { is_end block.now ≡ false }
        ensures live { let live = live_in M.content M.size in
            OnOk result (live self.new ≡ after (live self.old) block.now) }
        ensures writes { Writes M.content M.size M.faults self.old self.new result }
    {
        self.log.put(block)?;
        Ok(())
    }

    /// The live record of a key.
    pub(crate) fn find(&mut self, key: &Key) -> Result<Option<Block>, MediumErr>
        requires store { IsStore M.content M.size self.old }
        ensures found { IfOk result (λ found. found ≡ find key.now (live_in M.content M.size self.old)) }
        ensures whole { IfOk result (λ found. IfSome found (λ block. length block ≡ 512)) }
        ensures reads { Reads M.content M.size M.faults self.old self.new result }
    {
        let found = self.log.find(key)?;
        Ok(found)
    }
}
