//! The names of directories.

ghost use Rattle.std.specs.Prelude.{◌≡◌, ◌≤◌, ◌∷◌, length, IfOk, OnOk, option_map};
ghost use Rattle.std.specs.FinMap.{get};
ghost use Rattle.server_trait.specs.Tree.{named, unnamed};
ghost use Rattle.log_segments.specs.Newest.{ArePlacesUnder};
ghost use Rattle.log_tree.specs.Held.{handle_of, names_of};
ghost use Rattle.log_records.specs.Layout as layout;
ghost use Rattle.log_records.specs.Layout.{child_in};
ghost use Rattle.log_store.specs.Store.{IsStore, HasRoom, KeepsOthers, Puts, Drops, Reads, Writes, live_in, records_in, tree_in};

use crate::store::LogStore;
use log_records::{NodeId, gone_record, name_key, name_record, read_child};
use nfs2_types::NoMemory;
use outside::{Medium, MediumErr};

impl<M: Medium> LogStore<M> {
    /// The node to which a name of a directory leads.
    pub fn lookup(&mut self, dir: &NodeId, name: &[u8]) -> Result<Option<NodeId>, MediumErr>
        requires store { IsStore M.content M.size self.old }
        requires name { length name.now ≤ 255 }
        ensures found { let live = live_in M.content M.size self.old in
            IfOk result (λ child. option_map handle_of child ≡ get (names_of live dir.now) name.now) }
        ensures reads { Reads M.content M.size M.faults self.old self.new result }
    {
        let key = name_key(self.alloc, dir, name)?;
        match self.find(&key)? {
            Some(block) => Ok(Some(read_child(&block))),
            None => Ok(None),
        }
    }

    /// Where in the log the records of a directory's names stand, the newest first. It reads no block, and looks at no
    /// other key.
    pub fn name_places(&self, dir: &NodeId) -> Result<Vec<u32>, NoMemory>
        requires { IsStore M.content M.size self.now }
        ensures { let records = records_in M.content M.size self.now in
            IfOk result (λ places. ArePlacesUnder records (2 ∷ dir.now) places.items) }
    {
        let prefix = name_key(self.alloc, dir, &[])?;
        self.log.places_under(&prefix)
    }

    /// Makes a name of a directory lead to a node.
    pub fn put_name(&mut self, dir: &NodeId, name: &[u8], child: &NodeId) -> Result<(), MediumErr>
        requires store { IsStore M.content M.size self.old }
        requires room { HasRoom M.content M.size self.old }
        requires name { length name.now ≤ 255 }
        ensures named { let tree = tree_in M.content M.size in
            let leads = named (tree self.old) (handle_of dir.now) name.now (handle_of child.now) in
            OnOk result (tree self.new ≡ leads) }
        ensures here { let live = live_in M.content M.size in let key = layout.name_key dir.now name.now in
            OnOk result (Puts child_in (live self.old) key child.now (live self.new)) }
        ensures others { let live = live_in M.content M.size in
            OnOk result (KeepsOthers (live self.old) (layout.name_key dir.now name.now) (live self.new)) }
        ensures writes { Writes M.content M.size M.faults self.old self.new result }
    {
        self.put(&name_record(dir, name, child))?;
        Ok(())
    }

    /// Takes out a name of a directory.
    pub fn drop_name(&mut self, dir: &NodeId, name: &[u8]) -> Result<(), MediumErr>
        requires store { IsStore M.content M.size self.old }
        requires room { HasRoom M.content M.size self.old }
        requires name { length name.now ≤ 255 }
        ensures unnamed { let tree = tree_in M.content M.size in
            OnOk result (tree self.new ≡ unnamed (tree self.old) (handle_of dir.now) name.now) }
        ensures none { let live = live_in M.content M.size in
            OnOk result (Drops (live self.old) (layout.name_key dir.now name.now) (live self.new)) }
        ensures others { let live = live_in M.content M.size in
            OnOk result (KeepsOthers (live self.old) (layout.name_key dir.now name.now) (live self.new)) }
        ensures writes { Writes M.content M.size M.faults self.old self.new result }
    {
        let key = name_key(self.alloc, dir, name)?;
        self.put(&gone_record(&key))?;
        Ok(())
    }
}
