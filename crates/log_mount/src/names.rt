//! The names.

ghost use Rattle.std.specs.Prelude.{◌+◌, ◌<◌, length, OnOk};
ghost use Rattle.log_tree.specs.Held.{tree_of};
ghost use Rattle.log_store.specs.Store.{IsStore, Reads, live_in, records_in};
ghost use Rattle.log_held.specs.Sound.{ArePlaced, AreTied};
ghost use Rattle.log_index.specs.Memory.{IsIndexed, memory_of};
ghost use Rattle.log_mount.specs.Told.{HasTold, among_names};

use log_index::LogIndex;
use log_records::{is_of_name, read_child, read_id};
use log_store::LogStore;
use outside::{Medium, MediumErr};

/// Tells the memory of the name of the record at a place, if it is a live one of a name.
fn tell_name<M: Medium>(
    store: &mut LogStore<M>,
    index: &mut LogIndex,
    place: u32,
) -> Result<(), MediumErr>
    requires store { IsStore M.content M.size store.old }
    requires placed { ArePlaced (live_in M.content M.size store.old) }
    requires tied { AreTied (live_in M.content M.size store.old) }
    requires within { place < length (records_in M.content M.size store.old) }
    requires told { HasTold among_names (records_in M.content M.size store.old) place (memory_of index.old) }
    ensures told { let records = records_in M.content M.size store.old in
        OnOk result (HasTold among_names records (place + 1) (memory_of index.new)) }
    ensures reads { Reads M.content M.size M.faults store.old store.new result }
{
    let Some(block) = store.live_at(place)? else {
        return Ok(());
    };
    if !is_of_name(&block) {
        return Ok(());
    }
    let dir = read_id(&block);
    let child = read_child(&block);
    index.add_name(&dir, &child)?;
    Ok(())
}

/// Tells a memory of all nodes of all names.
pub(crate) fn tell_names<M: Medium>(
    store: &mut LogStore<M>,
    index: &mut LogIndex,
) -> Result<(), MediumErr>
    requires store { IsStore M.content M.size store.old }
    requires placed { ArePlaced (live_in M.content M.size store.old) }
    requires tied { AreTied (live_in M.content M.size store.old) }
    requires told { HasTold among_names (records_in M.content M.size store.old) 0 (memory_of index.old) }
    ensures indexed { OnOk result (IsIndexed (tree_of (live_in M.content M.size store.old)) (memory_of index.new)) }
    ensures reads { Reads M.content M.size M.faults store.old store.new result }
{
    for place in 0..store.len() {
        tell_name(store, index, place)?;
    }
    Ok(())
}
