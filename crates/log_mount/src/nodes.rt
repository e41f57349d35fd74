//! The nodes, without their names.

ghost use Rattle.std.specs.Prelude.{◌≡◌, ◌+◌, ◌<◌, length, OnOk};
ghost use Rattle.log_store.specs.Store.{IsStore, Reads, live_in, records_in};
ghost use Rattle.log_held.specs.Sound.{ArePlaced};
ghost use Rattle.log_index.specs.Memory.{memory_of, none_kept};
ghost use Rattle.log_mount.specs.Told.{HasTold, among_names, among_nodes};

use crate::size::size_of;
use log_index::{LogIndex, NodeInfo};
use log_records::{is_of_node, read_id, read_node};
use log_store::LogStore;
use outside::{Medium, MediumErr};

/// Tells the memory of the node of the record at a place, if it is a live one of a node.
fn tell_node<M: Medium>(
    store: &mut LogStore<M>,
    index: &mut LogIndex,
    place: u32,
) -> Result<(), MediumErr>
    requires store { IsStore M.content M.size store.old }
    requires placed { ArePlaced (live_in M.content M.size store.old) }
    requires within { place < length (records_in M.content M.size store.old) }
    requires told { HasTold among_nodes (records_in M.content M.size store.old) place (memory_of index.old) }
    ensures told { let records = records_in M.content M.size store.old in
        OnOk result (HasTold among_nodes records (place + 1) (memory_of index.new)) }
    ensures reads { Reads M.content M.size M.faults store.old store.new result }
{
    let Some(block) = store.live_at(place)? else {
        return Ok(());
    };
    if !is_of_node(&block) {
        return Ok(());
    }
    let id = read_id(&block);
    let node = read_node(&block);
    let size = size_of(store, &id, node.kind)?;
    let info = NodeInfo {
        kind: node.kind,
        mode: node.mode,
        uid: node.uid,
        gid: node.gid,
        size,
        links: 0,
        parent: id,
    };
    index.add_node(&id, info, size)?;
    Ok(())
}

/// Tells an empty memory of all nodes.
pub(crate) fn tell_nodes<M: Medium>(
    store: &mut LogStore<M>,
    index: &mut LogIndex,
) -> Result<(), MediumErr>
    requires store { IsStore M.content M.size store.old }
    requires placed { ArePlaced (live_in M.content M.size store.old) }
    requires empty { memory_of index.old ≡ none_kept }
    ensures told { OnOk result (HasTold among_names (records_in M.content M.size store.old) 0 (memory_of index.new)) }
    ensures reads { Reads M.content M.size M.faults store.old store.new result }
{
    for place in 0..store.len() {
        tell_node(store, index, place)?;
    }
    Ok(())
}
