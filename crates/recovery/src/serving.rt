//! Items of a checkpoint, handed out to a replica that is being rebuilt.

ghost use Rattle.std.specs.Prelude.{◌≡◌, ◌↔◌, List, IfOk, IfSome, IsSome, OnOk, length};
ghost use Rattle.abs_model.specs.declared.Entry.{Entry};
ghost use Rattle.conf_map.specs.Notice.{Watched};
ghost use Rattle.conf_map.specs.Stands.{StandValid};
ghost use Rattle.cow_checkpoint.specs.Store.{HasNode, IsNodeText, held_text};
ghost use Rattle.recovery.specs.Served.{IsHeldItem};

use cow_checkpoint::CheckpointStore;
use nfs2_types::{Blob, NoMemory};
use server_trait::{ConfTable, Srv, WrapErr};
use state_transfer::Item;
use std::alloc::Global;

/// The text of a node of the checkpoint of a place.
fn node_item(
    alloc: Global,
    store: &CheckpointStore,
    place: u32,
    item: Item,
) -> Result<Option<Blob>, NoMemory>
    ensures text { IfOk result (λ text. IfSome text (IsNodeText place item.level item.number store.now.holds)) }
    ensures some { IfOk result (λ text. IsSome text ↔ HasNode place item.level item.number store.now.holds) }
{
    match store.node(place, item.level, item.number) {
        Some(text) => {
            let text = Blob::from_slice(alloc, &text)?;
            Ok(Some(text))
        }
        None => Ok(None),
    }
}

/// The text of an entry at a place.
fn entry_item(
    alloc: Global,
    store: &mut CheckpointStore,
    server: &mut Srv,
    table: &ConfTable,
    place: u32,
    index: u32,
) -> Result<Option<Blob>, WrapErr>
    requires stands { (A : List Entry) × StandValid (state server.old).tree table.now A }
    requires size { length table.now.rows.items ≡ store.old.size }
    ensures held { IfOk result (λ text. (A : List Entry) → StandValid (state server.old).tree table.now A →
        text ≡ held_text place index A store.old) }
    ensures same { store.new ≡ store.old }
    ensures tree { OnOk result ((state server.new).tree ≡ (state server.old).tree) }
    ensures watched { Watched (state server.old) (state server.new) result }
{
    match store.get(server, table, place, index)? {
        Some(text) => {
            let text = Blob::from_slice(alloc, text.as_slice())?;
            Ok(Some(text))
        }
        None => Ok(None),
    }
}

/// What a live replica holds of an item at the place of a checkpoint, or `None` where that place or the item is not
/// held. It changes nothing, and does not ask whether the text is true.
pub fn serve_item(
    alloc: Global,
    store: &mut CheckpointStore,
    server: &mut Srv,
    table: &ConfTable,
    place: u32,
    item: Item,
) -> Result<Option<Blob>, WrapErr>
    requires stands { (A : List Entry) × StandValid (state server.old).tree table.now A }
    requires size { length table.now.rows.items ≡ store.old.size }
    ensures held { IfOk result (λ text. (A : List Entry) → StandValid (state server.old).tree table.now A →
        IsHeldItem place item.level item.number A store.old text) }
    ensures same { store.new ≡ store.old }
    ensures tree { OnOk result ((state server.new).tree ≡ (state server.old).tree) }
    ensures watched { Watched (state server.old) (state server.new) result }
{
    if item.level == 0 {
        let text = entry_item(alloc, store, server, table, place, item.number)?;
        return Ok(text);
    }
    let text = node_item(alloc, store, place, item)?;
    Ok(text)
}
