//! Digests that are brought up to date.

ghost use Rattle.std.specs.Prelude.{◌≡◌, ◌<◌, List, OnOk, length, set, All};
ghost use Rattle.sha2.specs.Sha256.{sha256};
ghost use Rattle.abs_model.specs.declared.Entry.{Entry};
ghost use Rattle.abs_model.specs.Array.{entry_at};
ghost use Rattle.abs_text.specs.Text.{entry_text};
ghost use Rattle.conf_map.specs.Stands.{StandValid};
ghost use Rattle.conf_map.specs.Notice.{Watched};
ghost use Rattle.replica.specs.Replicas.{refreshed};

use abstraction_fn::get_obj;
use nfs2_types::Blob;
use partition_tree::{Changed, Steps, Tree};
use server_trait::{ConfTable, Srv, WrapErr};
use std::alloc::Global;
use std::marker::Brand;
use std::sync::ledger::{Blank, Ledger};

/// Puts a text in place of that of its index. The steps are counted and dropped.
fn put<L: Ledger>(tree: &mut Tree, changed: Changed, blank: Blank)
    requires index { changed.index < length tree.old }
    requires name { blank.name ≡ L.name }
    requires parts { blank.parts ≡ L.parts }
    requires some { 0 < blank.parts }
    ensures { tree.new ≡ set tree.old changed.index (sha256 changed.text) }
{
    let mut steps: Steps<L> = Steps::new(blank);
    tree.update(&[changed], &mut steps);
}

/// Reads the text of an index, and puts its digest in place.
fn refresh_one(
    alloc: Global,
    server: &mut Srv,
    table: &ConfTable,
    tree: &mut Tree,
    index: u32,
) -> Result<(), WrapErr>
    requires stands { (A : List Entry) × StandValid (state server.old).tree table.now A }
    requires row { index < length table.now.rows.items }
    requires leaf { index < length tree.old }
    ensures refreshed { OnOk result ((A : List Entry) → StandValid (state server.old).tree table.now A →
        tree.new ≡ set tree.old index (sha256 (entry_text index (entry_at A index)))) }
    ensures size { length tree.new ≡ length tree.old }
    ensures same { OnOk result ((state server.new).tree ≡ (state server.old).tree) }
    ensures watched { Watched (state server.old) (state server.new) result }
{
    let text = get_obj(alloc, server, table, index)?;
    let changed = Changed {
        index,
        text: Blob::new(text),
    };
    put::<Brand>(tree, changed, Blank::new(1));
    Ok(())
}

/// Reads the texts of these indexes, one after the other, and puts their digests in place.
pub fn refresh(
    alloc: Global,
    server: &mut Srv,
    table: &ConfTable,
    tree: &mut Tree,
    indexes: &[u32],
) -> Result<(), WrapErr>
    requires stands { (A : List Entry) × StandValid (state server.old).tree table.now A }
    requires rows { All (λ i. i < length table.now.rows.items) indexes.now }
    requires leaves { All (λ i. i < length tree.old) indexes.now }
    ensures refreshed { OnOk result ((A : List Entry) → StandValid (state server.old).tree table.now A →
        tree.new ≡ refreshed A indexes.now tree.old) }
    ensures size { length tree.new ≡ length tree.old }
    ensures same { OnOk result ((state server.new).tree ≡ (state server.old).tree) }
    ensures watched { Watched (state server.old) (state server.new) result }
{
    for index in indexes {
        refresh_one(alloc, server, table, tree, *index)?;
    }
    Ok(())
}
