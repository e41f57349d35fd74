//! Digests that are read anew from the objects.

ghost use Rattle.std.specs.Prelude.{◌≡◌, ◌<◌, ◌^◌, ◌++◌, ◌∷◌, [], List, IfOk, OnOk, length};
ghost use Rattle.abs_model.specs.declared.Entry.{Entry};
ghost use Rattle.conf_map.specs.Notice.{Watched};
ghost use Rattle.conf_map.specs.Stands.{StandValid};
ghost use Rattle.partition_tree.specs.Digests.{IsTreeSize, digests};
ghost use Rattle.replica.specs.Replicas.{digests_of};

use abstraction_fn::get_obj;
use nfs2_types::{Blob, NoMemory};
use partition_tree::Tree;
use server_trait::{ConfTable, Srv, WrapErr};
use std::alloc::Global;

/// Puts a text behind the others.
fn push(texts: &mut Vec<Blob>, text: Blob) -> Result<(), NoMemory>
    ensures { OnOk result (texts.new.items ≡ texts.old.items ++ text ∷ []) }
{
    match texts.push(text) {
        Ok(()) => Ok(()),
        Err(_) => Err(NoMemory),
    }
}

/// The texts of all entries.
fn read_texts(alloc: Global, server: &mut Srv, table: &ConfTable) -> Result<Vec<Blob>, WrapErr>
    requires stands { (A : List Entry) × StandValid (state server.old).tree table.now A }
    requires few { length table.now.rows.items < 2 ^ 32 }
    ensures digests { IfOk result (λ texts. (A : List Entry) → StandValid (state server.old).tree table.now A →
        digests texts.items ≡ digests_of A) }
    ensures size { IfOk result (λ texts. length texts.items ≡ length table.now.rows.items) }
    ensures same { OnOk result ((state server.new).tree ≡ (state server.old).tree) }
    ensures watched { Watched (state server.old) (state server.new) result }
{
    let mut texts = Vec::new(alloc);
    for index in 0..table.rows.len() {
        let text = get_obj(alloc, server, table, index as u32)?;
        push(&mut texts, Blob::new(text))?;
    }
    Ok(texts)
}

/// The tree over the array that server and table stand for, whatever was believed of it: each object is read. All texts
/// are in memory at once. It changes nothing.
pub fn read_tree(alloc: Global, server: &mut Srv, table: &ConfTable) -> Result<Tree, WrapErr>
    requires stands { (A : List Entry) × StandValid (state server.old).tree table.now A }
    requires size { IsTreeSize (length table.now.rows.items) }
    ensures digests { IfOk result (λ tree. (A : List Entry) → StandValid (state server.old).tree table.now A →
        tree ≡ digests_of A) }
    ensures same { OnOk result ((state server.new).tree ≡ (state server.old).tree) }
    ensures watched { Watched (state server.old) (state server.new) result }
{
    let texts = read_texts(alloc, server, table)?;
    let tree = Tree::build(alloc, texts.as_slice())?;
    Ok(tree)
}
