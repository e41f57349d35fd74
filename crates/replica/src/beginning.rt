//! The digests of the array of a beginning.

ghost use Rattle.std.specs.Prelude.{◌≡◌, ◌<◌, ◌++◌, ◌∷◌, [], ℕ, length, OnOk, IfOk};
ghost use Rattle.abs_model.specs.Array.{entry_at, empty_array};
ghost use Rattle.abs_text.specs.Lengths.{HasText};
ghost use Rattle.partition_tree.specs.Digests.{IsTreeSize, digests};
ghost use Rattle.replica.specs.Replicas.{digests_of};

use abs_model::{Attr, Entry, Names, Object};
use abs_text::write_entry;
use nfs2_types::{Blob, NoMemory, Time};
use partition_tree::Tree;
use std::alloc::Global;

/// The first moment.
const ZERO_TIME: Time = Time { secs: 0, micros: 0 };

/// The entry with which a service begins at an index. It takes no memory.
fn first_entry(alloc: Global, index: u32) -> Entry
    ensures entry { (n : ℕ) → index < n → result ≡ entry_at (empty_array n) index }
    ensures text { HasText result.object }
{
    if index > 0 {
        return Entry {
            generation: 0,
            object: Object::Null,
        };
    }
    let attr = Attr {
        mode: 0o777,
        uid: 0,
        gid: 0,
        atime: ZERO_TIME,
        mtime: ZERO_TIME,
        ctime: ZERO_TIME,
    };
    let names = Names::new(Vec::new(alloc));
    Entry {
        generation: 1,
        object: Object::Dir { attr, names },
    }
}

/// Puts a text behind the others.
fn push(texts: &mut Vec<Blob>, text: Blob) -> Result<(), NoMemory>
    ensures { OnOk result (texts.new.items ≡ texts.old.items ++ text ∷ []) }
{
    match texts.push(text) {
        Ok(()) => Ok(()),
        Err(_) => Err(NoMemory),
    }
}

/// The texts of the entries with which a service of `n` entries begins.
fn empty_texts(alloc: Global, n: u32) -> Result<Vec<Blob>, NoMemory>
    requires { 0 < n }
    ensures digests { IfOk result (λ texts. digests texts.items ≡ digests_of (empty_array n)) }
    ensures size { IfOk result (λ texts. length texts.items ≡ n) }
{
    let mut texts = Vec::new(alloc);
    for index in 0..n {
        let entry = first_entry(alloc, index);
        let text = write_entry(alloc, index, &entry)?;
        push(&mut texts, Blob::new(text))?;
    }
    Ok(texts)
}

/// The tree over the array with which a service of `n` entries begins.
pub fn empty_tree(alloc: Global, n: u32) -> Result<Tree, NoMemory>
    requires { IsTreeSize n }
    ensures { IfOk result (λ tree. tree ≡ digests_of (empty_array n)) }
{
    let texts = empty_texts(alloc, n)?;
    Tree::build(alloc, texts.as_slice())
}
