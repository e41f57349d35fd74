//! Fetches over trees of 16 and 256 texts. Which items are missing follows from the numbers: over entry 35 lie the
//! nodes 2 and 0.

ghost use Rattle.std.specs.Prelude.{◌≡◌, ◌≤◌, length, IfOk};
ghost use Rattle.partition_tree.specs.Digests.{IsTreeSize};

use crate::{Counts, Fetcher, Item, Taken};
use abs_model::{Attr, Change, Entry, OPEN_MODE, Object};
use abs_text::write_entry;
use nfs2_types::{Blob, NoMemory, Time};
use partition_tree::Tree;
use std::alloc::Global;
use std::test::Fail;

const ZERO_TIME: Time = Time { secs: 0, micros: 0 };

/// The text of a null entry at an index.
fn null_text(alloc: Global, index: u32) -> Result<Blob, NoMemory> {
    let entry = Entry {
        generation: 0,
        object: Object::Null,
    };
    Ok(Blob::new(write_entry(alloc, index, &entry)?))
}

/// The text of a file with the bytes "lisp" at an index.
fn file_text(alloc: Global, index: u32) -> Result<Blob, NoMemory> {
    let entry = Entry {
        generation: 1,
        object: Object::File {
            attr: Attr {
                mode: OPEN_MODE,
                uid: 0,
                gid: 0,
                atime: ZERO_TIME,
                mtime: ZERO_TIME,
                ctime: ZERO_TIME,
            },
            bytes: Blob::from_slice(alloc, b"lisp")?,
        },
    };
    Ok(Blob::new(write_entry(alloc, index, &entry)?))
}

/// The tree over so many null entries, but for a file at one index.
fn tree_with_file(alloc: Global, n: u32, file: u32) -> Result<Tree, NoMemory>
    requires { IsTreeSize n }
    ensures { IfOk result (λ tree. length tree ≡ n) }
{
    let mut texts = Vec::new(alloc);
    for i in 0..n {
        let text = if i == file {
            file_text(alloc, i)?
        } else {
            null_text(alloc, i)?
        };
        texts.push(text).map_err(|_| NoMemory)?;
    }
    Tree::build(alloc, &texts)
}

/// Gives bytes for the item that is next, and fails where that is another item, or something else becomes of them.
fn expect(f: &mut Fetcher, bytes: &[u8], item: Item, taken: Taken) -> Result<(), Fail> {
    match f.next_item() {
        None => Err("nothing is missing".into()),
        Some(next) => {
            if next != item {
                return Err("another item is next".into());
            }
            if f.accept(bytes)? != taken {
                return Err("the bytes are taken otherwise".into());
            }
            Ok(())
        }
    }
}

/// The changes and the own digests, if nothing is missing.
fn finish(f: Fetcher) -> Option<(Vec<Change>, Tree)> {
    match f.next_item() {
        Some(_) => None,
        None => Some(f.changes()),
    }
}

/// An item.
fn item(level: u32, number: u32) -> Item {
    Item { level, number }
}

#[test]
fn fetches_what_differs(rt: HostRuntime) -> Result<(), Fail> {
    let alloc = rt.alloc();
    let own = tree_with_file(alloc, 256, 256)?;
    let before = own.root();
    let target = tree_with_file(alloc, 256, 35)?;
    let mut f = Fetcher::new(alloc, own, 4, target.root())?;
    let top = target.node_text(2, 0).ok_or("no top")?;
    let node = target.node_text(1, 2).ok_or("no node")?;
    let other = target.node_text(1, 3).ok_or("no node")?;
    let entry = file_text(alloc, 35)?;
    expect(&mut f, &node, item(2, 0), Taken::Wrong)?;
    expect(&mut f, &top, item(2, 0), Taken::Good)?;
    expect(&mut f, &other, item(1, 2), Taken::Wrong)?;
    expect(&mut f, &node, item(1, 2), Taken::Good)?;
    let elsewhere = file_text(alloc, 34)?;
    expect(&mut f, elsewhere.as_slice(), item(0, 35), Taken::Wrong)?;
    expect(&mut f, entry.as_slice(), item(0, 35), Taken::Good)?;
    assert_eq!(rt; f.next_item(), None);
    assert_eq!(rt;
        f.counts(),
        Counts {
            nodes: 2,
            objects: 1
        }
    );
    let (changes, own) = finish(f).ok_or("something is missing")?;
    assert_eq!(rt; changes.first().map(|c| c.index), Some(35));
    assert_eq!(rt; own.root(), before);
    Ok(())
}

#[test]
fn forgets_an_old_target(rt: HostRuntime) -> Result<(), Fail> {
    let alloc = rt.alloc();
    let own = tree_with_file(alloc, 16, 16)?;
    let before = own.root();
    let target = tree_with_file(alloc, 16, 3)?;
    let mut f = Fetcher::new(alloc, own, 4, target.root())?;
    let top = target.node_text(1, 0).ok_or("no top")?;
    expect(&mut f, &top, item(1, 0), Taken::Good)?;
    f.retarget(5, target.root());
    assert_eq!(rt;
        f.counts(),
        Counts {
            nodes: 0,
            objects: 0
        }
    );
    assert_eq!(rt; f.next_item(), Some(item(1, 0)));
    f.retarget(6, before);
    assert_eq!(rt; f.next_item(), None);
    Ok(())
}
