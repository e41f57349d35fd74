//! Names given and taken, as RFC 1094 counts links.

use super::*;
use log_records::NodeId;
use nfs2_types::{Kind, NoMemory};
use std::test::Fail;

const ROOT: NodeId = [0, 0, 0, 0, 0, 0, 0, 1];

const FILE: NodeId = [0, 0, 0, 0, 0, 0, 0, 2];

const DIR: NodeId = [0, 0, 0, 0, 0, 0, 0, 3];

/// A node of this kind and size without names.
fn bare(kind: Kind, size: u32) -> NodeInfo {
    NodeInfo {
        kind,
        mode: 0,
        uid: 0,
        gid: 0,
        size,
        links: 0,
        parent: ROOT,
    }
}

/// Gives a directory a name that leads to a node.
fn give(index: &mut LogIndex, dir: &NodeId, child: &NodeId) -> Result<(), NoMemory> {
    if index.get(dir).is_none() || index.get(child).is_none() {
        return Err(NoMemory);
    }
    index.add_name(dir, child)?;
    Ok(())
}

/// Takes it out again.
fn take(index: &mut LogIndex, dir: &NodeId, child: &NodeId) -> Result<(), NoMemory> {
    if index.get(dir).is_none() || index.get(child).is_none() {
        return Err(NoMemory);
    }
    index.drop_name(dir, child)?;
    Ok(())
}

#[test]
fn names_and_bytes_are_counted(rt: HostRuntime) -> Result<(), Fail> {
    let mut index = LogIndex::new(rt.alloc());
    index.add_node(&ROOT, bare(Kind::Dir, 0), 0)?;
    index.add_node(&DIR, bare(Kind::Dir, 0), 0)?;
    index.add_node(&FILE, bare(Kind::File, 7), 7)?;
    give(&mut index, &ROOT, &DIR)?;
    give(&mut index, &DIR, &FILE)?;
    give(&mut index, &ROOT, &FILE)?;
    assert_eq!(rt; index.count(), 3);
    assert_eq!(rt; index.used(), 1543);
    assert_eq!(rt; index.next(), 4);
    assert!(rt;
        index
            .get(&FILE)
            .is_some_and(|info| info.links == 2 && info.size == 7)
    );
    assert!(rt;
        index
            .get(&ROOT)
            .is_some_and(|info| info.links == 1 && info.size == 2)
    );
    assert!(rt; index.get(&DIR).is_some_and(|info| info.parent == ROOT));
    take(&mut index, &DIR, &FILE)?;
    assert!(rt; index.get(&FILE).is_some_and(|info| info.links == 1));
    assert!(rt; index.get(&DIR).is_some_and(|info| info.size == 0));
    assert_eq!(rt; index.used(), 1031);
    Ok(())
}
