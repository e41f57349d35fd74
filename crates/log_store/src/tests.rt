//! A file and its name, written, read anew and taken out, over any medium and at one in memory.

ghost use Rattle.std.specs.Prelude.{◌≡◌, ◌≤◌, OnOk};
ghost use Rattle.log_segments.specs.Segments.{half_size};
ghost use Rattle.log_store.specs.Store.{HasRoom, IsStore, medium_of};

use super::*;
use log_records::NodeId;
use nfs2_types::Kind;
use outside::{Medium, MediumErr, MemMedium};
use std::test::Fail;

const ROOT: NodeId = [0, 0, 0, 0, 0, 0, 0, 1];

const FILE: NodeId = [0, 0, 0, 0, 0, 0, 0, 2];

/// Sees to it that there is room.
#[tactic(auto, using(log_segments::proofs::Puts::length_live))]
fn see_room<M: Medium>(store: &LogStore<M>) -> Result<(), MediumErr>
    requires { IsStore M.content M.size store.now }
    ensures { OnOk result (HasRoom M.content M.size store.now) }
{
    if store.log.half().saturating_sub(store.log.len()) < 2 {
        return Err(MediumErr::NoMemory);
    }
    Ok(())
}

/// Makes a directory with a file in it, and reads the medium anew.
fn make_file<M: Medium>(store: &mut LogStore<M>) -> Result<(), MediumErr>
    requires { 1 ≤ half_size (M.size (medium_of store.old)) }
    ensures { OnOk result (IsStore M.content M.size store.new) }
{
    store.clear()?;
    see_room(store)?;
    store.put_node(&ROOT, Kind::Dir, 0o755, 0, 0)?;
    see_room(store)?;
    store.put_chunk(&FILE, 0, b"hello")?;
    see_room(store)?;
    store.put_node(&FILE, Kind::File, 0o644, 7, 8)?;
    see_room(store)?;
    store.put_name(&ROOT, b"a", &FILE)?;
    store.replay()?;
    Ok(())
}

/// Takes the file out again.
fn take_file<M: Medium>(store: &mut LogStore<M>) -> Result<(), MediumErr>
    requires { IsStore M.content M.size store.old }
    ensures { OnOk result (IsStore M.content M.size store.new) }
{
    see_room(store)?;
    store.drop_name(&ROOT, b"a")?;
    see_room(store)?;
    store.drop_node(&FILE)?;
    see_room(store)?;
    store.drop_chunk(&FILE, 0)?;
    Ok(())
}

#[test]
fn a_file_comes_and_goes(rt: HostRuntime) -> Result<(), Fail> {
    let alloc = rt.alloc();
    let mut store = LogStore::new(alloc, MemMedium::new(alloc, 41, Vec::new(alloc)));
    make_file(&mut store)?;
    assert_eq!(rt; store.lookup(&ROOT, b"a")?, Some(FILE));
    assert_eq!(rt; store.lookup(&ROOT, b"b")?, None);
    assert!(rt;
        matches!(store.node(&FILE)?, Some(node) if node.kind == Kind::File && node.uid == 7)
    );
    assert!(rt;
        matches!(store.chunk(&FILE, 0)?, Some(bytes) if bytes.as_slice() == b"hello".as_slice())
    );
    assert!(rt; store.chunk(&FILE, 1)?.is_none());
    take_file(&mut store)?;
    assert_eq!(rt; store.lookup(&ROOT, b"a")?, None);
    assert!(rt; store.node(&FILE)?.is_none());
    assert!(rt; store.chunk(&FILE, 0)?.is_none());
    assert!(rt; store.node(&ROOT)?.is_some());
    Ok(())
}
