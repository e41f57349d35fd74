//! Records byte by byte, as the layout says.

use super::*;
use nfs2_types::Kind;
use std::test::Fail;

const ID: NodeId = [0, 0, 0, 0, 0, 0, 1, 5];

#[test]
fn records_are_laid_out_so(rt: HostRuntime) -> Result<(), Fail> {
    let node = NodeRecord {
        kind: Kind::Dir,
        mode: 0o755,
        uid: 258,
        gid: 3,
    };
    let made = node_record(&ID, &node);
    let bytes = [
        2, 0, 9, 1, 0, 0, 0, 0, 0, 0, 1, 5, 2, 0, 0, 1, 237, 0, 0, 1, 2, 0, 0, 0, 3, 0,
    ];
    assert!(rt; made.starts_with(bytes.as_slice()));
    let name = name_record(&ID, b"a.c", &[0, 0, 0, 0, 0, 0, 0, 9]);
    let bytes = [
        2, 0, 12, 2, 0, 0, 0, 0, 0, 0, 1, 5, 97, 46, 99, 0, 0, 0, 0, 0, 0, 0, 9, 0,
    ];
    assert!(rt; name.starts_with(bytes.as_slice()));
    let chunk = chunk_record(&ID, 7, &[6; 300]);
    let bytes = [2, 0, 13, 3, 0, 0, 0, 0, 0, 0, 1, 5, 0, 0, 0, 7, 1, 44, 6, 6];
    assert!(rt; chunk.starts_with(bytes.as_slice()));
    assert_eq!(rt; [chunk[317], chunk[318]], [6, 0]);
    let gone = gone_record(&chunk_key(rt.alloc(), &ID, 7)?);
    let bytes = [1, 0, 13, 3, 0, 0, 0, 0, 0, 0, 1, 5, 0, 0, 0, 7, 0];
    assert!(rt; gone.starts_with(bytes.as_slice()));
    Ok(())
}
