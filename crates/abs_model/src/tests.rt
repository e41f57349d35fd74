//! Copies, with memory for them.
use crate::{NameRow, Names};
use nfs2_types::Blob;
use std::test::Fail;

#[test]
fn names_are_copied(rt: HostRuntime) -> Result<(), Fail> {
    let mut rows = Vec::new(rt.alloc());
    for generation in 1..3 {
        rows.push(NameRow {
            name: Blob::from_slice(rt.alloc(), b"a")?,
            index: 7,
            generation,
        })?;
    }
    let names = Names::new(rows);
    let copy = names.clone()?;
    assert_eq!(rt; copy.as_slice().len(), 2);
    let last = copy.into_rows().pop().ok_or("a row")?.clone()?;
    assert_eq!(rt; last.name.as_slice(), b"a".as_slice());
    assert_eq!(rt; (last.index, last.generation), (7, 2));
    Ok(())
}
