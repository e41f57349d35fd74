//! Names given and taken, as RFC 1094 counts links.

ghost use Rattle.inode_counts.specs.Seen.{counts_of};

use super::*;
use std::test::Fail;

#[test]
fn names_and_bytes_are_counted(rt: HostRuntime) -> Result<(), Fail> {
    let mut counts = InodeCounts::new(rt.alloc(), 3)?;
    counts.take(0, 0);
    counts.take(1, 0);
    counts.take(2, 7);
    counts.add_name(0, 1, true);
    counts.add_name(1, 2, false);
    counts.add_name(0, 2, false);
    assert_eq!(rt; counts.links(2), 2);
    assert_eq!(rt; counts.subdirs(0), 1);
    assert_eq!(rt; counts.used(), 1543);
    counts.remove_name(1, 2, false);
    counts.resize(7, 9);
    assert_eq!(rt; counts.links(2), 1);
    assert_eq!(rt; counts.used(), 1033);
    Ok(())
}
