//! An empty root on a medium, as the layout of records says, also after a medium that failed.

use super::*;
use outside::{Medium, MediumErr, MemMedium};
use server_trait::ServerLimits;
use std::test::Fail;

const LIMITS: ServerLimits = ServerLimits {
    nodes: 1,
    bytes: 128,
};

#[test]
fn a_wipe_leaves_the_record_of_a_root(rt: HostRuntime) -> Result<(), Fail> {
    let alloc = rt.alloc();
    let medium = MemMedium::new(alloc, 140, Vec::new(alloc));
    let mut tree = LogTree::new(alloc, medium, LIMITS);
    tree.wipe()?;
    let mut medium = tree.into_medium();
    let mut block = [9; 512];
    medium.read(0, &mut block)?;
    assert_eq!(rt; block[0], 0);
    medium.read(1, &mut block)?;
    let root = [
        2, 0, 9, 1, 0, 0, 0, 0, 0, 0, 0, 1, 2, 0, 0, 0, 0, 0, 0, 0, 0, 0, 0, 0, 0, 0,
    ];
    assert!(rt; block.starts_with(root.as_slice()));
    medium.read(2, &mut block)?;
    assert_eq!(rt; block[0], 0);
    Ok(())
}

#[test]
fn a_wipe_works_after_one_that_failed(rt: HostRuntime) -> Result<(), Fail> {
    let alloc = rt.alloc();
    for call in 1..5 {
        let mut fails = Vec::new(alloc);
        fails.push(call)?;
        let mut tree = LogTree::new(alloc, MemMedium::new(alloc, 140, fails), LIMITS);
        assert!(rt; tree.wipe() == Err(MediumErr::Failed), "{call}");
        assert!(rt; tree.wipe() == Ok(()), "{call}");
    }
    Ok(())
}
