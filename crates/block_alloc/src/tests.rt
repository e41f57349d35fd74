//! Maps of one level and of more, taken to the end, and blocks given back.

use super::*;
use std::test::Fail;

#[test]
fn blocks_are_taken_from_the_lowest(rt: HostRuntime) -> Result<(), Fail> {
    for blocks in [0, 1, 64, 65, 4_096, 4_097, 5_000] {
        let mut map = BlockMap::new(rt.alloc(), blocks)?;
        assert_eq!(rt; map.free(), blocks);
        for block in 0..blocks {
            assert_eq!(rt; map.take(), Some(block));
        }
        assert_eq!(rt; map.take(), None);
        assert_eq!(rt; map.free(), 0);
    }
    Ok(())
}

#[test]
fn a_block_given_back_is_taken_again(rt: HostRuntime) -> Result<(), Fail> {
    let mut map = BlockMap::new(rt.alloc(), 70_000)?;
    for block in [0, 1, 63, 64, 4_095, 4_096, 69_999] {
        assert!(rt; block < map.blocks() && map.is_free(block));
        map.claim(block);
    }
    assert_eq!(rt; map.free(), 69_993);
    for block in [4_096, 63, 69_999] {
        assert!(rt; block < map.blocks() && !map.is_free(block));
        map.give(block);
    }
    assert_eq!(rt; map.free(), 69_996);
    for block in 2..64 {
        assert_eq!(rt; map.take(), Some(block));
    }
    for block in 65..4_095 {
        assert_eq!(rt; map.take(), Some(block));
    }
    assert_eq!(rt; map.take(), Some(4_096));
    Ok(())
}
