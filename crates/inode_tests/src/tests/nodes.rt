//! A node of pointers that was laid out by hand.

ghost use Rattle.std.specs.Prelude.{◌≡◌, IfOk};

use block_alloc::BlockMap;
use nfs2_types::NoMemory;
use outside::{Medium, MediumErr, MemMedium};
use pointer_tree::{Area, claim_tree, get_block, read_bytes};
use std::alloc::Global;

#[derive(Debug, Drop)]
enum Fail {
    Medium(MediumErr),
    NoMemory,
}

impl From<MediumErr> for Fail {
    fn from(error: MediumErr) -> Fail {
        Fail::Medium(error)
    }
}

impl From<NoMemory> for Fail {
    fn from(_: NoMemory) -> Fail {
        Fail::NoMemory
    }
}

/// A medium of twenty blocks. Block 5 is a node, whose first pointer names block 6, the third block 7, and the fourth
/// block 999, which is none of the area.
fn laid_out(alloc: Global) -> Result<MemMedium, Fail>
    ensures { IfOk result (λ m. ⟦<MemMedium as Medium>⟧.size m ≡ 20) }
{
    let mut medium = MemMedium::new(alloc, 20, Vec::new(alloc));
    let mut node = [0; 512];
    node[3] = 6;
    node[11] = 7;
    node[14] = 3;
    node[15] = 231;
    medium.write(5, &node)?;
    medium.write(6, &[b'a'; 512])?;
    medium.write(7, &[b'b'; 512])?;
    Ok(medium)
}

#[test]
fn a_node_is_read_with_its_gaps(rt: HostRuntime) -> Result<(), Fail> {
    let alloc = rt.alloc();
    let mut medium = laid_out(alloc)?;
    let area = Area { first: 2, end: 20 };
    let first = read_bytes(alloc, &mut medium, area, 1, 5, 510, 514)?;
    assert_eq!(rt; first.as_slice(), [b'a', b'a', 0, 0].as_slice());
    let third = read_bytes(alloc, &mut medium, area, 1, 5, 1022, 1026)?;
    assert_eq!(rt; third.as_slice(), [0, 0, b'b', b'b'].as_slice());
    assert!(rt; get_block(&mut medium, area, 1, 5, 3)? == [0; 512]);
    Ok(())
}

#[test]
fn the_blocks_of_a_node_are_claimed(rt: HostRuntime) -> Result<(), Fail> {
    let alloc = rt.alloc();
    let mut medium = laid_out(alloc)?;
    let mut map = BlockMap::new(alloc, 20)?;
    claim_tree(&mut medium, &mut map, Area { first: 2, end: 20 }, 1, 5)?;
    assert_eq!(rt; map.free(), 17);
    for block in 0..20 {
        assert_eq!(rt; map.is_free(block), block < 5 || block > 7);
    }
    Ok(())
}
