//! Arrays that are put into a path server, and read back.

mod objects;
mod rig;

use objects::Row;
use rig::Rig;
use std::test::Fail;

/// A directory below the root, one below that, and a file with three names.
static NESTED: [Row; 4] = [
    Row::Dir(0, &[(b'a', 1), (b'f', 2)]),
    Row::Dir(1, &[(b'b', 3)]),
    Row::File(2, b"three names"),
    Row::Dir(3, &[(b'g', 2), (b'h', 2)]),
];

/// The same with a file that has no name.
static LOST: [Row; 5] = [
    Row::Dir(0, &[(b'a', 1), (b'f', 2)]),
    Row::Dir(1, &[(b'b', 3)]),
    Row::File(2, b"three names"),
    Row::Dir(3, &[(b'g', 2), (b'h', 2)]),
    Row::File(4, b"lost"),
];

/// The outer directory of the two stands in the inner one, and a name of the file in the outer.
static TURNED: [Row; 3] = [
    Row::Dir(0, &[(b'a', 3), (b'f', 2)]),
    Row::Dir(1, &[(b'h', 2)]),
    Row::Dir(3, &[(b'b', 1), (b'g', 2)]),
];

/// What did not change when they turned.
static STAYED: [Row; 1] = [Row::File(2, b"three names")];

#[test]
fn a_directory_moves_below_its_child(rt: HostRuntime) -> Result<(), Fail> {
    let alloc = rt.alloc();
    let mut rig = Rig::new(alloc)?;
    rig.refuses(alloc, &LOST)?;
    rig.put(alloc, &NESTED)?;
    rig.refuses(alloc, &LOST)?;
    rig.has_all(alloc, &NESTED)?;
    rig.put(alloc, &TURNED)?;
    rig.has_all(alloc, &TURNED)?;
    rig.has_all(alloc, &STAYED)
}

/// Two directories with a file each, and an empty file.
static PAIRED: [Row; 6] = [
    Row::Dir(0, &[(b'a', 1), (b'b', 2), (b'c', 3)]),
    Row::Dir(1, &[(b'x', 4)]),
    Row::Dir(2, &[(b'x', 5)]),
    Row::File(3, b""),
    Row::File(4, b"four"),
    Row::File(5, b"five"),
];

/// The three change their names, and the directories their files.
static SWAPPED: [Row; 3] = [
    Row::Dir(0, &[(b'a', 2), (b'b', 3), (b'c', 1)]),
    Row::Dir(1, &[(b'x', 5)]),
    Row::Dir(2, &[(b'x', 4)]),
];

/// What did not change when they swapped.
static KEPT: [Row; 3] = [
    Row::File(3, b""),
    Row::File(4, b"four"),
    Row::File(5, b"five"),
];

/// One directory goes with its file, the empty file goes too, and a link comes.
static THINNED: [Row; 6] = [
    Row::Dir(0, &[(b'a', 2)]),
    Row::Gone(1),
    Row::Dir(2, &[(b'x', 4), (b'y', 6)]),
    Row::Gone(3),
    Row::Gone(5),
    Row::Link(6, b"../a/x"),
];

#[test]
fn names_swap_and_objects_go(rt: HostRuntime) -> Result<(), Fail> {
    let alloc = rt.alloc();
    let mut rig = Rig::new(alloc)?;
    rig.put(alloc, &PAIRED)?;
    rig.has_all(alloc, &PAIRED)?;
    rig.put(alloc, &SWAPPED)?;
    rig.has_all(alloc, &SWAPPED)?;
    rig.has_all(alloc, &KEPT)?;
    rig.put(alloc, &THINNED)?;
    rig.has_all(alloc, &THINNED)?;
    rig.has_all(alloc, &[Row::File(4, b"four")])
}
