//! A store over memory, through a table of calls.

mod case;

use case::{Case, odd_one};
use std::test::Fail;

#[test]
fn names_by_their_paths(rt: HostRuntime) -> Result<(), Fail> {
    let cases = [
        Case::AddDir(0, b"a", 1),
        Case::Add(0, b"a-b", 2),
        Case::AddDir(0, b"ab", 3),
        Case::AddDir(1, b"x", 4),
        Case::Add(4, b"y", 5),
        Case::Add(3, b"z", 6),
        Case::Get(4, b"y", Some(5)),
        Case::Get(1, b"y", None),
        Case::Get(5, b"y", None),
        Case::List(0, &[(b"a", 1), (b"a-b", 2), (b"ab", 3)]),
        Case::List(1, &[(b"x", 4)]),
        Case::List(3, &[(b"z", 6)]),
        Case::IsBelow(1, 4, true),
        Case::IsBelow(0, 4, true),
        Case::IsBelow(4, 4, true),
        Case::IsBelow(4, 1, false),
        Case::IsBelow(1, 3, false),
        Case::Rename(0, b"a", 3, b"c"),
        Case::List(0, &[(b"a-b", 2), (b"ab", 3)]),
        Case::List(3, &[(b"c", 1), (b"z", 6)]),
        Case::List(1, &[(b"x", 4)]),
        Case::Get(4, b"y", Some(5)),
        Case::Get(0, b"a", None),
        Case::IsBelow(3, 4, true),
        Case::Remove(4, b"y"),
        Case::Remove(1, b"x"),
        Case::List(1, &[]),
        Case::AddDir(1, b"x", 4),
        Case::List(4, &[]),
    ];
    assert_eq!(rt; odd_one(rt.alloc(), &cases)?, None);
    Ok(())
}
