//! Votes of four voters, through a table of calls.

use super::*;
use nfs2_types::{Blob, Word};
use std::test::Fail;

/// A call, and for a question what it answers: the first byte of the word that is decided.
#[derive(Clone, Copy, Debug)]
enum Case {
    Cast(u32, u32, u8),
    Withdraw(u32),
    Forget(u32),
    DropTo(u32),
    Decided(u32, Option<u8>),
}

fn is_decided(votes: &Votes, place: u32, wanted: Option<u8>) -> bool {
    match votes.decided(place) {
        Some(Word::Reply(bytes)) => match bytes.as_slice().first() {
            Some(byte) => wanted == Some(*byte),
            None => false,
        },
        Some(Word::Silent) => false,
        None => wanted.is_none(),
    }
}

#[test]
fn two_equal_words_decide(rt: HostRuntime) -> Result<(), Fail> {
    let alloc = rt.alloc();
    let mut votes = Votes::new(alloc, 4, 2)?;
    let cases = [
        Case::Decided(1, None),
        Case::Cast(0, 1, 7),
        Case::Decided(1, None),
        Case::Cast(2, 1, 8),
        Case::Decided(1, None),
        Case::Cast(3, 1, 8),
        Case::Decided(1, Some(8)),
        // Where two words have enough voters, that of the lowest voter is decided.
        Case::Cast(1, 1, 7),
        Case::Decided(1, Some(7)),
        // A word replaces the voter's word before it.
        Case::Cast(0, 1, 9),
        Case::Decided(1, Some(8)),
        Case::Withdraw(3),
        Case::Decided(1, None),
        Case::Cast(0, 2, 5),
        Case::Cast(1, 2, 5),
        Case::Cast(0, 3, 6),
        Case::Cast(2, 3, 6),
        // The words for one place go, and those for others stay.
        Case::Forget(2),
        Case::Decided(2, None),
        Case::Decided(3, Some(6)),
        Case::Cast(0, 2, 5),
        Case::Cast(1, 2, 5),
        Case::DropTo(2),
        Case::Decided(2, None),
        Case::Decided(3, Some(6)),
    ];
    for case in &cases {
        match *case {
            Case::Cast(voter, place, byte) => {
                let bytes = Blob::from_slice(alloc, &[byte])?;
                if voter < 4 {
                    votes.cast(voter, place, Word::Reply(bytes))?;
                }
            }
            Case::Withdraw(voter) => {
                if voter < 4 {
                    votes.withdraw(alloc, voter);
                }
            }
            Case::Forget(place) => votes.forget(place),
            Case::DropTo(place) => votes.drop_to(place),
            Case::Decided(place, wanted) => assert!(rt; is_decided(&votes, place, wanted)),
        }
    }
    Ok(())
}
