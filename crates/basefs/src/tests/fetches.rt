//! Replicas that are rebuilt, where no server fails.

use super::objects::{
    AT_8, FIRST, MORE, READ, REPLIES_4, REPLIES_6, REPLIES_8, REPLY_1, REPLY_9, STABLE_4, STABLE_8,
    eight_print, four_print, prints, unlike,
};
use super::{END, FETCH, REBOOT, RUN, RUN_ALL};
use std::alloc::Global;
use std::test::Fail;

const ROGUE: u32 = 6;

const LIE_REPLY: u32 = 9;

const LIE_ITEM: u32 = 11;

const WIPE: u32 = 12;

/// A replica at the stable place lacks nothing. It is live again, and a further Fetch finds it so.
#[test]
fn a_replica_that_lacks_nothing_is_rebuilt(rt: HostRuntime) -> Result<(), Fail> {
    let alloc = rt.alloc();
    for r in 0..4u32 {
        let words = [REBOOT, r, REBOOT, r, FETCH, r, 1, FETCH, r, 1, END];
        let text = format!(in alloc; "rebuilt {r} 8 0 0\nidle {r} not-rebuilding\n")?;
        let mut bench = unlike(alloc)?;
        assert!(rt;
            eight_print(alloc, &mut bench, &words, &[text.as_str(), AT_8])?,
            "{r}"
        );
        assert_eq!(rt; bench.downs.len(), 0);
    }
    Ok(())
}

/// A replica is two requests beyond the stable place. It goes back to it: the root, "d", "f" and "s" differ, and it
/// runs these requests again.
#[test]
fn a_replica_goes_back_to_the_stable_place(rt: HostRuntime) -> Result<(), Fail> {
    let alloc = rt.alloc();
    for r in 0..4u32 {
        let words = [RUN, r, RUN, r, REBOOT, r, FETCH, r, 1000, RUN_ALL, END];
        let rebuilt = format!(in alloc; "rebuilt {r} 4 1 4\n")?;
        let text: [&str; 8] = [
            REPLY_1,
            REPLIES_4,
            STABLE_4,
            rebuilt.as_str(),
            REPLIES_6,
            REPLIES_8,
            STABLE_8,
            AT_8,
        ];
        let parts: [&[u32]; 4] = [&FIRST, &[RUN_ALL], &MORE, &words];
        let mut bench = unlike(alloc)?;
        assert!(rt; prints(alloc, &mut bench, 4, &parts, &text)?, "{r}");
    }
    Ok(())
}

/// A replica whose server lost everything is rebuilt, and then it and another one run READ. Whether it gets the node
/// and five entries, and their two words are equal, and those of the service.
fn all_is_back(alloc: Global, r: u32, other: u32) -> Result<bool, Fail> {
    let rebuild = [WIPE, r, REBOOT, r, FETCH, r, 1000];
    let runs = [RUN, r, RUN, other, RUN_ALL, END];
    let parts: [&[u32]; 7] = [
        &FIRST,
        &[RUN_ALL],
        &MORE,
        &[RUN_ALL],
        &rebuild,
        &READ,
        &runs,
    ];
    let rebuilt = format!(in alloc; "rebuilt {r} 8 1 5\n")?;
    let ends = "at 0 9\nat 1 9\nat 2 9\nat 3 9\n";
    let text: [&str; 9] = [
        REPLY_1,
        REPLIES_4,
        STABLE_4,
        REPLIES_6,
        REPLIES_8,
        STABLE_8,
        rebuilt.as_str(),
        REPLY_9,
        ends,
    ];
    let mut bench = unlike(alloc)?;
    Ok(prints(alloc, &mut bench, 4, &parts, &text)? && bench.downs.len() == 0)
}

#[test]
fn a_replica_that_lost_all_gets_all(rt: HostRuntime) -> Result<(), Fail> {
    let alloc = rt.alloc();
    assert!(rt; all_is_back(alloc, 0, 1)?);
    assert!(rt; all_is_back(alloc, 1, 2)?);
    assert!(rt; all_is_back(alloc, 2, 3)?);
    assert!(rt; all_is_back(alloc, 3, 0)?);
    Ok(())
}

/// A transfer is cut after an item, and taken up again. A new stable place is aimed at from the beginning.
#[test]
fn a_fetch_is_cut_and_taken_up_again(rt: HostRuntime) -> Result<(), Fail> {
    let alloc = rt.alloc();
    let cut = [WIPE, 3, REBOOT, 3, FETCH, 3, 1, FETCH, 3, 1];
    let taken_up = [RUN_ALL, FETCH, 3, 1, FETCH, 3, 5, END];
    let parts: [&[u32]; 5] = [&FIRST, &[RUN_ALL], &cut, &MORE, &taken_up];
    let text: [&str; 9] = [
        REPLY_1,
        REPLIES_4,
        STABLE_4,
        "fetching 3 4 1\nfetching 3 4 2\n",
        REPLIES_6,
        REPLIES_8,
        STABLE_8,
        "fetching 3 8 1\nrebuilt 3 8 1 5\n",
        AT_8,
    ];
    let mut bench = unlike(alloc)?;
    assert!(rt; prints(alloc, &mut bench, 4, &parts, &text)?);
    let whole = [
        WIPE, 3, REBOOT, 3, FETCH, 3, 2, FETCH, 3, 2, FETCH, 3, 1, END,
    ];
    let text = "fetching 3 4 2\nfetching 3 4 4\nrebuilt 3 4 1 4\n";
    let ends = "at 0 4\nat 1 4\nat 2 4\nat 3 4\n";
    assert!(rt; four_print(alloc, &whole, &[text, ends])?);
    Ok(())
}

/// What is fetched is thrown away where the replica is rebooted again.
#[test]
fn a_reboot_forgets_what_was_fetched(rt: HostRuntime) -> Result<(), Fail> {
    let words = [WIPE, 0, REBOOT, 0, FETCH, 0, 3, REBOOT, 0, FETCH, 0, 1, END];
    let text = "fetching 0 4 3\nfetching 0 4 1\n";
    let ends = "at 0 rebuilding\nat 1 4\nat 2 4\nat 3 4\n";
    assert!(rt; four_print(rt.alloc(), &words, &[text, ends])?);
    Ok(())
}

/// Sources lie about the node and about entries 1 and 2. What they give is refused, and the next one gives what is
/// right.
#[test]
fn a_source_lies_about_an_item(rt: HostRuntime) -> Result<(), Fail> {
    let words = [
        LIE_ITEM, 0, 1, 0, 4, 0x78000000, LIE_ITEM, 0, 0, 1, 4, 0x78000000, LIE_ITEM, 1, 0, 1, 0,
        LIE_ITEM, 1, 0, 2, 4, 0, WIPE, 3, REBOOT, 3, FETCH, 3, 1000, END,
    ];
    let ends = "at 0 4\nat 1 4\nat 2 4\nat 3 4\n";
    assert!(rt; four_print(rt.alloc(), &words, &["rebuilt 3 4 1 4\n", ends])?);
    Ok(())
}

/// Each source lies about entry 1: the node and entry 0 are all that can be got.
#[test]
fn all_sources_lie_about_an_item(rt: HostRuntime) -> Result<(), Fail> {
    let words = [
        LIE_ITEM, 0, 0, 1, 4, 0x78000000, LIE_ITEM, 1, 0, 1, 4, 0x78000000, LIE_ITEM, 2, 0, 1, 4,
        0x78000000, WIPE, 3, REBOOT, 3, FETCH, 3, 1000, FETCH, 3, 1, END,
    ];
    let text = "fetching 3 4 2\nfetching 3 4 2\n";
    let ends = "at 0 4\nat 1 4\nat 2 4\nat 3 rebuilding\n";
    assert!(rt; four_print(rt.alloc(), &words, &[text, ends])?);
    Ok(())
}

/// A replica that is live is not rebuilt.
#[test]
fn a_fetch_of_a_live_replica_is_idle(rt: HostRuntime) -> Result<(), Fail> {
    let words = [FETCH, 1, 1, WIPE, 2, FETCH, 2, 1000, END];
    let text = "idle 1 not-rebuilding\nidle 2 not-rebuilding\n";
    let ends = "at 0 4\nat 1 4\nat 2 4\nat 3 4\n";
    assert!(rt; four_print(rt.alloc(), &words, &[text, ends])?);
    Ok(())
}

/// No place is stable yet, so a replica goes back to the start, where nothing was made: the root and "d" differ.
#[test]
fn a_fetch_where_no_place_is_stable(rt: HostRuntime) -> Result<(), Fail> {
    let alloc = rt.alloc();
    let ends = "at 0 4\nat 1 4\nat 2 4\nat 3 4\n";
    let words = [RUN, 0, REBOOT, 0, FETCH, 0, 1000, RUN_ALL, END];
    let parts: [&[u32]; 2] = [&FIRST, &words];
    let text: [&str; 5] = ["rebuilt 0 0 1 2\n", REPLY_1, REPLIES_4, STABLE_4, ends];
    let mut bench = unlike(alloc)?;
    assert!(rt; prints(alloc, &mut bench, 4, &parts, &text)?);
    let ends = "at 0 0\nat 1 0\nat 2 0\nat 3 0\n";
    let words = [REBOOT, 0, FETCH, 0, 1, END];
    let mut bench = unlike(alloc)?;
    assert!(rt;
        prints(
            alloc,
            &mut bench,
            4,
            &[&words],
            &["rebuilt 0 0 0 0\n", ends]
        )?
    );
    Ok(())
}

/// A replica that was rebuilt has no lies: of two that lied, one is left, and is outvoted.
#[test]
fn a_lie_is_gone_with_a_rebuild(rt: HostRuntime) -> Result<(), Fail> {
    let alloc = rt.alloc();
    let words = [
        LIE_REPLY, 0, 1, 0, REBOOT, 0, FETCH, 0, 1, LIE_REPLY, 1, 1, 0, RUN, 1, RUN, 0, RUN, 2, END,
    ];
    let parts: [&[u32]; 2] = [&FIRST, &words];
    let ends = "at 0 1\nat 1 1\nat 2 1\nat 3 0\n";
    let mut bench = unlike(alloc)?;
    let text: [&str; 3] = ["rebuilt 0 0 0 0\n", REPLY_1, ends];
    assert!(rt; prints(alloc, &mut bench, 4, &parts, &text)?);
    Ok(())
}

/// A request that calls the procedure 0, whose xid is its second.
fn ask(second: u32) -> [u32; 15] {
    [1, 0, second, 0, 40, second, 0, 2, 100003, 2, 0, 0, 0, 0, 0]
}

/// The replies of four of them.
const ASKED: &str = "\
    reply 1 000000010000000100000000000000000000000000000000\n\
    reply 2 000000020000000100000000000000000000000000000000\n\
    reply 3 000000030000000100000000000000000000000000000000\n\
    reply 4 000000040000000100000000000000000000000000000000\n";

/// The stable place behind them, where nothing was made.
const NOTHING_MADE: &str =
    "stable 4 8c5087b7545319bb98efafcc7a88977d0082f590f2a042f3bbcbb12ddc9bbb82\n";

/// Two roots make no place stable, and three do. A replica is rebooted at that place, twice, and lacks nothing.
#[test]
fn a_replica_is_rebooted_twice_at_the_stable_place(rt: HostRuntime) -> Result<(), Fail> {
    let alloc = rt.alloc();
    let two = [
        RUN, 0, RUN, 0, RUN, 0, RUN, 0, RUN, 1, RUN, 1, RUN, 1, RUN, 1,
    ];
    let ends = "at 0 4\nat 1 4\nat 2 0\nat 3 0\n";
    let parts: [&[u32]; 6] = [&ask(1), &ask(2), &ask(3), &ask(4), &two, &[END]];
    let mut bench = unlike(alloc)?;
    assert!(rt; prints(alloc, &mut bench, 4, &parts, &[ASKED, ends])?);
    let rest = [
        RUN, 2, RUN, 2, RUN, 2, RUN, 2, REBOOT, 0, REBOOT, 0, FETCH, 0, 1, END,
    ];
    let ends = "at 0 4\nat 1 4\nat 2 4\nat 3 0\n";
    let parts: [&[u32]; 6] = [&ask(1), &ask(2), &ask(3), &ask(4), &two, &rest];
    let text: [&str; 4] = [ASKED, NOTHING_MADE, "rebuilt 0 4 0 0\n", ends];
    let mut bench = unlike(alloc)?;
    assert!(rt; prints(alloc, &mut bench, 4, &parts, &text)?);
    assert_eq!(rt; bench.downs.len(), 0);
    Ok(())
}

/// A replica lies about place 5 and is rebuilt from the start, before another one tells the same lie. It runs all
/// again, and says what is true.
#[test]
fn a_lie_about_a_later_place_is_gone_too(rt: HostRuntime) -> Result<(), Fail> {
    let alloc = rt.alloc();
    let words = [
        LIE_REPLY, 0, 5, 1, 4, 0x78000000, RUN, 0, RUN, 0, RUN, 0, RUN, 0, RUN, 0, REBOOT, 0,
        FETCH, 0, 1, LIE_REPLY, 1, 5, 1, 4, 0x78000000, RUN, 1, RUN, 1, RUN, 1, RUN, 1, RUN, 1,
        RUN, 0, RUN, 0, RUN, 0, RUN, 0, RUN, 0, RUN, 2, RUN, 2, RUN, 2, RUN, 2, RUN, 2, END,
    ];
    let parts: [&[u32]; 6] = [&ask(1), &ask(2), &ask(3), &ask(4), &ask(5), &words];
    let fifth = "reply 5 000000050000000100000000000000000000000000000000\n";
    let ends = "at 0 5\nat 1 5\nat 2 5\nat 3 0\n";
    let text: [&str; 5] = ["rebuilt 0 0 0 0\n", ASKED, NOTHING_MADE, fifth, ends];
    let mut bench = unlike(alloc)?;
    assert!(rt; prints(alloc, &mut bench, 4, &parts, &text)?);
    Ok(())
}

/// CREATE of "a", which is asked for, and of "z", with the same xid.
const CREATE_A: [u32; 33] = [
    1, 0, 1, 0, 112, 1, 0, 2, 100003, 2, 9, 0, 0, 0, 0, 0x42415345, 0, 1, 0, 0, 0, 0, 0, 1,
    0x61000000, !0, !0, !0, !0, !0, !0, !0, !0,
];

/// A replica runs CREATE of "z" in the place of its request.
fn create_z(r: u32) -> [u32; 33] {
    [
        ROGUE, r, 1, 0, 112, 1, 0, 2, 100003, 2, 9, 0, 0, 0, 0, 0x42415345, 0, 1, 0, 0, 0, 0, 0, 1,
        0x7a000000, !0, !0, !0, !0, !0, !0, !0, !0,
    ]
}

/// LOOKUP of "z" and of "a", at places 5 and 6.
const LOOK_UP: [u32; 50] = [
    1, 0, 5, 0, 80, 5, 0, 2, 100003, 2, 4, 0, 0, 0, 0, 0x42415345, 0, 1, 0, 0, 0, 0, 0, 1,
    0x7a000000, 1, 0, 6, 0, 80, 6, 0, 2, 100003, 2, 4, 0, 0, 0, 0, 0x42415345, 0, 1, 0, 0, 0, 0, 0,
    1, 0x61000000,
];

/// The reply of CREATE, and those of the three calls of the procedure 0 behind it. The root is that of the array with
/// "z".
const Z_MADE: &str = "\
    reply 1 00000001000000010000000000000000000000000000000000000000424153450000000100000001000000000000000000000000000\
    000000000000000000001000081a4000000010000fffe0000fffe00000000000010000000000000000000000000010000000200000001000000\
    0000000001000000000000000100000000\n\
    reply 2 000000020000000100000000000000000000000000000000\n\
    reply 3 000000030000000100000000000000000000000000000000\n\
    reply 4 000000040000000100000000000000000000000000000000\n\
    stable 4 aa36a6aae47e5782b24ec2898cea4703926f8c6e72cfa1efc63b3f2f333e5e8f\n";

/// Those of LOOKUP: "z" is there, and "a" is not (status 2).
const Z_FOUND: &str = "\
    reply 5 00000005000000010000000000000000000000000000000000000000424153450000000100000001000000000000000000000000000\
    000000000000000000001000081a4000000010000fffe0000fffe00000000000010000000000000000000000000010000000200000001000000\
    0000000001000000000000000100000000\n\
    reply 6 00000006000000010000000000000000000000000000000000000002\n";

/// Three replicas of four make "z" where "a" was asked for, so that their array is the stable one. The fourth, which
/// has made "a", gets the root directory from them, and has "z" then and no "a".
#[test]
fn a_replica_gets_what_the_others_made(rt: HostRuntime) -> Result<(), Fail> {
    let alloc = rt.alloc();
    let rebuild = [RUN_ALL, REBOOT, 3, FETCH, 3, 1000];
    let runs = [RUN, 3, RUN, 3, RUN, 1, RUN, 1, END];
    let parts: [&[u32]; 10] = [
        &CREATE_A,
        &ask(2),
        &ask(3),
        &ask(4),
        &create_z(0),
        &create_z(1),
        &create_z(2),
        &rebuild,
        &LOOK_UP,
        &runs,
    ];
    let ends = "at 0 4\nat 1 6\nat 2 4\nat 3 6\n";
    let text: [&str; 4] = [Z_MADE, "rebuilt 3 4 1 1\n", Z_FOUND, ends];
    let mut bench = unlike(alloc)?;
    assert!(rt; prints(alloc, &mut bench, 4, &parts, &text)?);
    Ok(())
}
