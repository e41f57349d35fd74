//! The text of every line.

use crate::{IdleCause, Line, write_line};
use nfs2_types::{Blob, Digest};
use std::test::Fail;

const ROOT: Digest = [
    0, 1, 2, 3, 4, 5, 6, 7, 8, 9, 10, 11, 12, 13, 14, 15, 160, 161, 162, 163, 164, 165, 166, 167,
    168, 169, 170, 171, 172, 173, 174, 255,
];

const STABLE: &str =
    "stable 128 000102030405060708090a0b0c0d0e0fa0a1a2a3a4a5a6a7a8a9aaabacadaeff\n";

#[test]
fn lines_of_places(rt: HostRuntime) -> Result<(), Fail> {
    let alloc = rt.alloc();
    let bytes = Blob::from_slice(alloc, &[0, 9, 160, 255])?;
    let lines = vec![in alloc;
        (Line::Reply { place: 7, bytes }, "reply 7 0009a0ff\n"),
        (
            Line::Silent {
                place: 4_294_967_295
            },
            "silent 4294967295\n"
        ),
        (
            Line::Stable {
                place: 128,
                root: ROOT
            },
            STABLE
        ),
    ]?;
    for (line, text) in lines {
        assert_eq!(rt;
            write_line(alloc, &line)?.as_slice(),
            text.as_bytes(),
            "{text}"
        );
    }
    Ok(())
}

#[test]
fn lines_of_replicas(rt: HostRuntime) -> Result<(), Fail> {
    let alloc = rt.alloc();
    let rebuilt = Line::Rebuilt {
        r: 3,
        place: 128,
        nodes: 5,
        objects: 90,
    };
    let lines = vec![in alloc;
        (Line::Down { r: 2 }, "down 2\n"),
        (
            Line::Fetching {
                r: 3,
                place: 128,
                got: 17
            },
            "fetching 3 128 17\n"
        ),
        (rebuilt, "rebuilt 3 128 5 90\n"),
        (Line::At { r: 0, place: 10 }, "at 0 10\n"),
        (Line::AtDown { r: 1 }, "at 1 down\n"),
        (Line::AtRebuilding { r: 2 }, "at 2 rebuilding\n"),
    ]?;
    for (line, text) in lines {
        assert_eq!(rt;
            write_line(alloc, &line)?.as_slice(),
            text.as_bytes(),
            "{text}"
        );
    }
    Ok(())
}

#[test]
fn lines_of_causes(rt: HostRuntime) -> Result<(), Fail> {
    for (cause, text) in [
        (IdleCause::NotLive, "idle 6 not-live\n"),
        (IdleCause::AtEnd, "idle 6 at-end\n"),
        (IdleCause::Behind, "idle 6 behind\n"),
        (IdleCause::NoBytes, "idle 6 no-bytes\n"),
        (IdleCause::NotRebuilding, "idle 6 not-rebuilding\n"),
    ] {
        let line = Line::Idle { r: 6, cause };
        assert_eq!(rt;
            write_line(rt.alloc(), &line)?.as_slice(),
            text.as_bytes(),
            "{text}"
        );
    }
    Ok(())
}
