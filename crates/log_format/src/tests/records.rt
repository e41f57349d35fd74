//! Fronts of records, records of each kind, and a header.

use crate::{EventErr, Header, HeaderErr, read_event, read_header, write_event, write_header};
use std::alloc::Global;
use std::test::Fail;

/// What reading a front gives: the length of the record, how many bytes it needs, or that it is wrong.
#[derive(Clone, Copy, Debug, PartialEq)]
enum Front {
    Record(usize),
    Needs(usize),
    Wrong,
    NoMemory,
}

use Front::{Needs, Record, Wrong};

fn front_of(alloc: Global, bytes: &[u8], f: u32, servers: u32) -> Front {
    match read_event(alloc, bytes, f.min(2), servers) {
        Ok((_, len)) => Record(len),
        Err(EventErr::Short { need }) => Needs(need),
        Err(EventErr::Wrong) => Wrong,
        Err(EventErr::NoMemory) => Front::NoMemory,
    }
}

/// How many replicas may fail, the number of servers, a front in hexadecimal, and what it gives.
const REQUESTS: [(u32, u32, &[u8], Front); 26] = [
    (0, 10, b"", Needs(4)),
    (0, 10, b"000000", Needs(4)),
    (0, 10, b"000001", Wrong),
    (0, 10, b"01", Wrong),
    (0, 10, b"00000000", Wrong),
    (0, 10, b"0000000f", Wrong),
    (0, 10, b"0000000372657374", Record(4)),
    (2, 10, b"0000000e", Record(4)),
    (0, 10, b"00000001", Needs(20)),
    (0, 10, b"000000010000000700000000000f42", Needs(20)),
    (0, 10, b"000000010000000700000000000f43", Wrong),
    (0, 10, b"0000000100000007000000000010", Wrong),
    (0, 10, b"000000010000000700000000000f423f", Needs(20)),
    (0, 10, b"000000010000000700000000000f4240", Wrong),
    (0, 10, b"0000000100000007000000000000000000", Needs(20)),
    (
        0,
        10,
        b"00000001000000070000000000000000000007",
        Needs(1812),
    ),
    (0, 10, b"000000010000000700000000000000000001", Needs(65556)),
    (
        0,
        10,
        b"00000001000000070000000000000000000100",
        Needs(65556),
    ),
    (0, 10, b"00000001000000070000000000000000000101", Wrong),
    (0, 10, b"000000010000000700000000000000000002", Wrong),
    (
        0,
        10,
        b"0000000100000007000000000000000000010000",
        Needs(65556),
    ),
    (0, 10, b"0000000100000007000000000000000000010001", Wrong),
    (
        0,
        10,
        b"000000010000000700000000000000000000000568656c6c6f",
        Needs(28),
    ),
    (
        0,
        10,
        b"000000010000000700000000000000000000000568656c6c6f00",
        Needs(28),
    ),
    (
        0,
        10,
        b"000000010000000700000000000000000000000568656c6c6f01",
        Wrong,
    ),
    (
        0,
        10,
        b"000000010000000700000000000000000000000568656c6c6f000000",
        Record(28),
    ),
];

const OTHERS: [(u32, u32, &[u8], Front); 32] = [
    (0, 10, b"00000002", Needs(8)),
    (0, 10, b"0000000200000000", Record(8)),
    (0, 10, b"0000000200000001", Wrong),
    (2, 10, b"0000000200000006", Record(8)),
    (2, 10, b"0000000200000007", Wrong),
    (2, 10, b"00000002000001", Wrong),
    (0, 10, b"0000000500000000", Needs(12)),
    (0, 10, b"0000000500000000000000", Needs(12)),
    (0, 10, b"000000050000000000000000", Wrong),
    (0, 10, b"000000050000000000000001", Record(12)),
    (0, 10, b"000000090000000000000004", Needs(16)),
    (0, 10, b"000000090000000000000004000000", Needs(16)),
    (0, 10, b"0000000900000000000000040001", Wrong),
    (0, 10, b"00000009000000000000000400000000", Record(16)),
    (0, 10, b"00000009000000000000000400000001", Needs(20)),
    (0, 10, b"00000009000000000000000400000002", Wrong),
    (0, 10, b"00000009000000000000000400000001000002", Needs(532)),
    (0, 10, b"0000000a0000000000000004", Needs(44)),
    (
        0,
        10,
        b"0000000a000000000000000400000000000000000000000000000000000000000000000000000000000000",
        Needs(44),
    ),
    (
        0,
        10,
        b"0000000a00000000000000040000000000000000000000000000000000000000000000000000000000000000",
        Record(44),
    ),
    (0, 1, b"0000000d", Wrong),
    (0, 2, b"0000000d", Needs(12)),
    (1, 4, b"0000000d", Wrong),
    (1, 5, b"0000000d", Needs(12)),
    (0, 2, b"0000000d0000000000000000", Wrong),
    (0, 2, b"0000000d0000000000000001", Record(12)),
    (0, 2, b"0000000d0000000000000002", Wrong),
    (0, 300, b"0000000d00000000000001", Needs(12)),
    (0, 300, b"0000000d00000000000002", Wrong),
    (0, 300, b"0000000d00000000000000", Needs(12)),
    (1, 5, b"0000000d0000000300000004", Record(12)),
    (1, 5, b"0000000d0000000400000004", Wrong),
];

#[test]
fn fronts_of_records(rt: HostRuntime) -> Result<(), Fail> {
    let alloc = rt.alloc();
    for table in [REQUESTS.as_slice(), OTHERS.as_slice()] {
        for (f, servers, text, front) in table {
            let bytes = hex::decode(alloc, *text)?;
            assert_eq!(rt;
                front_of(alloc, &bytes, *f, *servers),
                *front,
                "{f} {servers} {text:?}"
            );
        }
    }
    Ok(())
}

const HEADER: [u8; 24] = *b"BASELOG1\0\0\0\x01\0\0\x01\0\0\0\0\x40\0\x40\0\0";

#[test]
fn a_header(rt: HostRuntime) -> Result<(), Fail> {
    let header = Header {
        f: 1,
        n: 256,
        k: 64,
        t: 4_194_304,
    };
    assert_eq!(rt; read_header(&HEADER), Ok(header));
    if let Ok(found) = read_header(&HEADER) {
        assert_eq!(rt;
            write_header(rt.alloc(), &found)?.as_slice(),
            HEADER.as_slice()
        );
    }
    let mut wrong = HEADER;
    wrong[7] = b'2';
    assert_eq!(rt; read_header(&wrong), Err(HeaderErr::Wrong));
    Ok(())
}

/// A record of each kind, and two of a reply that is a lie: f is 1, and there are five servers.
const RECORDS: [(&[u8], &[u8]); 15] = [
    (
        b"\0\0\0\x01\0\0\0\x07\0\0\0\x02\0\0\0\x03\0\0\0\x01a\0\0\0",
        b"Request { client: 7, time: Time { secs: 2, micros: 3 }, bytes: Blob { bytes: [97] } }",
    ),
    (b"\0\0\0\x02\0\0\0\x03", b"Run { r: 3 }"),
    (b"\0\0\0\x03", b"RunAll"),
    (b"\0\0\0\x04\0\0\0\x02", b"Reboot { r: 2 }"),
    (b"\0\0\0\x05\0\0\0\x02\0\0\0\x09", b"Fetch { r: 2, n: 9 }"),
    (
        b"\0\0\0\x06\0\0\0\x01\0\0\0\x02\0\0\0\x03\0\0\0\0",
        b"Rogue { r: 1, time: Time { secs: 2, micros: 3 }, bytes: Blob { bytes: [] } }",
    ),
    (b"\0\0\0\x07\0\0\0\0", b"Skip { r: 0 }"),
    (
        b"\0\0\0\x08\0\0\0\x01\0\0\0\x02\0\0\0\x03\0\0\0\x02ab\0\0",
        b"Scratch { r: 1, index: 2, offset: 3, bytes: Blob { bytes: [97, 98] } }",
    ),
    (
        b"\0\0\0\x09\0\0\0\x01\0\0\0\x02\0\0\0\0",
        b"LieReply { r: 1, place: 2, word: Silent }",
    ),
    (
        b"\0\0\0\x09\0\0\0\x01\0\0\0\x02\0\0\0\x01\0\0\0\x01a\0\0\0",
        b"LieReply { r: 1, place: 2, word: Reply(Blob { bytes: [97] }) }",
    ),
    (
        b"\0\0\0\x0a\0\0\0\x01\0\0\0\x02aaaaaaaaaaaaaaaaaaaaaaaaaaaaaaaa",
        b"LieRoot { r: 1, place: 2, root: [97, 97, 97, 97, 97, 97, 97, 97, 97, 97, 97, 97, 97, 97, \
            97, 97, 97, 97, 97, 97, 97, 97, 97, 97, 97, 97, 97, 97, 97, 97, 97, 97] }",
    ),
    (
        b"\0\0\0\x0b\0\0\0\x01\0\0\0\x02\0\0\0\x03\0\0\0\x01a\0\0\0",
        b"LieItem { r: 1, level: 2, number: 3, bytes: Blob { bytes: [97] } }",
    ),
    (b"\0\0\0\x0c\0\0\0\x01", b"Wipe { r: 1 }"),
    (
        b"\0\0\0\x0d\0\0\0\x01\0\0\0\x04",
        b"Swap { r: 1, spare: 4 }",
    ),
    (b"\0\0\0\x0e", b"End"),
];

#[test]
fn reads_and_writes_each_kind(rt: HostRuntime) -> Result<(), Fail> {
    let alloc = rt.alloc();
    for (bytes, text) in RECORDS {
        let (event, n) = read_event(alloc, bytes, 1, 5)?;
        assert_eq!(rt; n, bytes.len(), "{bytes:?}");
        assert_eq!(rt; format!(in alloc; "{event:?}")?.as_bytes(), text);
        assert_eq!(rt; write_event(alloc, &event)?.as_slice(), bytes);
    }
    Ok(())
}
