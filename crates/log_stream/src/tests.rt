//! Logs from sources and lines into sinks, whole and in pieces, with a fault at each call.

ghost use Rattle.std.specs.Prelude.{Some};

use super::*;
use log_format::{Event, Header, Line};
use nfs2_types::{Blob, NoMemory, Time};
use outside::{MemSink, MemSource, Sink, SinkErr, Source};
use std::alloc::{AllocError, Global};
use std::test::Fail;

/// A header, a request with a call of five bytes, a RunAll, a Fetch, an End.
const LOG: &[u8] = b"BASELOG1\0\0\0\x01\0\0\x10\0\0\0\x04\0\0\x01\0\0\
\0\0\0\x01\0\0\0\x07\0\0\x03\xe8\0\x0f\x42\x3f\0\0\0\x05hello\0\0\0\
\0\0\0\x03\
\0\0\0\x05\0\0\0\x03\0\0\0\x01\
\0\0\0\x0e";

const HEADER: Header = Header {
    f: 1,
    n: 4096,
    k: 1024,
    t: 65536,
};

/// The request of the log.
fn request(alloc: Global) -> Result<Event, NoMemory> {
    Ok(Event::Request {
        client: 7,
        time: Time {
            secs: 1000,
            micros: 999_999,
        },
        bytes: Blob::from_slice(alloc, b"hello")?,
    })
}

/// Reads a record where one replica may fail and there are five servers.
fn event_read<S: Source>(alloc: Global, source: &mut S) -> Result<Event, ReadErr> {
    match read_record(alloc, source, 1, 5) {
        Ok(record) => Ok(record.event),
        Err(e) => Err(e),
    }
}

#[test]
fn a_log_in_chunks(rt: HostRuntime) -> Result<(), Fail> {
    let alloc = rt.alloc();
    for chunk in [1usize, 3, 1000] {
        let mut source = MemSource::new(LOG.to_vec(alloc)?, chunk, Vec::new(alloc));
        assert_eq!(rt; read_header(&mut source), Ok(HEADER));
        assert_eq!(rt; event_read(alloc, &mut source), Ok(request(alloc)?));
        assert_eq!(rt; event_read(alloc, &mut source), Ok(Event::RunAll));
        assert_eq!(rt;
            event_read(alloc, &mut source),
            Ok(Event::Fetch { r: 3, n: 1 })
        );
        assert_eq!(rt; event_read(alloc, &mut source), Ok(Event::End));
        assert_eq!(rt; event_read(alloc, &mut source), Err(ReadErr::Wrong));
    }
    Ok(())
}

/// How many items of a log are read, of at most five, and why no more are.
fn items_read<S: Source>(alloc: Global, source: &mut S) -> (u32, Option<ReadErr>) {
    if let Err(e) = read_header(source) {
        return (0, Some(e));
    }
    for count in 1u32..5 {
        if let Err(e) = event_read(alloc, source) {
            return (count, Some(e));
        }
    }
    (5, None)
}

#[test]
fn a_source_fails_at_a_call(rt: HostRuntime) -> Result<(), Fail> {
    let alloc = rt.alloc();
    // A call for the header, three for the request, one for the RunAll, two for the Fetch, one for the End.
    for (call, count) in [(1u64, 0u32), (2, 1), (4, 1), (5, 2), (7, 3), (8, 4)] {
        let mut source = MemSource::new(LOG.to_vec(alloc)?, 1000, [call].to_vec(alloc)?);
        let read = (count, Some(ReadErr::Failed));
        assert_eq!(rt; items_read(alloc, &mut source), read, "at {call}");
    }
    let mut source = MemSource::new(LOG.to_vec(alloc)?, 1000, [9].to_vec(alloc)?);
    assert_eq!(rt; items_read(alloc, &mut source), (5, None));
    Ok(())
}

#[test]
fn a_log_that_is_cut(rt: HostRuntime) -> Result<(), Fail> {
    let alloc = rt.alloc();
    for (len, count) in [
        (0usize, 0u32),
        (23, 0),
        (24, 1),
        (44, 1),
        (51, 1),
        (52, 2),
        (67, 3),
        (71, 4),
    ] {
        let mut source = MemSource::new(LOG[..len].to_vec(alloc)?, 3, Vec::new(alloc));
        let read = (count, Some(ReadErr::Wrong));
        assert_eq!(rt; items_read(alloc, &mut source), read, "at {len}");
    }
    Ok(())
}

/// Bytes with one word changed.
fn with_word(alloc: Global, at: usize, word: u32) -> Result<Vec<u8>, AllocError> {
    let mut bytes = LOG.to_vec(alloc)?;
    bytes.truncate(at);
    bytes.extend_from_slice(&word.to_be_bytes())?;
    bytes.extend_from_slice(&LOG[LOG.len().min(at.saturating_add(4))..])?;
    Ok(bytes)
}

#[test]
fn words_at_their_limits(rt: HostRuntime) -> Result<(), Fail> {
    let alloc = rt.alloc();
    for (at, word, count) in [
        (4usize, 0x4c4f_4732u32, 0u32),
        (8, 2, 5),
        (8, 3, 0),
        (12, 16, 5),
        (12, 256, 5),
        (12, 17, 0),
        (16, 0, 0),
        (16, 1, 5),
        (16, 1024, 5),
        (16, 1025, 0),
        (20, 511, 0),
        (20, 512, 5),
        (20, 16_777_216, 5),
        (20, 16_777_217, 0),
        (24, 0, 1),
        (36, 1_000_000, 1),
        (40, 65537, 1),
        (48, 0x6f00_0001, 1),
        (52, 0, 2),
        (52, 15, 2),
        (60, 4, 3),
        (64, 0, 3),
    ] {
        let mut source = MemSource::new(with_word(alloc, at, word)?, 1000, Vec::new(alloc));
        assert_eq!(rt; items_read(alloc, &mut source).0, count, "{word} at {at}");
    }
    Ok(())
}

#[test]
fn what_is_taken_of_a_wrong_record(rt: HostRuntime) -> Result<(), Fail> {
    let alloc = rt.alloc();
    for (at, word, taken) in [
        (24usize, 0u32, 28usize),
        (36, 1_000_000, 44),
        (40, 65537, 44),
        (48, 0x6f00_0001, 52),
        (64, 0, 68),
    ] {
        let mut source = MemSource::new(with_word(alloc, at, word)?, 1000, Vec::new(alloc));
        assert_eq!(rt;
            items_read(alloc, &mut source).1,
            Some(ReadErr::Wrong),
            "{word} at {at}"
        );
        let mut rest = [0u8; 100];
        assert_eq!(rt;
            source.read(&mut rest),
            Ok(LOG.len().saturating_sub(taken)),
            "{word} at {at}"
        );
    }
    Ok(())
}

/// A sink over memory, which takes at most one byte a call, and none once it is full.
#[derive(Drop)]
struct Drip {
    bytes: Vec<u8>,
    room: usize,
    faults: u64,
}

impl Sink for Drip {
    ghost written = { λ s. Some s.bytes.items };

    ghost faults = { λ s. s.faults };

    fn write(&mut self, piece: &[u8]) -> Result<usize, SinkErr> {
        let count = piece.len().min(1).min(self.room);
        if count == 0 {
            self.faults = self.faults.saturating_add(1);
            return Ok(0);
        }
        match self.bytes.extend_from_slice(&piece[..count]) {
            Ok(()) => {
                self.room -= count;
                Ok(count)
            }
            Err(_) => Err(SinkErr::NoMemory),
        }
    }
}

/// Three lines.
const TEXT: &[u8] = b"silent 3\nat 0 3\nat 1 down\n";

fn lines(alloc: Global) -> Result<Vec<Line>, AllocError> {
    Ok(vec![in alloc;
        Line::Silent { place: 3 },
        Line::At { r: 0, place: 3 },
        Line::AtDown { r: 1 },
    ]?)
}

#[test]
fn lines_into_a_sink_of_one_byte_a_call(rt: HostRuntime) -> Result<(), Fail> {
    let alloc = rt.alloc();
    for (room, result) in [
        (0usize, Err(SinkErr::Failed)),
        (10, Err(SinkErr::Failed)),
        (26, Ok(())),
    ] {
        let mut out = Drip {
            bytes: Vec::new(alloc),
            room,
            faults: 0,
        };
        assert_eq!(rt;
            write_lines(alloc, &mut out, &lines(alloc)?),
            result,
            "room {room}"
        );
        assert_eq!(rt; out.bytes.as_slice(), &TEXT[..room], "room {room}");
    }
    Ok(())
}

#[test]
fn a_sink_fails_at_a_line(rt: HostRuntime) -> Result<(), Fail> {
    let alloc = rt.alloc();
    for (call, result, len) in [
        (1u64, Err(SinkErr::Failed), 0usize),
        (2, Err(SinkErr::Failed), 9),
        (3, Err(SinkErr::Failed), 16),
        (4, Ok(()), TEXT.len()),
    ] {
        let mut out = MemSink::new(alloc, [call].to_vec(alloc)?);
        assert_eq!(rt;
            write_lines(alloc, &mut out, &lines(alloc)?),
            result,
            "at {call}"
        );
        assert_eq!(rt; out.written(), &TEXT[..len], "at {call}");
    }
    Ok(())
}
