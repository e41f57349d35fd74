//! The objects over memory, each at its listed fault and past its end.

ghost use Rattle.std.specs.Prelude.{◌≡◌, IfOk};

use super::*;
use nfs2_types::{Blob, NoMemory, Time};
use std::alloc::Global;
use std::test::Fail;

const HOME: Peer = [127, 0, 0, 1, 8, 1];

const AWAY: Peer = [10, 0, 0, 7, 3, 255];

#[test]
fn a_source_gives_its_bytes_in_chunks(rt: HostRuntime) -> Result<(), Fail> {
    let bytes = b"abcde".to_vec(rt.alloc())?;
    let fails = [2].to_vec(rt.alloc())?;
    let mut source = MemSource::new(bytes, 2, fails);
    for (got, filled) in [
        (Ok(2), b"ab--"),
        (Err(Failed), b"----"),
        (Ok(2), b"cd--"),
        (Ok(1), b"e---"),
        (Ok(0), b"----"),
    ] {
        let mut buf = [b'-'; 4];
        assert_eq!(rt; source.read(&mut buf), got);
        assert_eq!(rt; buf, *filled);
    }
    Ok(())
}

#[test]
fn a_sink_takes_whole_pieces(rt: HostRuntime) -> Result<(), Fail> {
    let fails = [2].to_vec(rt.alloc())?;
    let mut sink = MemSink::new(rt.alloc(), fails);
    for (piece, taken) in [
        (b"ab", Ok(2)),
        (b"cd", Err(SinkErr::Failed)),
        (b"ef", Ok(2)),
    ] {
        assert_eq!(rt; sink.write(piece), taken);
    }
    assert_eq!(rt; sink.written(), b"abef".as_slice());
    Ok(())
}

/// A datagram of this text.
fn datagram(alloc: Global, from: Peer, text: &[u8]) -> Result<Datagram, NoMemory>
    ensures { IfOk result (λ datagram. datagram.bytes ≡ text.now) }
{
    let bytes = Blob::from_slice(alloc, text)?;
    Ok(Datagram { from, bytes })
}

/// A link where two datagrams wait.
fn two_wait(alloc: Global, fails: Vec<u64>) -> Result<MemLink, Fail> {
    let one = datagram(alloc, HOME, b"one")?;
    let two = datagram(alloc, AWAY, b"two")?;
    Ok(MemLink::new(alloc, vec![in alloc; one, two]?, fails))
}

#[test]
fn a_link_keeps_its_datagrams_over_faults(rt: HostRuntime) -> Result<(), Fail> {
    let alloc = rt.alloc();
    let mut link = two_wait(alloc, [1, 3, 6].to_vec(alloc)?)?;
    assert_eq!(rt; link.bind(2049), Err(Failed));
    assert_eq!(rt; link.bind(2049), Ok(2049));
    assert_eq!(rt; link.recv(), Err(LinkErr::Failed));
    assert_eq!(rt; link.recv(), Ok(Some(datagram(alloc, HOME, b"one")?)));
    assert_eq!(rt; link.send(AWAY, b"1"), Ok(()));
    assert_eq!(rt; link.send(AWAY, b"2"), Err(LinkErr::Failed));
    assert_eq!(rt; link.recv(), Ok(Some(datagram(alloc, AWAY, b"two")?)));
    assert_eq!(rt; link.recv(), Ok(None));
    assert_eq!(rt; link.send(HOME, b"3"), Ok(()));
    let sent = [datagram(alloc, AWAY, b"1")?, datagram(alloc, HOME, b"3")?];
    assert_eq!(rt; link.sent(), sent.as_slice());
    assert_eq!(rt; link.bind(0), Ok(1));
    Ok(())
}

#[test]
fn a_clock_repeats_its_last_time(rt: HostRuntime) -> Result<(), Fail> {
    let first = Time { secs: 9, micros: 5 };
    let last = Time {
        secs: 7,
        micros: 999_999,
    };
    let mut clock = MemClock::new([first, last].to_vec(rt.alloc())?);
    for time in [first, last, last] {
        assert_eq!(rt; clock.now(), time);
    }
    let mut idle = MemClock::new(Vec::new(rt.alloc()));
    for _ in 0..2 {
        assert_eq!(rt; idle.now(), Time { secs: 0, micros: 0 });
    }
    Ok(())
}

#[test]
fn a_medium_keeps_what_was_written_last(rt: HostRuntime) -> Result<(), Fail> {
    let mut medium = MemMedium::new(rt.alloc(), 9, [3, 6].to_vec(rt.alloc())?);
    let mut block = [7; 512];
    assert_eq!(rt; medium.blocks(), 9);
    assert_eq!(rt; medium.read(8, &mut block), Ok(()));
    assert!(rt; block == [0; 512]);
    assert_eq!(rt; medium.write(8, &[1; 512]), Ok(()));
    assert_eq!(rt; medium.write(0, &[2; 512]), Err(MediumErr::Failed));
    assert_eq!(rt; medium.write(0, &[3; 512]), Ok(()));
    assert_eq!(rt; medium.read(8, &mut block), Ok(()));
    assert!(rt; block == [1; 512]);
    assert_eq!(rt; medium.write(8, &[0; 512]), Err(MediumErr::Failed));
    assert_eq!(rt; medium.write(8, &[0; 512]), Ok(()));
    assert_eq!(rt; medium.read(8, &mut block), Ok(()));
    assert!(rt; block == [0; 512]);
    assert_eq!(rt; medium.read(0, &mut block), Ok(()));
    assert!(rt; block == [3; 512]);
    Ok(())
}
