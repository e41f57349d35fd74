//! The streams of the system, and readers and writers that fail.

ghost use Rattle.std.specs.Prelude.{◌≤◌, IfOk};

use super::*;
use outside::{Failed, Sink, SinkErr, Source};
use std::io;
use std::io::{ErrorKind, Read, Write};
use std::test::Fail;

#[test]
fn standard_output_takes_a_line(rt: HostRuntime) {
    let mut out = StdSink::new(io::writer(&rt));
    assert_eq!(rt; out.write(b""), Ok(0));
    assert_eq!(rt; out.write(b"\n"), Ok(1));
}

/// A test's standard input is empty.
#[test]
fn standard_input_ends(rt: HostRuntime) -> Result<(), Fail> {
    let mut input = StdSource::new(rt.alloc(), rt.reader())?;
    assert_eq!(rt; input.read(&mut [0; 4]), Ok(0));
    Ok(())
}

/// A stream whose second call fails, and which carries three bytes a call.
#[derive(Drop)]
struct FailsOnce {
    calls: u32,
}

impl FailsOnce {
    fn carries(&mut self, len: usize) -> io::Result<usize>
        ensures { IfOk result (λ count. count ≤ len) }
    {
        self.calls = self.calls.saturating_add(1);
        if self.calls == 2 {
            return Err(ErrorKind::Other.into());
        }
        Ok(len.min(3))
    }
}

impl Read for FailsOnce {
    fn read(&mut self, buf: &mut [u8]) -> io::Result<usize> {
        let count = self.carries(buf.len())?;
        buf[..count].fill(b'a');
        Ok(count)
    }
}

impl Write for FailsOnce {
    fn write(&mut self, buf: &[u8]) -> io::Result<usize> {
        self.carries(buf.len())
    }

    fn flush(&mut self) -> io::Result<()> {
        Ok(())
    }
}

/// The bytes that were read ahead are handed out before the fault is told, and the fault is told once.
#[test]
fn a_read_that_fails_is_told(rt: HostRuntime) -> Result<(), Fail> {
    let mut input = StdSource::new(rt.alloc(), FailsOnce { calls: 0 })?;
    let mut buf = [0; 2];
    for count in [Ok(2), Ok(1), Err(Failed), Ok(2)] {
        assert_eq!(rt; input.read(&mut buf), count);
    }
    Ok(())
}

#[test]
fn a_write_that_fails_is_told(rt: HostRuntime) {
    let mut out = StdSink::new(FailsOnce { calls: 0 });
    for count in [Ok(2), Err(SinkErr::Failed), Ok(2)] {
        assert_eq!(rt; out.write(b"ab"), count);
    }
}
