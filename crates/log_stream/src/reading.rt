//! A header and records from a source, and never a byte behind the one in hand.

ghost use Rattle.std.specs.Prelude.{◌≡◌, ◌≢◌, ◌<◌, ◌≤◌, true, length, vec_len, IfOk, OnErr, Err};
ghost use Rattle.xdr_core.specs.Items.{IsBytes};
ghost use Rattle.log_format.specs.Records.{header_at, record_at, event_form, is_within};
ghost use Rattle.log_format.specs.Spelling.{record_len};
ghost use Rattle.log_stream.specs.Reading.{Reads, Fills, TakesMore, TakesPart, TakesText, ReadHasCause};
ghost use Rattle.log_stream.specs.declared.fault.ReadErr.TheVariants as errors;

use crate::fault::ReadErr;
use log_format::{Event, EventErr, Header, HeaderErr, read_event};
use outside::Source;
use std::alloc::Global;

/// A record, and the bytes that were taken for it.
#[derive(Debug, Drop)]
pub struct Record {
    pub event: Event,
    pub bytes: Vec<u8>,
}

/// Fills the buffer.
fn fill<S: Source>(input: &mut S, buf: &mut [u8]) -> Result<(), ReadErr>
    ensures bytes { Fills (S.left input.old) (S.left input.new) buf.new result }
    ensures fits { IsBytes buf.new }
    ensures cause { ReadHasCause (S.faults input.old) (S.faults input.new) result }
{
    let mut filled = 0usize;
    while filled < buf.len() {
        let count = match input.read(&mut buf[filled..]) {
            Ok(count) => count,
            Err(_) => return Err(ReadErr::Failed),
        };
        if count == 0 {
            return Err(ReadErr::Wrong);
        }
        filled += count;
    }
    Ok(())
}

/// Takes bytes from the source until there are `need`.
fn take_up_to<S: Source>(
    alloc: Global,
    bytes: &mut Vec<u8>,
    need: usize,
    input: &mut S,
) -> Result<(), ReadErr>
    requires { vec_len bytes.old < need }
    ensures bytes { TakesMore (S.left input.old) (S.left input.new) bytes.old.items bytes.new.items need result }
    ensures fits { IsBytes bytes.new.items }
    ensures cause { ReadHasCause (S.faults input.old) (S.faults input.new) result }
{
    let mut piece = vec![in alloc; 0u8; need - bytes.len()]?;
    fill(input, piece.as_mut_slice())?;
    bytes.extend_from_slice(piece.as_slice())?;
    Ok(())
}

/// Reads a record from the front of the source, and not a byte behind it, where `f` replicas may fail
/// and there are so many servers. `Wrong` says that the source has no record there.
pub fn read_record<S: Source>(
    alloc: Global,
    input: &mut S,
    f: u32,
    servers: u32,
) -> Result<Record, ReadErr>
    requires { f ≤ 2 }
    ensures bytes { Reads (record_at f servers) (λ r. r.event) (S.left input.old) (S.left input.new) result }
    ensures text { IfOk result (λ r.
        TakesText (event_form f servers) (S.left input.old) (S.left input.new) r.event r.bytes.items) }
    ensures len { IfOk result (λ r. vec_len r.bytes ≡ record_len r.event) }
    ensures small { IfOk result (λ r. vec_len r.bytes ≤ 65556) }
    ensures part { OnErr result (TakesPart (event_form f servers) (S.left input.old) (S.left input.new)) }
    ensures cause { ReadHasCause (S.faults input.old) (S.faults input.new) result }
{
    let mut bytes = Vec::new(alloc);
    loop {
        match read_event(alloc, bytes.as_slice(), f, servers) {
            Ok((event, _)) => return Ok(Record { event, bytes }),
            Err(EventErr::Short { need }) => take_up_to(alloc, &mut bytes, need, input)?,
            Err(EventErr::Wrong) => return Err(ReadErr::Wrong),
            Err(EventErr::NoMemory) => return Err(ReadErr::NoMemory),
        }
    }
}

/// Reads a header of 24 bytes from the front of the source. `Wrong` says that the source has no header
/// there. It takes no memory.
pub fn read_header<S: Source>(input: &mut S) -> Result<Header, ReadErr>
    ensures bytes { Reads header_at (λ h. h) (S.left input.old) (S.left input.new) result }
    ensures within { IfOk result (λ h. is_within h ≡ true) }
    ensures interval { IfOk result (λ h. 0 < h.k) }
    ensures memory { result ≢ Err errors.NoMemory }
    ensures cause { ReadHasCause (S.faults input.old) (S.faults input.new) result }
{
    let mut bytes = [0u8; 24];
    fill(input, &mut bytes)?;
    match log_format::read_header(&bytes) {
        Ok(header) => Ok(header),
        Err(HeaderErr::Wrong) => Err(ReadErr::Wrong),
    }
}
