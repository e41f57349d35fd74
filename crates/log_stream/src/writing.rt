//! Lines into a sink, each handed to it whole, and what was not taken handed again.

ghost use Rattle.std.specs.Prelude.{◌≡◌, ◌≤◌};
ghost use Rattle.log_format.specs.Lines.{line_text, text_of};
ghost use Rattle.log_stream.specs.Writing.{Writes, WriteHasCause};

use log_format::{Line, write_line};
use outside::{Sink, SinkErr};
use std::alloc::Global;

/// Hands the bytes to the sink until all are taken.
fn write_all<O: Sink>(out: &mut O, text: &[u8]) -> Result<(), SinkErr>
    ensures bytes { Writes (O.written out.old) (O.written out.new) text.now result }
    ensures cause { WriteHasCause (O.faults out.old) (O.faults out.new) result }
{
    let mut done = 0usize;
    while done < text.len() {
        let count = out.write(&text[done..])?;
        if count == 0 {
            return Err(SinkErr::Failed);
        }
        done += count;
    }
    Ok(())
}

/// Hands the text of a line to the sink, and what was not taken again.
fn put_line<O: Sink>(alloc: Global, out: &mut O, line: &Line) -> Result<(), SinkErr>
    ensures bytes { Writes (O.written out.old) (O.written out.new) (line_text line.now) result }
    ensures cause { WriteHasCause (O.faults out.old) (O.faults out.new) result }
{
    match write_line(alloc, line) {
        Ok(text) => write_all(out, text.as_slice()),
        Err(_) => Err(SinkErr::NoMemory),
    }
}

/// Writes the lines in their order. After an error some first bytes of their text are written.
pub fn write_lines<O: Sink>(alloc: Global, out: &mut O, lines: &[Line]) -> Result<(), SinkErr>
    ensures bytes { Writes (O.written out.old) (O.written out.new) (text_of lines.now) result }
    ensures cause { WriteHasCause (O.faults out.old) (O.faults out.new) result }
{
    for line in lines {
        put_line(alloc, out, line)?;
    }
    Ok(())
}
