//! The lines that a run prints.

ghost use Rattle.std.specs.Prelude.{◌≡◌, IfOk, string_bytes};
ghost use Rattle.log_format.specs.Lines.{line_text, cause_text as text_of_cause};

use nfs2_types::{Blob, Digest, NoMemory};
use std::alloc::{AllocError, Global};

/// Why a record did nothing.
#[derive(Clone, Copy, Debug, PartialEq, Eq)]
pub enum IdleCause {
    NotLive,
    AtEnd,
    Behind,
    NoBytes,
    NotRebuilding,
}

/// A line of a run. `place` counts requests, the first being 1; `r` is the number of a replica.
#[derive(Debug, Drop)]
pub enum Line {
    /// The place was decided with these bytes.
    Reply {
        place: u32,
        bytes: Blob,
    },
    /// The place was decided as silent.
    Silent {
        place: u32,
    },
    /// The place became stable with this root.
    Stable {
        place: u32,
        root: Digest,
    },
    /// A record did nothing.
    Idle {
        r: u32,
        cause: IdleCause,
    },
    /// The server of the replica failed.
    Down {
        r: u32,
    },
    /// The replica has got so many items towards the place.
    Fetching {
        r: u32,
        place: u32,
        got: u32,
    },
    /// The replica is live at the place, after so many nodes and objects were got.
    Rebuilt {
        r: u32,
        place: u32,
        nodes: u32,
        objects: u32,
    },
    /// At the end the replica is live at this place.
    At {
        r: u32,
        place: u32,
    },
    /// At the end the replica is down.
    AtDown {
        r: u32,
    },
    /// At the end the replica is being rebuilt.
    AtRebuilding {
        r: u32,
    },
}

fn cause_text(cause: IdleCause) -> &'static str
    ensures { result.now ≡ text_of_cause cause }
{
    match cause {
        IdleCause::NotLive => "not-live",
        IdleCause::AtEnd => "at-end",
        IdleCause::Behind => "behind",
        IdleCause::NoBytes => "no-bytes",
        IdleCause::NotRebuilding => "not-rebuilding",
    }
}

#[tactic(auto, unfolding(crate::specs::Lines::line_text))]
fn text_of(alloc: Global, line: &Line) -> Result<String, AllocError>
    ensures { IfOk result (λ text. string_bytes text ≡ line_text line.now) }
{
    match line {
        Line::Reply { place, bytes } => {
            let hexadecimal = hex::encode(alloc, bytes.as_slice())?;
            format!(in alloc; "reply {place} {hexadecimal}\n")
        }
        Line::Silent { place } => format!(in alloc; "silent {place}\n"),
        Line::Stable { place, root } => {
            let hexadecimal = hex::encode(alloc, root.as_slice())?;
            format!(in alloc; "stable {place} {hexadecimal}\n")
        }
        Line::Idle { r, cause } => {
            let cause = cause_text(*cause);
            format!(in alloc; "idle {r} {cause}\n")
        }
        Line::Down { r } => format!(in alloc; "down {r}\n"),
        Line::Fetching { r, place, got } => format!(in alloc; "fetching {r} {place} {got}\n"),
        Line::Rebuilt {
            r,
            place,
            nodes,
            objects,
        } => format!(in alloc; "rebuilt {r} {place} {nodes} {objects}\n"),
        Line::At { r, place } => format!(in alloc; "at {r} {place}\n"),
        Line::AtDown { r } => format!(in alloc; "at {r} down\n"),
        Line::AtRebuilding { r } => format!(in alloc; "at {r} rebuilding\n"),
    }
}

/// The text of a line, with the byte 10 that ends it.
pub fn write_line(alloc: Global, line: &Line) -> Result<Vec<u8>, NoMemory>
    ensures { IfOk result (λ text. text.items ≡ line_text line.now) }
{
    match text_of(alloc, line) {
        Ok(text) => Ok(text.into_bytes()),
        Err(_) => Err(NoMemory),
    }
}
