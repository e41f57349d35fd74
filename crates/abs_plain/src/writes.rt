//! Answers of the calls that change the array.

ghost use Rattle.std.specs.Prelude.{◌≡◌};
ghost use Rattle.nfs2_types.specs.Call.{call_of};
ghost use Rattle.abs_model.specs.Bounds.{HasBounds};
ghost use Rattle.abs_plain.specs.Steps.{place_of, write_answer};

use abs_model::Entry;
use abs_queries::look::{at, found_or_made};
use abs_queries::seen::{fattr, node_at};
use nfs2_types::{Args, NfsResult};

/// The index of which the answer speaks; the root's where it speaks of none.
pub fn place_of(entries: &[Entry], args: &Args) -> usize
    ensures { result ≡ place_of entries.now (call_of args.now) }
{
    match args {
        Args::SetAttr { node, .. } => at(entries, node),
        Args::Write { file, .. } => at(entries, file),
        Args::Create { dir, name, .. } => found_or_made(entries, at(entries, dir), name),
        Args::MkDir { dir, name, .. } => found_or_made(entries, at(entries, dir), name),
        _ => 0,
    }
}

/// The answer of a call that is not refused, from the array after it.
pub fn answer(entries: &[Entry], i: usize, args: &Args) -> NfsResult
    requires { HasBounds entries.now i }
    ensures { result ≡ write_answer entries.now i (call_of args.now) }
{
    match args {
        Args::SetAttr { .. } | Args::Write { .. } => NfsResult::Attr(fattr(entries, i)),
        Args::Create { .. } | Args::MkDir { .. } => node_at(entries, i),
        _ => NfsResult::Done,
    }
}
