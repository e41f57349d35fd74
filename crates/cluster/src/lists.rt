//! Lists that grow.

ghost use Rattle.std.specs.Prelude.{◌≡◌, ◌++◌, ◌∷◌, [], OnOk, OnErr, IfOk};
ghost use Rattle.log_format.specs.declared.Line.TheVariants.{Down};
ghost use Rattle.cluster_model.specs.Moments.{decision_line as line_of_decision};

use log_format::Line;
use nfs2_types::{NoMemory, Word};
use server_trait::FaultPoint;

/// Puts a line behind the others.
pub fn push_line(lines: &mut Vec<Line>, line: Line) -> Result<(), NoMemory>
    ensures { OnOk result (lines.new.items ≡ lines.old.items ++ line ∷ []) }
{
    match lines.push(line) {
        Ok(()) => Ok(()),
        Err(_) => Err(NoMemory),
    }
}

/// Puts a fault point behind the others.
pub fn push_point(points: &mut Vec<FaultPoint>, point: FaultPoint) -> Result<(), NoMemory>
    ensures { OnOk result (points.new.items ≡ points.old.items ++ point ∷ []) }
{
    match points.push(point) {
        Ok(()) => Ok(()),
        Err(_) => Err(NoMemory),
    }
}

/// Puts the line and the fault point of a replica behind the others whose server failed at a stage of an event.
pub fn push_fall_at(
    lines: &mut Vec<Line>,
    points: &mut Vec<FaultPoint>,
    event: u64,
    stage: u64,
    r: u32,
) -> Result<(), NoMemory>
    ensures lines { OnOk result (lines.new.items ≡ lines.old.items ++ Down r ∷ []) }
    ensures points { OnOk result (points.new.items
        ≡ points.old.items ++ record { event = event; stage = stage; replica = r } ∷ []) }
{
    push_line(lines, Line::Down { r })?;
    let point = FaultPoint {
        event,
        stage,
        replica: r,
    };
    push_point(points, point)?;
    Ok(())
}

/// The same of a server that failed in the first stage of an event.
pub fn push_fall(
    lines: &mut Vec<Line>,
    points: &mut Vec<FaultPoint>,
    event: u64,
    r: u32,
) -> Result<(), NoMemory>
    ensures lines { OnOk result (lines.new.items ≡ lines.old.items ++ Down r ∷ []) }
    ensures points { OnOk result (points.new.items
        ≡ points.old.items ++ record { event = event; stage = 0; replica = r } ∷ []) }
{
    push_fall_at(lines, points, event, 0, r)
}

/// Puts fault points behind the others: all of them, or none.
pub fn push_points(points: &mut Vec<FaultPoint>, more: &[FaultPoint]) -> Result<(), NoMemory>
    ensures ok { OnOk result (points.new.items ≡ points.old.items ++ more.now) }
    ensures err { OnErr result (points.new.items ≡ points.old.items) }
{
    match points.extend_from_slice(more) {
        Ok(()) => Ok(()),
        Err(_) => Err(NoMemory),
    }
}

/// A copy of a word.
pub fn copied(word: &Word) -> Result<Word, NoMemory>
    ensures { IfOk result (λ w. w ≡ word.now) }
{
    match word {
        Word::Silent => Ok(Word::Silent),
        Word::Reply(bytes) => Ok(Word::Reply(bytes.clone()?)),
    }
}

/// The line of a decision.
pub fn decision_line(place: u32, word: Word) -> Line
    ensures { result ≡ line_of_decision place word }
{
    match word {
        Word::Silent => Line::Silent { place },
        Word::Reply(bytes) => Line::Reply { place, bytes },
    }
}
