//! Words that are cast, and what enough equal ones do.

ghost use Rattle.std.specs.Prelude.{◌≡◌, ◌<◌, OnOk, IfOk, vec_len};
ghost use Rattle.cluster.specs.Kept.{kept};
ghost use Rattle.cluster.specs.Casting.{Counted, Rooted, RootedIf, SeatsSee, Voted, seat_sees};

use super::Cluster;
use crate::lists::{copied, decision_line, push_line};
use log_format::Line;
use nfs2_types::{Blob, Digest, NoMemory, Word};
use replica::Cast;
use seats::Seat;
use std::alloc::Global;

/// A root word as it is kept: the reply of its bytes.
fn root_word(alloc: Global, root: &Digest) -> Result<Word, NoMemory>
    ensures { IfOk result (λ word. word ≡ Word.Reply root.now) }
{
    let bytes = Blob::from_slice(alloc, root)?;
    Ok(Word::Reply(bytes))
}

/// Tells a replica of a stable place, if it is live. It takes no memory.
fn tell(seat: &mut Seat, place: u32)
    ensures { seat.new ≡ seat_sees place seat.old }
{
    if let Seat::Live(replica) = seat {
        replica.stable_at(place);
    }
}

/// Tells each live replica of a stable place. It takes no memory.
fn tell_all(seats: &mut Vec<Seat>, place: u32)
    ensures { SeatsSee place seats.old.items seats.new.items }
{
    for r in 0..seats.len() {
        tell(&mut seats[r], place);
    }
}

impl Cluster {
    /// Casts the words of a replica for a place: its reply word, and then its root word where it has one.
    pub(super) fn vote(
        &mut self,
        alloc: Global,
        lines: &mut Vec<Line>,
        r: u32,
        cast: Cast,
    ) -> Result<(), NoMemory>
        requires voter { r < vec_len self.old.seats }
        ensures voted { OnOk result (Voted r cast (kept self.old) (kept self.new) lines.old.items lines.new.items) }
    {
        self.cast(lines, r, cast.place, cast.word)?;
        self.vote_root(alloc, lines, r, cast.place, cast.root)?;
        Ok(())
    }

    /// Casts the root word of a replica for a place, where it has one.
    pub(super) fn vote_root(
        &mut self,
        alloc: Global,
        lines: &mut Vec<Line>,
        r: u32,
        place: u32,
        root: Option<Digest>,
    ) -> Result<(), NoMemory>
        requires voter { r < vec_len self.old.seats }
        ensures rooted { OnOk result (RootedIf r place root (kept self.old) (kept self.new)
            lines.old.items lines.new.items) }
    {
        let Some(root) = root else {
            return Ok(());
        };
        self.cast_root(alloc, lines, r, place, root)?;
        Ok(())
    }

    /// Casts the word of a replica for a place. With f others that are equal it decides the place: its line is
    /// printed, and the words for the place are forgotten. A word for a decided place is dropped.
    fn cast(
        &mut self,
        lines: &mut Vec<Line>,
        r: u32,
        place: u32,
        word: Word,
    ) -> Result<(), NoMemory>
        requires voter { r < vec_len self.old.seats }
        ensures cast { OnOk result (Counted r place word (kept self.old) (kept self.new)
            lines.old.items lines.new.items) }
    {
        if self.decisions.contains_key(&place) {
            return Ok(());
        }
        self.votes.cast(r, place, copied(&word)?)?;
        if self.votes.count(place, &word) > self.limits.f as usize {
            push_line(lines, decision_line(place, copied(&word)?))?;
            match self.decisions.insert(place, word) {
                Ok(_) => {}
                Err(_) => return Err(NoMemory),
            }
            self.votes.forget(place);
        }
        Ok(())
    }

    /// Casts the root word of a replica for a place. With 2f others that are equal it makes the place stable: its line
    /// is printed, each live replica forgets its checkpoints of lower places, and the root words for places up to it
    /// are forgotten. A root word for a place that is not above the stable one is dropped.
    fn cast_root(
        &mut self,
        alloc: Global,
        lines: &mut Vec<Line>,
        r: u32,
        place: u32,
        root: Digest,
    ) -> Result<(), NoMemory>
        requires voter { r < vec_len self.old.seats }
        ensures rooted { OnOk result (Rooted r place root (kept self.old) (kept self.new)
            lines.old.items lines.new.items) }
    {
        if place <= self.stable {
            return Ok(());
        }
        let word = root_word(alloc, &root)?;
        self.roots.cast(r, place, copied(&word)?)?;
        if self.roots.count(place, &word) <= 2 * self.limits.f as usize {
            return Ok(());
        }
        push_line(lines, Line::Stable { place, root })?;
        self.stable = place;
        self.root = root;
        self.roots.drop_to(place);
        tell_all(&mut self.seats, place);
        Ok(())
    }
}
