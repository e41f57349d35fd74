//! The replicas together: what each record does, and the lines that it gives.

use crate::ballots::Ballots;
use crate::holdings::{Cast, Limits, Live};
use crate::items::Rebuilding;
use crate::objects::{Array, Content, root_of};
use crate::records::Record;
use crate::requests::Request;
use std::alloc::{AllocError, Global};

mod fetches;

/// A replica. None is down, since no server fails.
#[derive(Debug, Drop)]
enum Seat {
    Live(Live),
    Rebuilding(Rebuilding),
}

/// What a turn of a replica is: the request of its place, another one, or none.
#[derive(Drop)]
enum Turn {
    Own,
    Other(Request),
    Skipped,
}

/// The state, and the lines so far.
#[derive(Drop)]
pub struct Model {
    alloc: Global,
    limits: Limits,
    requests: Vec<Request>,
    seats: Vec<Seat>,
    ballots: Ballots,
    pub lines: Vec<u8>,
}

impl Model {
    /// 3f + 1 replicas begin.
    pub fn new(alloc: Global, limits: Limits) -> Result<Model, AllocError> {
        let mut seats = Vec::new(alloc);
        for _ in 0..limits.f.saturating_mul(3).saturating_add(1) {
            let live = Live::new(alloc, Array::empty(alloc)?, 0)?;
            seats.push(Seat::Live(live))?;
        }
        let digests = Array::empty(alloc)?.digests(alloc)?;
        let root = root_of(alloc, digests.as_slice())?;
        Ok(Model {
            alloc,
            limits,
            requests: Vec::new(alloc),
            seats,
            ballots: Ballots::new(alloc, root),
            lines: Vec::new(alloc),
        })
    }

    fn print(&mut self, line: String) -> Result<(), AllocError> {
        self.lines.extend_from_slice(line.as_bytes())
    }

    fn idle(&mut self, r: u32, cause: &str) -> Result<(), AllocError> {
        let line = format!(in self.alloc; "idle {r} {cause}\n")?;
        self.print(line)
    }

    fn live(&self, r: u32) -> Option<&Live> {
        match self.seats.get(r as usize) {
            Some(Seat::Live(live)) => Some(live),
            _ => None,
        }
    }

    fn live_mut(&mut self, r: u32) -> Option<&mut Live> {
        match self.seats.get_mut(r as usize) {
            Some(Seat::Live(live)) => Some(live),
            _ => None,
        }
    }

    /// Why a replica has no turn, if it has none.
    fn cause(&self, r: u32) -> Option<&'static str> {
        let Some(live) = self.live(r) else {
            return Some("not-live");
        };
        if live.place as usize == self.requests.len() {
            return Some("at-end");
        }
        if live.place.saturating_add(self.limits.interval) < self.ballots.stable {
            return Some("behind");
        }
        None
    }

    /// The request at the next place of a replica.
    fn own_request(&self, r: u32) -> Result<Option<Request>, AllocError> {
        let Some(live) = self.live(r) else {
            return Ok(None);
        };
        match self.requests.get(live.place as usize) {
            Some(request) => Ok(Some(request.clone()?)),
            None => Ok(None),
        }
    }

    /// What a replica casts in a turn that it has.
    fn cast_of(&mut self, r: u32, turn: Turn) -> Result<Option<Cast>, AllocError> {
        let (alloc, limits) = (self.alloc, self.limits);
        let request = match turn {
            Turn::Own => self.own_request(r)?,
            Turn::Other(request) => Some(request),
            Turn::Skipped => None,
        };
        let Some(live) = self.live_mut(r) else {
            return Ok(None);
        };
        match request {
            Some(request) => Ok(Some(live.run(alloc, &limits, &request)?)),
            None => Ok(Some(live.skip(alloc, &limits)?)),
        }
    }

    /// Each replica forgets checkpoints below the stable place.
    fn settle(&mut self) {
        let stable = self.ballots.stable;
        for seat in &mut self.seats {
            if let Seat::Live(live) = seat {
                live.stable_at(stable);
            }
        }
    }

    /// A replica has a turn.
    fn take_turn(&mut self, r: u32, turn: Turn) -> Result<(), AllocError> {
        let (alloc, limits) = (self.alloc, self.limits);
        let Some(Cast { place, word, root }) = self.cast_of(r, turn)? else {
            return Ok(());
        };
        if let Some(word) = word {
            if let Some(line) = self.ballots.say(alloc, &limits, r, place, word)? {
                self.print(line)?;
            }
        }
        if let Some(root) = root {
            if let Some(line) = self.ballots.say_root(alloc, &limits, r, place, root)? {
                self.print(line)?;
                self.settle();
            }
        }
        Ok(())
    }

    /// A replica has a turn, or a line says why it has none.
    fn turn_or_idle(&mut self, r: u32, turn: Turn) -> Result<(), AllocError> {
        match self.cause(r) {
            Some(cause) => self.idle(r, cause),
            None => self.take_turn(r, turn),
        }
    }

    /// How many replicas there are.
    fn count(&self) -> u32 {
        u32::try_from(self.seats.len()).unwrap_or(u32::MAX)
    }

    /// Each replica that has a turn takes it. Whether one did.
    fn round(&mut self) -> Result<bool, AllocError> {
        let mut has_run = false;
        for r in 0..self.count() {
            if self.cause(r).is_none() {
                self.take_turn(r, Turn::Own)?;
                has_run = true;
            }
        }
        Ok(has_run)
    }

    /// Rounds, until one in which no replica has a turn. Each replica has at most one turn for each request.
    fn run_all(&mut self) -> Result<(), AllocError> {
        for _ in 0..=self.requests.len() {
            if !self.round()? {
                return Ok(());
            }
        }
        Ok(())
    }

    /// The server of a replica has an empty array.
    fn wipe(&mut self, r: u32) -> Result<(), AllocError> {
        let empty = Array::empty(self.alloc)?;
        match self.live_mut(r) {
            Some(live) => {
                live.array = empty;
                Ok(())
            }
            None => self.idle(r, "not-live"),
        }
    }

    /// Bytes of a file are others, and nobody was told.
    fn scratch(&mut self, r: u32, index: u32, offset: u32, bytes: &[u8]) -> Result<(), AllocError> {
        let Some(live) = self.live_mut(r) else {
            return self.idle(r, "not-live");
        };
        if let Some(node) = live.array.node_mut(index) {
            if let Content::File(old) = &mut node.content {
                let end = (offset as usize).saturating_add(bytes.len());
                if !bytes.is_empty() && end <= old.len() {
                    crate::service::overwrite(old, offset, bytes);
                    return Ok(());
                }
            }
        }
        self.idle(r, "no-bytes")
    }

    /// The place of each replica, at the end.
    fn end(&mut self) -> Result<(), AllocError> {
        for r in 0..self.count() {
            let line = match self.live(r) {
                Some(Live { place, .. }) => format!(in self.alloc; "at {r} {place}\n")?,
                None => format!(in self.alloc; "at {r} rebuilding\n")?,
            };
            self.print(line)?;
        }
        Ok(())
    }

    /// A replica that is live tells a lie later on.
    fn lie(&mut self, r: u32, record: &Record) -> Result<(), AllocError> {
        let Some(live) = self.live_mut(r) else {
            return self.idle(r, "not-live");
        };
        match record {
            Record::LieReply(_, place, word) => live.lie_reply(*place, word.clone()?),
            Record::LieRoot(_, place, root) => live.lie_root(*place, *root),
            Record::LieItem {
                level,
                number,
                item,
                ..
            } => live.lie_item(*level, *number, item.clone()?),
            _ => Ok(()),
        }
    }

    /// A record comes.
    pub fn step(&mut self, record: &Record) -> Result<(), AllocError> {
        match record {
            Record::Request(request) => {
                self.requests.push(request.clone()?)?;
                Ok(())
            }
            Record::Run(r) => self.turn_or_idle(*r, Turn::Own),
            Record::RunAll => self.run_all(),
            Record::Reboot(r) => self.reboot(*r),
            Record::Fetch(r, n) => self.fetch(*r, *n),
            Record::Rogue(r, request) => self.turn_or_idle(*r, Turn::Other(request.clone()?)),
            Record::Skip(r) => self.turn_or_idle(*r, Turn::Skipped),
            Record::Scratch {
                r,
                index,
                offset,
                bytes,
            } => self.scratch(*r, *index, *offset, bytes.as_slice()),
            Record::LieReply(r, _, _) | Record::LieRoot(r, _, _) | Record::LieItem { r, .. } => {
                self.lie(*r, record)
            }
            Record::Wipe(r) | Record::Swap(r, _) => self.wipe(*r),
            Record::End => self.end(),
        }
    }
}
