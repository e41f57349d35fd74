//! Records drawn at random.

use crate::dice::Dice;
use crate::holdings::Word;
use crate::items::Item;
use crate::objects::{Array, COUNT, Oid, null_entry};
use crate::records::Record;
use crate::requests::{Call, Request};
use std::alloc::{AllocError, Global};

/// Whether records are drawn that the program has no step for yet.
const IS_SCRATCH_DRAWN: bool = false;

const IS_SWAP_DRAWN: bool = false;

/// The requests of each log that make objects in the root.
const FIRST: u32 = 4;

/// The letters of names, of which the first two are refused.
const LETTERS: [u8; 8] = [b'.', b'/', b'a', b'b', b'c', b'd', b'e', b'a'];

/// Which replicas a log has: of them the first are harmed and given up. Where it is slow, the first run alone.
#[derive(Clone, Copy, Debug)]
pub struct Crew {
    pub replicas: u32,
    pub victims: u32,
    pub spares: u32,
    pub runners: u32,
}

/// Draws the records of one log.
#[derive(Drop)]
pub struct Draws {
    alloc: Global,
    dice: Dice,
    crew: Crew,
    requests: u32,
    runner: u32,
    given_up: u32,
    is_given_up: bool,
}

impl Draws {
    pub fn new(alloc: Global, dice: Dice, crew: Crew) -> Draws {
        Draws {
            alloc,
            dice,
            crew,
            requests: 0,
            runner: 0,
            given_up: 0,
            is_given_up: false,
        }
    }

    fn victim(&mut self) -> u32 {
        self.dice.below(self.crew.victims)
    }

    fn letter(&mut self) -> u8 {
        let n = if self.dice.one_in(8) {
            self.dice.below(2)
        } else {
            self.dice.below(6).saturating_add(2)
        };
        LETTERS.get(n as usize).copied().unwrap_or(b'a')
    }

    /// A handle, which may lead nowhere.
    fn node(&mut self) -> Oid {
        let index = self.dice.below(6);
        let generation = if self.dice.one_in(9) { 2 } else { 1 };
        Oid { index, generation }
    }

    /// A handle that is mostly that of the root.
    fn dir(&mut self) -> Oid {
        if self.dice.one_in(3) {
            return self.node();
        }
        Oid {
            index: 0,
            generation: 1,
        }
    }

    /// A few bytes that are alike.
    fn bytes(&mut self) -> Result<Vec<u8>, AllocError> {
        let byte = u8::try_from(self.dice.below(256)).unwrap_or(0);
        let count = self.dice.below(30);
        let mut bytes = Vec::new(self.alloc);
        bytes.resize(count as usize, byte)?;
        Ok(bytes)
    }

    /// A size, which is seldom a large one.
    fn size(&mut self) -> Option<u32> {
        match self.dice.below(4) {
            0 => Some(self.dice.below(700)),
            1 if self.dice.one_in(8) => Some(1_048_577),
            _ => None,
        }
    }

    /// A call that changes one object or none.
    fn call_on_object(&mut self) -> Result<Call, AllocError> {
        let node = self.node();
        let call = match self.dice.below(10) {
            0 => Call::GetAttr(node),
            1 => Call::ReadLink(node),
            2 => Call::StatFs(node),
            3 => Call::SetAttr {
                node,
                mode: Some(self.dice.below(4096)),
                size: self.size(),
            },
            4 | 5 => Call::Read {
                file: node,
                offset: self.dice.below(40),
                count: self.dice.below(40),
            },
            6 => Call::ReadDir {
                dir: self.dir(),
                cookie: self.dice.below(4),
                count: self.dice.below(100),
            },
            _ => Call::Write {
                file: node,
                offset: self.dice.below(600),
                bytes: self.bytes()?,
            },
        };
        Ok(call)
    }

    /// A call that makes something, or reads a directory.
    fn call_that_makes(&mut self) -> Result<Call, AllocError> {
        let (dir, letter) = (self.dir(), self.letter());
        let call = match self.dice.below(8) {
            0..=2 => Call::Create {
                dir,
                letter,
                size: self.size(),
            },
            3 | 4 => Call::MkDir(dir, letter),
            5 => Call::Symlink {
                dir,
                letter,
                text: self.bytes()?,
            },
            6 => Call::Link {
                node: self.node(),
                dir,
                letter,
            },
            _ => Call::ReadDir {
                dir,
                cookie: self.dice.below(3),
                count: 4096,
            },
        };
        Ok(call)
    }

    /// A call on names that are there.
    fn call_on_names(&mut self) -> Call {
        let (dir, letter) = (self.dir(), self.letter());
        match self.dice.below(5) {
            0 => Call::Remove(dir, letter),
            1 => Call::RmDir(dir, letter),
            2 => Call::Lookup(dir, letter),
            _ => Call::Rename {
                from: dir,
                letter,
                to: self.dir(),
                to_letter: self.letter(),
            },
        }
    }

    /// A call of any kind.
    fn call(&mut self) -> Result<Call, AllocError> {
        match self.dice.below(20) {
            0 => Ok(Call::Null),
            1 if self.dice.one_in(2) => Ok(Call::Cut),
            1..=8 => self.call_that_makes(),
            9..=13 => Ok(self.call_on_names()),
            _ => self.call_on_object(),
        }
    }

    /// A call that makes something in the root.
    fn first_call(&mut self) -> Result<Call, AllocError> {
        let dir = Oid {
            index: 0,
            generation: 1,
        };
        let letter = LETTERS.get(self.requests.saturating_add(1) as usize);
        let letter = letter.copied().unwrap_or(b'a');
        match self.dice.below(4) {
            0 => Ok(Call::MkDir(dir, letter)),
            1 => Ok(Call::Symlink {
                dir,
                letter,
                text: self.bytes()?,
            }),
            _ => Ok(Call::Create {
                dir,
                letter,
                size: Some(self.dice.below(100)),
            }),
        }
    }

    /// The next request of the log. Its xid and its second are its place.
    fn request(&mut self) -> Result<Record, AllocError> {
        self.requests = self.requests.saturating_add(1);
        let call = if self.requests <= FIRST {
            self.first_call()?
        } else {
            self.call()?
        };
        Ok(Record::Request(Request {
            xid: self.requests,
            time: self.requests,
            call,
        }))
    }

    /// A place about which is lied.
    fn place(&mut self) -> u32 {
        self.dice.below(self.requests.saturating_add(3))
    }

    /// A word that is told in place of a reply: one of two, so that lies meet.
    fn word(&mut self) -> Result<Word, AllocError> {
        if self.dice.one_in(2) {
            return Ok(None);
        }
        Ok(Some(Vec::from_slice(self.alloc, &[0, 0, 0, 1])?))
    }

    /// An item that is told in place of a true one, which it may be.
    fn item(&mut self, number: u32) -> Result<Item, AllocError> {
        match self.dice.below(4) {
            0 => {
                let empty = Array::empty(self.alloc)?;
                Ok(Item::Node(empty.digests(self.alloc)?))
            }
            1 => Ok(Item::Entry(number, null_entry(self.dice.below(2)))),
            2 => Ok(Item::Entry(self.dice.below(COUNT), null_entry(0))),
            _ => Ok(Item::Other(self.bytes()?)),
        }
    }

    /// A record that lies.
    fn lie(&mut self) -> Result<Record, AllocError> {
        let r = self.victim();
        match self.dice.below(4) {
            0 => Ok(Record::LieReply(r, self.place(), self.word()?)),
            1 => Ok(Record::LieRoot(r, self.place(), [7; 32])),
            _ => {
                let level = if self.dice.one_in(3) { 1 } else { 0 };
                let number = if level == 1 { 0 } else { self.dice.below(5) };
                let item = self.item(number)?;
                Ok(Record::LieItem {
                    r,
                    level,
                    number,
                    item,
                })
            }
        }
    }

    /// A request that stands in place of another.
    fn rogue(&mut self) -> Result<Record, AllocError> {
        let xid = self.place();
        Ok(Record::Rogue(
            self.victim(),
            Request {
                xid,
                time: xid,
                call: self.call()?,
            },
        ))
    }

    fn scratch(&mut self) -> Result<Record, AllocError> {
        Ok(Record::Scratch {
            r: self.victim(),
            index: self.dice.below(6),
            offset: self.dice.below(30),
            bytes: self.bytes()?,
        })
    }

    fn swap(&mut self) -> Record {
        let spare = self.dice.below(self.crew.spares);
        let replicas = self.crew.replicas;
        Record::Swap(self.victim(), replicas.saturating_add(spare))
    }

    /// A record that harms a replica.
    fn harm(&mut self) -> Result<Record, AllocError> {
        match self.dice.below(12) {
            0..=5 => self.lie(),
            6 | 7 => self.rogue(),
            8 => Ok(Record::Skip(self.victim())),
            10 if IS_SCRATCH_DRAWN => self.scratch(),
            11 if IS_SWAP_DRAWN => Ok(self.swap()),
            _ => {
                self.given_up = self.victim();
                Ok(Record::Wipe(self.given_up))
            }
        }
    }

    /// A record that gives a replica up, or goes on to rebuild the one that was given up last.
    fn repair(&mut self) -> Record {
        if self.dice.one_in(if self.is_given_up { 5 } else { 2 }) {
            if self.dice.one_in(2) {
                self.given_up = self.victim();
            }
            self.is_given_up = true;
            return Record::Reboot(self.given_up);
        }
        if self.dice.one_in(6) {
            return Record::Fetch(self.victim(), 1);
        }
        if self.dice.one_in(2) {
            return Record::Fetch(self.given_up, self.dice.below(3).saturating_add(1));
        }
        self.is_given_up = false;
        Record::Fetch(self.given_up, u32::MAX)
    }

    /// Whether not all replicas run at once.
    fn is_slow(&self) -> bool {
        self.crew.runners < self.crew.replicas
    }

    /// All replicas run, or, in a slow log, the next of those that run alone.
    fn run(&mut self) -> Record {
        if !self.is_slow() {
            return Record::RunAll;
        }
        let r = self.runner;
        self.runner = r
            .saturating_add(1)
            .checked_rem(self.crew.runners)
            .unwrap_or(0);
        Record::Run(r)
    }

    /// The next record.
    pub fn next(&mut self) -> Result<Record, AllocError> {
        if self.requests < FIRST {
            return self.request();
        }
        match self.dice.below(20) {
            0..=5 => self.request(),
            6 | 7 => Ok(Record::Run(self.dice.below(self.crew.replicas))),
            8..=12 => Ok(self.run()),
            13..=17 if self.is_slow() => Ok(self.run()),
            13..=15 => self.harm(),
            _ => Ok(self.repair()),
        }
    }
}
