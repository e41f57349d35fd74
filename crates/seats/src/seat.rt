//! What a position of a service has.

ghost use Rattle.std.specs.Prelude.{◌≡◌, IfOk};
ghost use Rattle.seats.specs.Seats.{live_in, left_in, rebuilding_in, cleared_in, aimed_in, next_of};
ghost use Rattle.seats.specs.Given.{Answered};

use nfs2_types::{Digest, NoMemory};
use recovery::Rebuild;
use replica::Replica;
use state_transfer::{Item, Taken};
use std::mem::replace;

/// A live replica, or one that is being rebuilt, or none since its server failed.
#[derive(Drop)]
pub enum Seat {
    Live(Replica),
    Rebuilding(Rebuild),
    Down,
}

impl Seat {
    /// Takes the replica out where it is live, and leaves the seat down. Any other seat stays as it is.
    pub fn take_live(&mut self) -> Option<Replica>
        ensures live { result ≡ live_in self.old }
        ensures left { self.new ≡ left_in self.old }
    {
        match replace(self, Seat::Down) {
            Seat::Live(replica) => Some(replica),
            other => {
                *self = other;
                None
            }
        }
    }

    /// Takes out what is being rebuilt, where that is so, and leaves the seat down. Any other seat stays as it is.
    pub fn take_rebuilding(&mut self) -> Option<Rebuild>
        ensures rebuilding { result ≡ rebuilding_in self.old }
        ensures left { self.new ≡ cleared_in self.old }
    {
        match replace(self, Seat::Down) {
            Seat::Rebuilding(rebuild) => Some(rebuild),
            other => {
                *self = other;
                None
            }
        }
    }

    /// Sets a place with its root as the target of what is being rebuilt. It takes no memory.
    pub fn aim(&mut self, place: u32, root: Digest)
        ensures { self.new ≡ aimed_in place root self.old }
    {
        if let Seat::Rebuilding(rebuild) = self {
            rebuild.aim(place, root);
        }
    }

    /// The item that is to be got next by what is being rebuilt, if anything is missing. It takes no memory.
    pub fn next_item(&self) -> Option<Item>
        ensures { result ≡ next_of self.now }
    {
        match self {
            Seat::Rebuilding(rebuild) => rebuild.next_item(),
            _ => None,
        }
    }

    /// Offers the bytes for the item that is to be got next. Whether they were taken: exactly where they are the text
    /// of that item.
    pub fn give(&mut self, bytes: &[u8]) -> Result<bool, NoMemory>
        ensures answered { IfOk result (Answered bytes.now self.old self.new) }
        ensures live { live_in self.new ≡ live_in self.old }
    {
        let Seat::Rebuilding(rebuild) = self else {
            return Ok(false);
        };
        if rebuild.next_item().is_none() {
            return Ok(false);
        }
        match rebuild.accept(bytes)? {
            Taken::Good => Ok(true),
            Taken::Wrong => Ok(false),
        }
    }
}
