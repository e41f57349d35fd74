//! A link: datagrams that come in and go out.

ghost use Rattle.std.specs.Prelude.{◌≡◌, ◌<◌, ◌≤◌, ℕ, List, Option, IfOk, IfSome, length};
ghost use Rattle.outside.specs.Causes.{HasCause, LinkHasCause};
ghost use Rattle.outside.specs.Datagrams.{FitsALink, Receives, Sends};
ghost use Rattle.outside.specs.Told.{TellsAlike};
ghost use Rattle.outside.specs.declared.datagram.Datagram.{Datagram};

use crate::datagram::{DATAGRAM_MAX, Datagram, Peer};
use crate::source::Failed;
use nfs2_types::NoMemory;
use std::alloc::AllocFailed;

/// Why a link carried nothing.
#[derive(Clone, Copy, Debug, PartialEq, Eq)]
pub enum LinkErr {
    Failed,
    NoMemory,
}

impl From<NoMemory> for LinkErr {
    ghost use Rattle.outside.specs.declared.link.LinkErr.TheVariants as errors;

    ghost from_gives = { λ _ e. e ≡ errors.NoMemory };

    fn from(_e: NoMemory) -> LinkErr {
        LinkErr::NoMemory
    }
}

impl<T: Drop> From<AllocFailed<T>> for LinkErr {
    ghost use Rattle.outside.specs.declared.link.LinkErr.TheVariants as errors;

    ghost from_gives = { λ _ e. e ≡ errors.NoMemory };

    fn from(_e: AllocFailed<T>) -> LinkErr {
        LinkErr::NoMemory
    }
}

/// Where datagrams come from and go to.
pub trait Link {
    /// The datagrams that wait, where the link tells them.
    ghost inbox: { Self → Option (List Datagram) };

    /// What was sent, each datagram with the peer that it went to, where the link tells them.
    ghost sent: { Self → Option (List Datagram) };

    /// How often the link failed.
    ghost faults: { Self → ℕ };

    /// Listens at the port, or for port 0 at one that the link chooses, and answers it.
    fn bind(&mut self, port: u16) -> Result<u16, Failed>
        ensures asked { IfOk result (λ bound. 0 < port → bound ≡ port) }
        ensures some { IfOk result (λ bound. 0 < bound) }
        ensures inbox { inbox self.new ≡ inbox self.old }
        ensures sent { sent self.new ≡ sent self.old }
        ensures cause { HasCause (faults self.old) (faults self.new) result };

    /// Hands out the next datagram, or none where the turn is quiet.
    fn recv(&mut self) -> Result<Option<Datagram>, LinkErr>
        ensures size { IfOk result (λ got. IfSome got FitsALink) }
        ensures inbox { Receives (inbox self.old) (inbox self.new) result }
        ensures tells { TellsAlike (inbox self.old) (inbox self.new) }
        ensures sent { sent self.new ≡ sent self.old }
        ensures cause { LinkHasCause (faults self.old) (faults self.new) result };

    /// Sends the piece to the peer, as one datagram.
    fn send(&mut self, to: Peer, piece: &[u8]) -> Result<(), LinkErr>
        requires { length piece.now ≤ DATAGRAM_MAX }
        ensures sent { Sends (sent self.old) (sent self.new) to piece.now result }
        ensures tells { TellsAlike (sent self.old) (sent self.new) }
        ensures inbox { inbox self.new ≡ inbox self.old }
        ensures cause { LinkHasCause (faults self.old) (faults self.new) result };
}
