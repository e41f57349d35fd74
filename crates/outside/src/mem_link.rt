//! A link over memory.

ghost use Rattle.std.specs.Prelude.{◌≡◌, ◌≤◌, List, [], Some, All, IfOk, IfSome, IsErrOf};
ghost use Rattle.outside.specs.Causes.{LinkHasCause};
ghost use Rattle.outside.specs.Datagrams.{FitsALink, Receives};
ghost use Rattle.outside.specs.Told.{TellsAlike};
ghost use Rattle.outside.specs.declared.datagram.Datagram.{Datagram};

use crate::datagram::{Datagram, Peer};
use crate::link::{Link, LinkErr};
use crate::schedule::Schedule;
use crate::source::Failed;
use nfs2_types::Blob;
use std::alloc::Global;
use std::collections::VecDeque;

/// A link over memory, which fails at the calls that are listed, and chooses port 1.
#[derive(Debug, Drop)]
pub struct MemLink {
    inbox: VecDeque<Datagram>,
    sent: Vec<Datagram>,
    schedule: Schedule,
    ghost sizes: { All FitsALink inbox.items },
}

impl MemLink {
    /// `fails` lists the numbers, from 1, of the calls that fail. It takes no memory.
    pub fn new(alloc: Global, inbox: Vec<Datagram>, fails: Vec<u64>) -> MemLink
        requires { All FitsALink inbox.items }
        ensures inbox { ⟦<MemLink as Link>⟧.inbox result ≡ Some inbox.items }
        ensures sent { ⟦<MemLink as Link>⟧.sent result ≡ Some [] }
        ensures faults { ⟦<MemLink as Link>⟧.faults result ≡ 0 }
    {
        MemLink {
            inbox: VecDeque::from_vec(inbox),
            sent: Vec::new(alloc),
            schedule: Schedule::new(fails),
        }
    }

    /// What was sent, each datagram with the peer that it went to.
    pub fn sent(&self) -> &[Datagram]
        ensures { ⟦<MemLink as Link>⟧.sent self.now ≡ Some result.now }
    {
        self.sent.as_slice()
    }
}

impl Link for MemLink {
    ghost inbox = { λ s. Some s.inbox.items };

    ghost sent = { λ s. Some s.sent.items };

    ghost faults = { λ s. s.schedule.faults };

    fn bind(&mut self, port: u16) -> Result<u16, Failed> {
        if self.schedule.fails_now() {
            return Err(Failed);
        }
        if port == 0 { Ok(1) } else { Ok(port) }
    }

    fn recv(&mut self) -> Result<Option<Datagram>, LinkErr>
        ensures size { IfOk result (λ got. IfSome got FitsALink) }
        ensures inbox { Receives (Some self.old.inbox.items) (Some self.new.inbox.items) result }
        ensures tells { TellsAlike (Some self.old.inbox.items) (Some self.new.inbox.items) }
        ensures sent { self.new.sent ≡ self.old.sent }
        ensures cause { LinkHasCause self.old.schedule.faults self.new.schedule.faults result }
        ensures memory { ¬ (IsErrOf result LinkErr.NoMemory) }
    {
        if self.schedule.fails_now() {
            return Err(LinkErr::Failed);
        }
        Ok(self.inbox.pop_front())
    }

    fn send(&mut self, to: Peer, piece: &[u8]) -> Result<(), LinkErr> {
        if self.schedule.fails_now() {
            return Err(LinkErr::Failed);
        }
        let bytes = Blob::from_slice(*self.sent.allocator(), piece)?;
        self.sent.push(Datagram { from: to, bytes })?;
        Ok(())
    }
}
