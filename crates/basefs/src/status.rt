//! How the program ends.

ghost use Rattle.std.specs.Prelude.{◌≡◌, Some};
ghost use Rattle.basefs.specs.StatusText.{exit_number, status_text};
ghost use Rattle.basefs.specs.declared.status.Status.TheVariants as statuses;

use nfs2_types::NoMemory;
use std::alloc::AllocFailed;
use std::fmt;

/// How a run ended. Each has an exit number and a text.
#[derive(Clone, Copy, Debug, PartialEq, Eq)]
pub enum Status {
    /// The run is whole.
    Done,
    /// The words are no command.
    Usage,
    /// The header or record that begins at this byte is the first that is not in the grammar of a log.
    BadLog { at: u64 },
    /// The source failed.
    ReadFault,
    /// The sink failed.
    WriteFault,
    /// The link failed.
    LinkFault,
    /// Memory was wanting.
    NoMemory,
    /// The bench has fewer servers than the log has replicas.
    TooFewServers { have: u32, need: u32 },
    /// The first server of the bench that can't hold every array of the log's limits.
    ServerTooSmall { server: u32 },
    /// The header or record that begins at this byte is in the grammar and not built yet.
    NotBuilt { at: u64 },
}

impl From<NoMemory> for Status {
    ghost from_gives = { λ _ s. s ≡ statuses.NoMemory };

    fn from(_e: NoMemory) -> Status {
        Status::NoMemory
    }
}

impl<T: Drop> From<AllocFailed<T>> for Status {
    ghost from_gives = { λ _ s. s ≡ statuses.NoMemory };

    fn from(_e: AllocFailed<T>) -> Status {
        Status::NoMemory
    }
}

impl Status {
    /// The number that the process ends with.
    pub fn exit(&self) -> u8
        ensures { result ≡ exit_number self.now }
    {
        match self {
            Status::Done => 0,
            Status::Usage => 1,
            Status::BadLog { .. } => 2,
            Status::ReadFault => 3,
            Status::WriteFault => 4,
            Status::LinkFault => 5,
            Status::NoMemory => 6,
            Status::TooFewServers { .. } => 7,
            Status::ServerTooSmall { .. } => 8,
            Status::NotBuilt { .. } => 9,
        }
    }
}

impl fmt::Display for Status {
    ghost output = { λ s. Some (status_text s) };

    fn fmt<W: fmt::Write>(&self, f: &mut fmt::Formatter<W>) -> fmt::Result {
        match self {
            Status::Done => Ok(()),
            Status::Usage => write!(f, "usage: basefs replay"),
            Status::BadLog { at } => write!(f, "bad log at {at}"),
            Status::ReadFault => write!(f, "read fault"),
            Status::WriteFault => write!(f, "write fault"),
            Status::LinkFault => write!(f, "link fault"),
            Status::NoMemory => write!(f, "no memory"),
            Status::TooFewServers { have, need } => {
                write!(f, "too few servers: have {have}, need {need}")
            }
            Status::ServerTooSmall { server } => write!(f, "server {server} too small"),
            Status::NotBuilt { at } => write!(f, "not built at {at}"),
        }
    }
}
