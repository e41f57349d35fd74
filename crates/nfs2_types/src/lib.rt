//! The values of NFS version 2 (RFC 1094) and of its callers that every crate speaks of.
#![tactic(auto)]

mod args;
mod blob;
mod cred;
mod fattr;
mod handle;
pub mod laws;
mod limits;
mod names;
mod results;
mod sizes;
pub mod stat;
mod time;
mod word;

pub use args::{Args, Sattr, SetTime};
pub use blob::{Blob, NoMemory};
pub use cred::{Blob16, Cred};
pub use fattr::{Fattr, Kind};
pub use handle::{Digest, Handle, Oid, handle_of, oid_of};
pub use limits::Limits;
pub use names::{is_bad, is_dot};
pub use results::{ListEntry, Listing, NfsResult};
pub use sizes::{MAX_DATA, MAX_NAME, MAX_PATH};
pub use stat::Stat;
pub use time::Time;
pub use word::Word;
