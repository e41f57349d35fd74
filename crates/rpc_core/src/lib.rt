//! Calls and replies of ONC RPC version 2 (RFC 5531): the header of a call, and what answers it.
#![tactic(auto)]

mod call;
mod cred;
mod head;
pub mod laws;
mod program;
mod reply;
mod request;
#[cfg(test)]
mod tests;

pub use call::read_call;
pub use head::{CallHead, Refusal};
pub use program::{MOUNT, NFS};
pub use reply::{begin_success, write_refusal};
pub use request::write_call;
