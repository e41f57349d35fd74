//! The service from bytes to bytes: a call of RPC in, its reply out.
#![tactic(auto)]

mod call;
mod laws;
mod mount;
mod nfs;
mod reply;

pub use call::answer;
pub use laws::answers_are_spelled;
