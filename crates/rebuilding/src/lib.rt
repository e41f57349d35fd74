//! Builds an array anew: makes a server and its table stand for it, whatever stood there.
#![tactic(auto)]

mod building;
mod filling;
mod making;
mod naming;
mod parents;
mod tally;

pub use building::rebuild;
pub use filling::dress_all;
pub use making::make;
pub use naming::name;
