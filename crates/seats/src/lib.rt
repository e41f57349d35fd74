//! What a position of a service has, and what is done with a replica over its position of the bench.
#![tactic(auto)]

mod giving_up;
mod harming;
mod rebuilds;
mod running;
mod seat;
mod serving;
mod spares;

pub use giving_up::rebuild_at;
pub use harming::{rogue_at, skip_at, wipe_at};
pub use rebuilds::{clear_at, finish_at, reboot_at};
pub use running::{fresh_at, run_at};
pub use seat::Seat;
pub use serving::serve_at;
pub use spares::exchange;
