//! A server on a log, over a medium that counts.

mod chunks;
mod costs;
mod counting;
mod listing;
