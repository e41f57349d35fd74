//! The bytes of files, chunk by chunk.
#![tactic(auto)]

mod read;
mod resize;
#[cfg(test)]
mod tests;
mod write;

pub use read::read_bytes;
pub use resize::resize_bytes;
pub use write::write_bytes;
