//! Items of XDR (RFC 4506), read from bytes and written to bytes.
//!
//! A `Reader` goes through borrowed bytes, and a `Writer` appends to its own: `w.word(2)?; w.opaque(b"lisp")?;` is read
//! again by `r.word()?`, `r.opaque(255)?` and `r.end()?`.
#![tactic(auto)]

mod error;
pub mod laws;
mod padding;
mod reader;
#[cfg(test)]
mod tests;
mod writer;

pub use error::{XdrErr, XdrKind};
pub use reader::Reader;
pub use writer::Writer;
