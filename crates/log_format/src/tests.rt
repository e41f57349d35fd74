//! Fronts of records, records and headers as bytes, and the text of every line.

mod lines;
mod records;
