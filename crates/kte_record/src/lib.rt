//! The swap file that Kate's editor component KTextEditor keeps beside an edited file: its header
//! and records, and what it recovers to.
//!
//! A swap file is a header with the digest of the saved file, and then transactions: a start, one
//! record for each primitive, and an end.
//!
//! - [`write`] and [`write_header`] append exactly the bytes of a record and of a header.
//! - [`read`] is proved to find a record exactly where its bytes stand in front, and to tell bytes
//!   that are the front of a record from bytes that no record begins with. [`read_header`] does the
//!   same for the header. Neither takes memory.
//! - The definitions say what a saved file and a swap file recover to, over whole lists of
//!   transactions. [`laws`] proves that there is one answer; that what is written for some
//!   transactions recovers to the text after them; and that each front of it, as a crash leaves it,
//!   recovers to the text after those that are whole in it.
//!
//! `record` has the records, `reading` and `writing` go between them and their bytes, and `header`
//! has the header. `laws` has contracts alone.
#![tactic(auto)]

mod header;
pub mod laws;
mod reading;
mod record;
#[cfg(test)]
mod tests;
mod writing;

pub use header::{HEADER_LENGTH, Header, read_header, write_header};
pub use reading::{Reading, read};
pub use record::{MAX_NUMBER, MAX_TEXT_LENGTH, Record};
pub use writing::write;
