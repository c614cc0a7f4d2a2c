//! A table of the ranges of a text, by number. A range consists of its behaviour and kind, of where
//! it was made or last set, and of the numbers of the two cursors at its ends, which are kept
//! elsewhere ([`kte_place::Cursors`]). A range without cursors is invalid.
//!
//! Numbers start at 1, increase, and are not reused. After cursors have moved,
//! [`RangeTable::settle`] restores start ≤ end in every range or invalidates it, by the rules of
//! KTextEditor's MovingRange. [`RangeTable::settle_near`] has the same result and looks only at the
//! ranges that start on the lines that were last touched.
//!
//! - `info`: a range, and how it settles
//! - `rows`: the ranges in the order of their numbers
//! - `starts`: an index from cursors to the ranges that start with them
//! - `table`: the table
//! - `laws`: laws of tables and of settling
//! - `examples`: worked examples of the definitions
#![tactic(auto)]

pub use info::{Origin, RangeInfo, RangeKind};
pub use table::{NoRange, RangeTable};

pub mod examples;
mod info;
pub mod laws;
mod rows;
mod starts;
mod table;
#[cfg(test)]
mod tests;
