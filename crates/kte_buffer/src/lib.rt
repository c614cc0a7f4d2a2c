//! A text in memory and the cursors that hang in it: the buffer of an editor.
//!
//! Contracts see a [`Buffer`] as its text, its cursors by their numbers, what it is ready for, and
//! which cursors are near, on the lines that were last touched. A primitive is applied in two
//! steps: [`Buffer::reserve`] makes room and may fail, and [`Buffer::apply`] then applies the
//! primitive, carries every cursor by the rule of `kte_place`, and cannot fail. Both are proved to
//! give the text, the entry and the cursors of the definitions. `laws` proves what these mean in
//! the text as one list of units: a cursor stays between the units that it was between, as far as
//! they are still there.
//!
//! - `buffer`: the buffer
//! - `rows`, `row`: the lines of a text as vectors with their own capacity, and one of them
//! - `cursors`: the cursors of a buffer
//! - `laws`: the laws of entries and of places
#![tactic(auto)]

mod buffer;
mod cursors;
pub mod laws;
mod row;
mod rows;
#[cfg(test)]
mod tests;

pub use buffer::{Buffer, Ready};
