//! Searching a text: where a pattern of units matches within its lines.
//!
//! A [`Query`] is a pattern, and how it is compared. [`find`] has the first match from a place on,
//! [`find_back`] the last one before a place, and [`all`] the matches from left to right. Each is
//! proved to give the match of the definitions in `specs/`, and nothing exactly where there is no
//! match. What a match is, `kte_text` defines; `laws` proves that there is one first and one last.
//!
//! - `query`: what is sought, and where it matches in one line
//! - `search`: the search of a text
//! - `laws`: what follows from the definitions alone
#![tactic(auto)]

pub mod laws;
mod query;
mod search;
#[cfg(test)]
mod tests;

pub use query::Query;
pub use search::{MAX_MATCHES, all, find, find_back};
