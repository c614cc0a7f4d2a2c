//! The edits of a text that take more than one primitive: a text of several lines is inserted, and a
//! span over several lines is removed or replaced.
//!
//! [`steps`] checks a [`Change`] as a whole and gives its list of primitives. It is proved that the
//! primitives fit the text one after another, and that the text after them is the text before with
//! one part replaced.
//!
//! - `change`: what is changed, and why a change is refused
//! - `fitting`: whether a change fits a text
//! - `listing`: the primitives of a change
//! - `laws`: what follows from the definitions alone
#![tactic(auto)]

mod change;
mod fitting;
pub mod laws;
mod listing;
#[cfg(test)]
mod tests;

pub use change::{Change, StepsFault};
pub use listing::steps;
