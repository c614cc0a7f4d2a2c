//! Folds of a text: ranges that hide the lines after their first, as in Kate.
//!
//! [`Folds`] keeps which ranges are folds, by their numbers; where they are, a holder of spans
//! knows ([`kte_place::Spanned`]). Inside, the numbers are a tree, each fold inside the one that
//! holds it, so that a query passes over what is inside a fold. What is hidden, which line has
//! which number, and what may be folded is defined in `specs/` by the set of the numbers and their
//! spans alone, and each call is proved to give just that.
//!
//! A fold whose range is invalid hides nothing and crosses nothing, and it can be removed. No
//! query, [`Folds::add`] or [`Folds::remove`] allocates.
//!
//! - `folds`: the folds, and the calls
//! - `refused`: why a span may not be folded
//! - `outline`: the tree as two lists, and how a fold comes and goes
//! - `walk`: the queries
//! - `laws`: what follows from the definitions alone
#![tactic(auto)]

mod folds;
pub mod laws;
mod outline;
mod refused;
#[cfg(test)]
mod tests;
mod walk;

pub use folds::Folds;
pub use refused::{FoldRefused, NoFold};
