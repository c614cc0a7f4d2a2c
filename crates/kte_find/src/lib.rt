//! Rules over a text, and what they find in it.
//!
//! A [`Rule`] has its findings in a text: the places of a word, blanks at the end of a line, the
//! part of a line beyond a limit, brackets that are in no pair, words that stand twice in a row.
//! [`PlainChecker`] is proved to return the first [`MAX_FINDINGS`] of them by place, exactly; what
//! a finding is, is defined without regard to how it is looked for. `laws` proves that a bracket is
//! in at most one pair, and that a text has one list of findings.
//!
//! - `rule`: the rules
//! - `checker`: what carries out a rule
//! - `found`: findings as they are noted, up to the limit
//! - `lines`, `runs`: the findings of a line, and runs of units in it
//! - `brackets`: brackets that are in no pair
//! - `laws`: what follows from the definitions alone
#![tactic(auto)]

mod brackets;
mod checker;
mod found;
pub mod laws;
mod lines;
mod rule;
mod runs;
#[cfg(test)]
mod tests;

pub use checker::{Checker, PlainChecker};
pub use found::MAX_FINDINGS;
pub use rule::Rule;
