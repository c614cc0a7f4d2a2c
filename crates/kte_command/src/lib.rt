//! The commands of a script: what an editor may be asked to do.
//!
//! A [`Command`] is an edit of the text, which is a change of `kte_edit`, or it is about transactions,
//! ranges, revisions or folds, searches the text, or posts a job. `InRange` in `specs/` says that its
//! numbers are in their ranges, and that it looks for something: those commands may be carried out.
#![tactic(auto)]

mod command;
#[cfg(test)]
mod tests;

pub use command::Command;
