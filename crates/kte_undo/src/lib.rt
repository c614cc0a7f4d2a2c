//! Transactions, undo and redo: the primitives of each outermost transaction are a group, which is
//! undone and redone as a whole.
//!
//! [`Undo`] keeps the groups. It applies nothing itself: [`Undo::note`] adds a primitive that was
//! applied, [`Undo::back`] and [`Undo::forth`] give the primitives that undo and redo a group, and
//! [`Undo::went_back`] and [`Undo::went_forth`] are called after so many of them were applied. It is
//! proved that these primitives lead back to the text before the group and again to the text after
//! it, although no text is kept.
//!
//! - `groups`: the groups, and the calls
//! - `step`: a primitive that was applied, with what its inverse needs
//! - `group`: the steps of one transaction
//! - `laws`: what follows from the definitions alone
#![tactic(auto)]

mod group;
mod groups;
pub mod laws;
mod step;
#[cfg(test)]
mod tests;

pub use groups::{NotOpen, Undo, UndoFault};
