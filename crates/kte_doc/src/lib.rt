//! A document: a text that primitives change, the ranges that move with it, and its revision.
//!
//! After every call each range is where the primitives made since loading put it: made or last set
//! in the text at one revision, then carried over every later primitive and settled after each, by
//! the rules of `kte_place`. A span of the text at a locked revision lands where a range would be
//! now that was made of it then ([`Doc::land`], [`Doc::make_at`]). [`Doc::primitive`] makes room in
//! all layers first, and then cannot fail. A call that is refused or runs out of memory changes
//! nothing.
//!
//! - `document`: the document and its calls
//! - `batch`: ranges that are made together
//! - `cursors`: the two cursors of a range
//! - `fault`: the errors
//! - `examples`: worked examples of the definitions
//! - `laws`: what follows from the definitions alone
//!
//! In specs/ `Documents` has what contracts see of a document, and `Trail` where its ranges are.
#![tactic(auto)]

pub use document::Doc;
pub use fault::{DocFault, MakeFault, SetFault};

mod batch;
mod cursors;
mod document;
pub mod examples;
mod fault;
pub mod laws;
#[cfg(test)]
mod tests;
