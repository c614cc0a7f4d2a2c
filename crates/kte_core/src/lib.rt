//! The core of the editor: a session takes one request of a seat after another, replies to each, and
//! keeps them all as its journal.
//!
//! [`Core::step`] has the reply, the primitives and the next state of the reaction in `React`. A
//! core is seen as what it began from and its events; its state is their replay. The editor has
//! seat 0; other seats take the jobs that it posts, look for what a rule finds in the text at one
//! revision, and deliver it while the text changes. The first close of a session, and giving back a
//! job, never run out of memory.
//!
//! - `session`: the core and its calls
//! - `present`: what a core holds of the present state, and which request goes where
//! - `commands`: the commands of the editor
//! - `edits`: the commands that change the text, open and close transactions, undo and redo
//! - `ranges`, `revisions`, `folds`: the commands on ranges, on revisions and on folds
//! - `searches`: the commands that look for something in the text
//! - `jobs`: posting a job, taking it, delivering what its rule finds, and giving it back
//! - `request`, `reply`, `event`: what is asked, what is replied, and what is kept of both
//! - `laws`: what follows from the reaction alone
//!
//! In specs/, `State` has what a session holds, `Editing` what comes of changes, transactions, undo
//! and redo, `Folds` what folds are, `Jobs` what comes of jobs, `React` what comes of each request,
//! `Requests` which ones are allowed, `Replay` the session as a replay of its events, `Groups` why
//! groups can be undone and redone, `Kept` for which events there is always room, and `Shown` what a
//! document shows of the state.
#![tactic(auto)]

mod commands;
mod edits;
mod event;
mod folds;
mod jobs;
pub mod laws;
mod present;
mod ranges;
mod reply;
mod request;
mod revisions;
mod searches;
mod session;
#[cfg(test)]
mod tests;

pub use event::{Event, Journal, Step};
pub use reply::{Refusal, Reply};
pub use request::{OutsideCall, Request};
pub use session::Core;
