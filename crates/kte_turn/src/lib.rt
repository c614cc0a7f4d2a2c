//! A lock whose holders learn the whole history of its value.
//!
//! A [`Turn`] holds a value that keeps its own story, a list of events ([`Storied`]). Threads enter
//! it one after another, in the order of their tickets, each with a [`Pass`] of its own. A pass
//! knows what it has seen of the story, which events of it are its own, and how many turns it has
//! made. While a thread is in, a [`Stay`] stands for its pass; it leaves with one event more, or
//! with none.
//!
//! - [`Turn::enter`] gives the value. Its story begins with all that the pass had seen, and its
//!   events of the pass's own seat are just those that this pass made.
//! - [`Turn::split`] and [`Turn::join`] make two passes of one, and one of two.
//! - [`Turn::close`] gives the value back to the one who holds all passes: its story begins with
//!   what the pass has seen, and has each seat's own events, each once and in order.
//!
//! The lock is three words and a slot of an `atomic_table`: the next ticket, the ticket that is
//! served, and the number of events. `laws` says what is kept of them at each step. No clause says
//! that a waiting thread gets its turn, or which of two threads comes first.
//!
//! - `storied`: values with a story
//! - `turn`: the lock and its calls
//! - `pass`: passes and stays
//! - `steps`: the kinds of steps on the words
//! - `view`, `rule`: what the table keeps of a pass, and what it keeps true
//! - `laws`: the laws
#![tactic(auto)]

pub use pass::{Pass, Stay};
pub use storied::Storied;
pub use turn::{Turn, TurnFail};

pub mod laws;
mod pass;
mod rule;
mod steps;
mod storied;
#[cfg(test)]
mod tests;
mod turn;
mod view;
