//! A core that an editor and checkers share, each in a thread of its own.
//!
//! A [`Desk`] keeps a core in a turn: one thread after another is at the core, and makes at most one
//! request there. The editor makes the commands of its script, and each checker takes jobs and
//! delivers what their rules find. Each has a pass, which knows what it has seen of the core's
//! journal, and which of its events are its own.
//!
//! - Each call that takes `rt` makes one turn. What the pass had seen before begins what it has seen
//!   after, which is a legal journal. An event that the call makes is the last of it; where it makes
//!   none, the result is read from the state after it.
//! - [`Desk::take`] gives a job with its rule and the text at one revision, and the job stays with
//!   the checker while others change the text. It gives [`Taking::NoJob`] exactly if none waits.
//! - [`Desk::close`] gives the core back to the one who holds all passes: its journal is legal,
//!   begins with what each pass has seen, and has each seat's own events, each once and in order.
//!
//! No clause says that a thread gets its turn, or that one that rests is woken.
//!
//! [`drain`] is for an editor that works alone, at a core of its own: it does the jobs itself.
//!
//! - `desk`: the desk and its calls
//! - `pass`: the passes of the editor and of the checkers
//! - `recorded`: a core as a value with a story
//! - `beginning`, `work`: what a core began from, and a job that a checker works on
//! - `bell`: where a checker rests
//! - `serving`: jobs that the editor does itself
//!
//! In specs/, `Seen` and `Passes` say what a pass knows, `Works` which job it works on, `Calls` what
//! each call does, and `Serving` what the editor adds that does the jobs itself. `Schedule` says
//! which histories a run of a script may have, with so many checkers or none.
#![tactic(auto)]

mod beginning;
mod bell;
mod desk;
mod pass;
mod recorded;
mod serving;
#[cfg(test)]
mod tests;
mod work;

pub use beginning::Beginning;
pub use desk::{Desk, StartFail};
pub use pass::{CheckerPass, EditorPass, Taking};
pub use recorded::made_fits;
pub use serving::drain;
