//! The program: from the bytes of a script and a saved file to the bytes of the output.
//!
//! [`run`] is proved over any source, sink, disk and checker. Where an edit writes its output, this
//! is the text of one history and the report of the state after it: the history is legal from the
//! loaded file, has the script's commands in order, each check once, and the outcome of each call
//! of the disk. While no call fails, the swap file has each transaction that was finished since the
//! last save. A recovery writes exactly the answer of the definitions for the two files, which it
//! leaves as they are. A generated script is run in memory, and its summary is that of such a
//! history. Every status has its cause, and says that all before it went well.
//!
//! - `program`: `run`, from the words to the status, `edit_alone` and `edit_checked`
//! - `editor`: the editor's part in a run, which tells the next request and makes the calls of the
//!   disk
//! - `alone`: the editor's part and a core on one thread
//! - `beside`: the editor's part at a desk, and `checkers`: a checker's loop there
//! - `crew`: the editor and the checkers beside one another
//! - `recover`: what the saved file and its swap file recover to
//! - `generation`: the run of a generated script in memory
//! - `saved`: the files that are read
//! - `status`: the statuses, their codes and their lines
//! - `laws`: what follows from the definitions alone
//!
//! In specs/, `Editor`, `Calls` and `Alone` say what the editor asks for and which calls of the
//! disk it makes, `Beside` what it and the checkers do at a desk, `Checked` what they know once they
//! are done, `Outcomes` what the events tell of the calls of the disk, `Run` what an edit prints,
//! `Edit` its steps, `Recover` what a recovery prints, and `Statuses` the codes and lines. Which
//! histories a run may have is said by `Schedule` of `kte_desk`. The words are those of `kte_words`,
//! the script that of `kte_script`, the output that of `kte_report`, the swap file that of `kte_swap`
//! and `kte_recover`.
#![tactic(auto)]

mod alone;
mod beside;
mod checkers;
mod crew;
mod editor;
mod generation;
pub mod laws;
mod program;
mod recover;
mod saved;
mod status;
#[cfg(test)]
mod tests;

pub use generation::generate;
pub use program::{edit_alone, edit_checked, run};
pub use recover::recover_file;
pub use status::Status;

/// The most primitives that one run can make: 2^31.
pub const MAX_REVISIONS: u64 = 2_147_483_648;
