//! The printed texts: the journal, and the report of a session.
//!
//! [`push_journal`] and [`write_journal`] write the text of a journal: the number of its events, and
//! then a line for each of them, with the one spelling of its seat, request and reply.
//! [`read_journal`] reads a journal from exactly this text; any other bytes are refused, with the
//! line of the first byte that no journal has there. Requests, replies and refusals have a row each
//! in the tables of `specs/EventTable.antt`, which spelling and reading both follow: a new reply is
//! a row there. `laws` proves that two journals never have the same text. [`push_report`] and
//! [`write_report`] write the report of a core: its counts, where its ranges are, which lines folds
//! hide, the digest of the file that saving writes, and the text (`specs/Report.antt`).
//! [`push_summary`] writes the summary of a run: the counts alone, and the digest.
//! [`push_recovered`] and [`push_damaged`] write what a swap file recovers to
//! (`specs/Recovery.antt`).
//!
//! - `journal`: the text of a journal
//! - `spelling`: its lines
//! - `reading`: reading a journal; each line is read loosely, spelled again and compared
//! - `words`: what the words of a line make
//! - `fault`: why a journal is refused
//! - `report`: the report of a core, and the summary of a run
//! - `hidden`: the lines that folds hide, in the report
//! - `recovery`: what a saved file and its swap file recover to
//! - `laws`: what follows from the definitions alone
#![tactic(auto)]

mod fault;
mod hidden;
mod journal;
pub mod laws;
mod reading;
mod recovery;
#[cfg(test)]
mod recovery_tests;
mod report;
#[cfg(test)]
mod report_tests;
mod spelling;
#[cfg(test)]
mod tests;
mod words;

pub use fault::JournalFault;
pub use journal::{push_journal, write_journal};
pub use reading::read_journal;
pub use recovery::{push_damaged, push_recovered, push_tail};
pub use report::{push_report, push_summary, write_report};
