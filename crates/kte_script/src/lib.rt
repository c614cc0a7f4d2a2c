//! The script: from bytes to commands and back.
//!
//! A script has a command on each line: a word and its fields, with spaces between them. Blank
//! lines and lines that begin with `#` are skipped. [`read_script`] reads a whole script, or names
//! its first fault by line and column; [`spell`] writes a command in its one canonical spelling, and
//! [`read_spelling`] finds the command whose spelling bytes begin with. All follow one table of
//! commands, `table` in `specs/Table.antt`, and a new command is a row there. `laws` proves that a
//! spelled command reads as itself.
//!
//! The fields serve other texts too: [`words::Words`] takes them from a text, `push` appends their
//! spellings, and a table may make any type.
//!
//! - `fault`: why a line or a script is refused
//! - `limits`: how large numbers may be
//! - `ends`: where lines end
//! - `fields`, `quotation`: what a word is, and strings
//! - `words`: what is left of a text, and the fields that are taken from it
//! - `commands`: the commands that words make
//! - `lines`: the lines of a script
//! - `script`: a script, and reading it
//! - `push`: the canonical spelling of fields
//! - `spelling`: the canonical spelling of commands, and finding it again
//! - `laws`: what follows from the definitions alone
#![tactic(auto)]

mod commands;
mod ends;
mod fault;
mod fields;
pub mod laws;
mod limits;
mod lines;
pub mod push;
mod quotation;
mod script;
mod spelling;
#[cfg(test)]
mod tests;
pub mod words;

pub use fault::{ReadError, ScriptFault};
pub use limits::Limits;
pub use script::{Script, read_script};
pub use spelling::{read_spelling, spell};

/// The longest script, in bytes: 2^26.
pub const MAX_SCRIPT_LENGTH: u64 = 67_108_864;

/// The most commands of a script.
pub const MAX_COMMANDS: usize = 100_000;

/// The greatest number in a script that counts neither lines nor columns: 2^32 - 1.
pub const MAX_NUMBER: u32 = u32::MAX;

/// The most digits of a number in a script.
pub const MAX_DIGITS: usize = 10;

/// The most digits of a number in a journal.
pub const MAX_JOURNAL_DIGITS: usize = 20;
