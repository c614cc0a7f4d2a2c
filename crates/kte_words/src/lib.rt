//! The words that the program is called with: which of them are a command, and if they are none,
//! the first word that does not fit.
//!
//! [`parse`] reads the words. It is proved to give the command that they spell, and otherwise the
//! length of the longest front of them that begins a command. `laws` proves that there is always
//! one of the two and never both. What the words of each command are is a case of `Spells` in
//! `specs/Words.antt`: a new command is a case there.
//!
//! - `word`: a word
//! - `words`: the commands of the program
//! - `parsing`: reading words as a command
//! - `laws`: what follows from the definitions alone
#![tactic(auto)]

pub mod laws;
mod parsing;
#[cfg(test)]
mod tests;
mod word;
mod words;

pub use parsing::{BadWords, parse};
pub use word::Word;
pub use words::Words;

/// The most digits of a number, zeros in front included.
pub const MAX_DIGITS: usize = 20;

/// The most checkers of `check`.
pub const MAX_WORKERS: u32 = 16;

/// The greatest count of `gen`: the most commands of a script.
pub const MAX_COUNT: u32 = 100_000;
