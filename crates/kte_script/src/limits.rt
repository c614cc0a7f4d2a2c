//! How large numbers may be.
ghost use Rattle.std.specs.Prelude.{◌≡◌};
ghost use Rattle.kte_script.specs.Fields.{ALine, AColumn, Short, Long, most, most_digits};

use crate::{MAX_DIGITS, MAX_JOURNAL_DIGITS, MAX_NUMBER};
use kte_place::MAX_REACH;

/// The limits of the numbers in a text.
#[derive(Clone, Copy, Debug, PartialEq, Eq)]
pub enum Limits {
    /// Those of a script: lines and columns of at most [`MAX_REACH`], other numbers of at most
    /// [`MAX_NUMBER`], and at most [`MAX_DIGITS`] digits.
    Script,
    /// Those of a journal: the ends of the types of the values, and at most
    /// [`MAX_JOURNAL_DIGITS`] digits.
    Journal,
}

impl Limits {
    /// Returns the greatest line.
    pub(crate) fn line(self) -> u32
        ensures { result ≡ most self ALine }
    {
        match self {
            Limits::Script => MAX_REACH as u32,
            Limits::Journal => u32::MAX,
        }
    }

    /// Returns the greatest column.
    pub(crate) fn column(self) -> u64
        ensures { result ≡ most self AColumn }
    {
        match self {
            Limits::Script => MAX_REACH,
            Limits::Journal => u64::MAX,
        }
    }

    /// Returns the greatest number of 32 bits that counts no lines.
    pub(crate) fn short(self) -> u32
        ensures { result ≡ most self Short }
    {
        match self {
            Limits::Script => MAX_NUMBER,
            Limits::Journal => u32::MAX,
        }
    }

    /// Returns the greatest number of 64 bits that counts no columns.
    pub(crate) fn long(self) -> u64
        ensures { result ≡ most self Long }
    {
        match self {
            Limits::Script => u64::from(MAX_NUMBER),
            Limits::Journal => u64::MAX,
        }
    }

    /// Returns the most digits of a number.
    pub(crate) fn digits(self) -> usize
        ensures { result ≡ most_digits self }
    {
        match self {
            Limits::Script => MAX_DIGITS,
            Limits::Journal => MAX_JOURNAL_DIGITS,
        }
    }
}
