ghost use Rattle.std.specs.Prelude.{◌≡◌};
ghost use Rattle.kte_script.specs.declared.fault.ScriptFault.TheVariants as script;
ghost use Rattle.kte_script.specs.declared.fault.ReadError.TheVariants as read;

use kte_text::LineFault;
use std::alloc::{AllocError, AllocFailed};
use thiserror::Error;

/// Why a script could not be read. The first fault is named.
#[derive(Clone, Copy, Debug, PartialEq, Eq, Drop, Error)]
pub enum ScriptFault {
    /// A word of this line does not fit or is missing, or the line is not UTF-8.
    #[error("line {line} column {column}")]
    Bad {
        /// The line, from 1.
        line: u64,
        /// Where it is at fault, in bytes from 1: at the first byte of the word; one past the
        /// line's last byte if a word is missing; after the longest prefix that is UTF-8.
        column: u64,
    },
    /// This line, from 1, has the first command past [`MAX_COMMANDS`](crate::MAX_COMMANDS).
    #[error("line {line} is one command too many")]
    TooMany {
        line: u64,
    },
    /// The script has more than [`MAX_SCRIPT_LENGTH`](crate::MAX_SCRIPT_LENGTH) bytes.
    #[error("script too long")]
    TooLong,
    /// Out of memory.
    #[error("out of memory")]
    NoMemory,
}

impl<T: Drop> From<AllocFailed<T>> for ScriptFault {
    ghost from_gives = { λ _ fault. fault ≡ script.NoMemory };

    fn from(_error: AllocFailed<T>) -> ScriptFault {
        ScriptFault::NoMemory
    }
}

/// Why the words of a text could not be read.
#[derive(Clone, Copy, Debug, PartialEq, Eq, Drop, Error)]
pub enum ReadError {
    /// A word does not fit or is missing.
    #[error("{left} bytes from the end")]
    Misfit {
        /// The number of bytes from the word's first byte to the end of the text.
        left: usize,
    },
    /// Out of memory.
    #[error("out of memory")]
    NoMemory,
}

impl From<AllocError> for ReadError {
    ghost from_gives = { λ _ error. error ≡ read.NoMemory };

    fn from(_error: AllocError) -> ReadError {
        ReadError::NoMemory
    }
}

impl<T: Drop> From<AllocFailed<T>> for ReadError {
    ghost from_gives = { λ _ error. error ≡ read.NoMemory };

    fn from(_error: AllocFailed<T>) -> ReadError {
        ReadError::NoMemory
    }
}
