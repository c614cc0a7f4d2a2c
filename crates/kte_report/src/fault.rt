ghost use Rattle.std.specs.Prelude.{◌≡◌};
ghost use Rattle.kte_report.specs.declared.fault.JournalFault.TheVariants as fault;

use std::alloc::AllocError;
use thiserror::Error;

/// Why a journal could not be read.
#[derive(Clone, Copy, Debug, PartialEq, Eq, Drop, Error)]
pub enum JournalFault {
    /// The bytes are no journal's text.
    #[error("line {line}")]
    Bad {
        /// The line, from 1, of the first byte that no journal's text has after the bytes before
        /// it; or of the place after the last byte, if a journal's text goes on there.
        line: u64,
    },
    /// Out of memory.
    #[error("out of memory")]
    NoMemory,
}

impl From<AllocError> for JournalFault {
    ghost from_gives = { λ _ given. given ≡ fault.NoMemory };

    fn from(_error: AllocError) -> JournalFault {
        JournalFault::NoMemory
    }
}
