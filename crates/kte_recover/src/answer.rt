use kte_text::{Digest, Eol, LoadFault, Text};
use std::alloc::AllocError;
use thiserror::Error;

/// How the records of a swap file end.
#[derive(Clone, Copy, Debug, PartialEq, Eq)]
pub enum Tail {
    /// After the header or after the end of a transaction.
    Clean,
    /// Within the header, a transaction or a record, as a crash leaves it.
    Torn,
}

/// What a swap file recovers to.
#[derive(Debug, Drop)]
pub struct Recovered {
    /// The text of the saved file after the transactions that count.
    pub text: Text,
    /// How the first line of the saved file ends.
    pub eol: Eol,
    /// Whether the saved file begins with a byte order mark.
    pub bom: bool,
    /// How many transactions count: those that have an end.
    pub done: u64,
    /// How the records end.
    pub tail: Tail,
}

/// A swap file with a record at fault: it is no record, or stands where it may not, or does not fit
/// the text that the records before it made.
#[derive(Debug, Drop)]
pub struct Damage {
    /// The offset in the swap file of the first byte of the record at fault.
    pub at: u64,
    /// How many transactions have an end before it.
    pub done: u64,
    /// The text of the saved file after these.
    pub text: Text,
    /// How the first line of the saved file ends.
    pub eol: Eol,
    /// Whether the saved file begins with a byte order mark.
    pub bom: bool,
}

/// Why a swap file is not recovered. The first cause in this order is given.
#[derive(Debug, Drop, Error)]
pub enum RecoverFault {
    /// The swap file is empty.
    #[error("no swap file")]
    NoSwap,
    /// The saved file is refused. The fault is never `NoMemory`.
    #[error("{0}")]
    Load(LoadFault),
    /// The swap file has another version, or is none.
    #[error("unknown swap version")]
    Version,
    /// The swap file is that of a saved file with the digest `kept`; the saved file has the digest
    /// `found`.
    #[error("the file has changed")]
    FileChanged { kept: Digest, found: Digest },
    /// A record is at fault.
    #[error("the swap file is damaged")]
    Damaged(Damage),
    /// Out of memory.
    #[error("out of memory")]
    NoMemory,
}

impl From<AllocError> for RecoverFault {
    ghost use Rattle.std.specs.Prelude.{◌≡◌};
    ghost use Rattle.kte_recover.specs.declared.answer.RecoverFault.TheVariants as fault;

    ghost from_gives = { λ _ given. given ≡ fault.NoMemory };

    fn from(_error: AllocError) -> RecoverFault {
        RecoverFault::NoMemory
    }
}
