ghost use Rattle.std.specs.Prelude.{◌≡◌};
ghost use Rattle.kte_doc.specs.declared.fault.MakeFault.TheVariants as MakeFault;

use kte_history::NotLocked;
use kte_text::Misfit;
use std::alloc::AllocError;
use thiserror::Error;

/// Why a document refuses a primitive.
#[derive(Clone, Copy, Debug, PartialEq, Eq, Drop, Error)]
pub enum DocFault {
    /// The primitive does not fit the text.
    #[error("the primitive does not fit: {0}")]
    Misfit(Misfit),
    /// The revision is the greatest.
    #[error("no revision after {revision}")]
    RevisionsFull {
        /// The present revision.
        revision: u64,
    },
    /// Memory ran out.
    #[error("out of memory")]
    NoMemory,
}

/// Why a document refuses to make ranges of spans of the text at a revision.
#[derive(Clone, Copy, Debug, PartialEq, Eq, Drop, Error)]
pub enum MakeFault {
    /// The revision is neither locked nor the present one.
    #[error("revision {revision} is not locked")]
    NotLocked {
        /// The revision.
        revision: u64,
        /// The oldest locked revision, if any is locked.
        oldest: Option<u64>,
    },
    /// Memory ran out.
    #[error("out of memory")]
    NoMemory,
}

impl From<NotLocked> for MakeFault {
    ghost from_gives = { λ refused fault. fault
        ≡ MakeFault.NotLocked refused.revision refused.oldest };

    fn from(refused: NotLocked) -> MakeFault {
        let NotLocked { revision, oldest } = refused;
        MakeFault::NotLocked { revision, oldest }
    }
}

impl From<AllocError> for MakeFault {
    ghost from_gives = { λ _ fault. fault ≡ MakeFault.NoMemory };

    fn from(_error: AllocError) -> MakeFault {
        MakeFault::NoMemory
    }
}

/// Why a document refuses to set a range.
#[derive(Clone, Copy, Debug, PartialEq, Eq, Drop, Error)]
pub enum SetFault {
    /// There is no such range.
    #[error("no range {id}")]
    NoRange {
        /// The number for which there is none.
        id: u64,
    },
    /// Memory ran out.
    #[error("out of memory")]
    NoMemory,
}
