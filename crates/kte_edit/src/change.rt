ghost use Rattle.std.specs.Prelude.{◌≡◌, IfOk};
ghost use Rattle.kte_edit.specs.declared.change.StepsFault.TheVariants as StepsFault;

use kte_place::{Place, Span};
use kte_text::{Misfit, Text};
use std::alloc::{AllocError, Global};
use thiserror::Error;

/// An edit of a text. Lines and columns count from 0, columns in UTF-16 units.
#[derive(Debug, Drop)]
pub enum Change {
    /// Splits the line in two at the place.
    Wrap { at: Place },
    /// Joins the line to the end of the line before it.
    Unwrap { line: u32 },
    /// Inserts the text at the place. Each line after its first begins a new line.
    Insert { at: Place, text: Text },
    /// Removes what is in the span, line ends too.
    Remove { span: Span },
    /// Removes what is in the span, and inserts the text at the span's start.
    Replace { span: Span, text: Text },
}

/// Why the primitives of a change are not given.
#[derive(Clone, Copy, Debug, PartialEq, Eq, Drop, Error)]
pub enum StepsFault {
    /// The change does not fit the text.
    #[error("the change does not fit: {0}")]
    Misfit(Misfit),
    /// Out of memory.
    #[error("out of memory")]
    NoMemory,
}

impl From<AllocError> for StepsFault {
    ghost from_gives = { λ _ fault. fault ≡ StepsFault.NoMemory };

    fn from(_error: AllocError) -> StepsFault {
        StepsFault::NoMemory
    }
}

impl From<Misfit> for StepsFault {
    ghost from_gives = { λ misfit fault. fault ≡ StepsFault.Misfit misfit };

    fn from(misfit: Misfit) -> StepsFault {
        StepsFault::Misfit(misfit)
    }
}

impl Change {
    /// Returns an equal change.
    pub fn copy(&self, alloc: Global) -> Result<Change, AllocError>
        ensures { IfOk result (λ change. change ≡ self.now) }
    {
        match self {
            Change::Wrap { at } => Ok(Change::Wrap { at: *at }),
            Change::Unwrap { line } => Ok(Change::Unwrap { line: *line }),
            Change::Insert { at, text } => Ok(Change::Insert {
                at: *at,
                text: text.copy(alloc)?,
            }),
            Change::Remove { span } => Ok(Change::Remove { span: *span }),
            Change::Replace { span, text } => Ok(Change::Replace {
                span: *span,
                text: text.copy(alloc)?,
            }),
        }
    }
}
