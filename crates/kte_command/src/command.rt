ghost use Rattle.std.specs.Prelude.{◌≡◌, IfOk};

use kte_edit::Change;
use kte_find::Rule;
use kte_place::{Empty, Expand, Place, Span};
use kte_search::Query;
use std::alloc::{AllocError, Global};

/// A command of a script. Lines and columns of its spans and places are at most 2^30, and what it
/// looks for has at least one unit.
#[derive(Debug, Drop)]
pub enum Command {
    /// Makes the primitives of a change, which are none where it would insert or remove nothing.
    Edit {
        change: Change,
    },
    /// Opens a transaction, in the one that is open, if any.
    Begin,
    /// Closes the innermost transaction.
    End,
    /// Undoes the last group that may be undone.
    Undo,
    /// Redoes the last group that was undone.
    Redo,
    /// Makes a range. It gets the next number, from 1.
    MakeRange {
        span: Span,
        expand: Expand,
        empty: Empty,
    },
    /// Sets a range to another span. Whether it expands and may be empty is unchanged.
    SetRange {
        id: u64,
        span: Span,
    },
    /// Removes a range. Its number is not used again.
    DropRange {
        id: u64,
    },
    /// Asks where a range stands.
    ShowRange {
        id: u64,
    },
    /// Locks the present revision for the editor.
    Lock,
    /// Removes one of the editor's locks on a revision.
    Unlock {
        revision: u64,
    },
    /// Asks where a span of the text at a revision is now, as if a range had been made there.
    Land {
        revision: u64,
        span: Span,
        expand: Expand,
        empty: Empty,
    },
    /// Makes a fold: a range that hides the lines after its first. It gets the next number of a
    /// range.
    Fold {
        span: Span,
    },
    /// Removes a fold.
    Unfold {
        id: u64,
    },
    /// Asks for the first match that starts at or after a place.
    Find {
        from: Place,
        query: Query,
    },
    /// Asks for the match that starts last among those that end at or before a place.
    FindBack {
        before: Place,
        query: Query,
    },
    /// Asks for the matches from left to right.
    All {
        query: Query,
    },
    /// Posts a job: to look in the text for what a rule finds.
    Check {
        rule: Rule,
    },
    /// Asks that all finished transactions be made durable.
    Sync,
    /// Asks that the present text be saved.
    Save,
}

impl Command {
    /// Returns an equal command. Fails if out of memory.
    pub fn copy(&self, alloc: Global) -> Result<Command, AllocError>
        ensures { IfOk result (λ command. command ≡ self.now) }
    {
        match self {
            Command::Edit { change } => Ok(Command::Edit {
                change: change.copy(alloc)?,
            }),
            Command::Begin => Ok(Command::Begin),
            Command::End => Ok(Command::End),
            Command::Undo => Ok(Command::Undo),
            Command::Redo => Ok(Command::Redo),
            Command::MakeRange {
                span,
                expand,
                empty,
            } => Ok(Command::MakeRange {
                span: *span,
                expand: *expand,
                empty: *empty,
            }),
            Command::SetRange { id, span } => Ok(Command::SetRange {
                id: *id,
                span: *span,
            }),
            Command::DropRange { id } => Ok(Command::DropRange { id: *id }),
            Command::ShowRange { id } => Ok(Command::ShowRange { id: *id }),
            Command::Lock => Ok(Command::Lock),
            Command::Unlock { revision } => Ok(Command::Unlock {
                revision: *revision,
            }),
            Command::Land {
                revision,
                span,
                expand,
                empty,
            } => Ok(Command::Land {
                revision: *revision,
                span: *span,
                expand: *expand,
                empty: *empty,
            }),
            Command::Fold { span } => Ok(Command::Fold { span: *span }),
            Command::Unfold { id } => Ok(Command::Unfold { id: *id }),
            Command::Find { from, query } => Ok(Command::Find {
                from: *from,
                query: query.copy(alloc)?,
            }),
            Command::FindBack { before, query } => Ok(Command::FindBack {
                before: *before,
                query: query.copy(alloc)?,
            }),
            Command::All { query } => Ok(Command::All {
                query: query.copy(alloc)?,
            }),
            Command::Check { rule } => Ok(Command::Check {
                rule: rule.copy(alloc)?,
            }),
            Command::Sync => Ok(Command::Sync),
            Command::Save => Ok(Command::Save),
        }
    }
}
