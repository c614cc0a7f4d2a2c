ghost use Rattle.std.specs.Prelude.{◌≡◌, IfOk};

use crate::line::Line;
use std::alloc::{AllocError, Global};
use thiserror::Error;

/// An elementary edit of a text; every other edit is a sequence of these. They are wrapLine,
/// unwrapLine, insertText and removeText of KTextEditor's Document. Lines and columns count from 0,
/// columns and lengths in UTF-16 units.
#[derive(Debug, Drop)]
pub enum Primitive {
    /// Splits the line in two at the column.
    Wrap { line: u32, column: u64 },
    /// Joins the line to the end of the line before it.
    Unwrap { line: u32 },
    /// Inserts the text at the column.
    Insert { line: u32, column: u64, text: Line },
    /// Removes `length` units from the column on.
    Remove { line: u32, column: u64, length: u64 },
}

/// Why a primitive does not fit a text, in the order in which the causes are checked. Of the two
/// columns of a removal the first at fault is named.
#[derive(Clone, Copy, Debug, PartialEq, Eq, Drop, Error)]
pub enum Misfit {
    /// The text has no such line.
    #[error("no line {line}")]
    NoLine { line: u32 },
    /// The column exceeds the line's length, in units; the column after the last unit does not.
    #[error("no column {column} in line {line}")]
    NoColumn { line: u32, column: u64 },
    /// The column is between the two units of a surrogate pair.
    #[error("column {column} of line {line} splits a pair")]
    SplitsPair { line: u32, column: u64 },
    /// The first line has no line before it to be joined to.
    #[error("the first line has none before it")]
    FirstLine,
    /// The text would have this size, in units and line ends, which exceeds `MAX_SIZE`.
    #[error("the text would have size {size}")]
    TooLarge { size: u64 },
}

impl Primitive {
    ghost use Rattle.kte_text.specs.Primitives.{HasLine, is_empty};

    /// Returns `true` for an insertion or a removal of nothing, which leaves a text unchanged.
    pub fn is_empty(&self) -> bool
        ensures answer { result ≡ is_empty self.now }
        ensures has_line { HasLine self.now }
    {
        match self {
            Primitive::Wrap { .. } | Primitive::Unwrap { .. } => false,
            Primitive::Insert { text, .. } => text.units().is_empty(),
            Primitive::Remove { length, .. } => *length == 0,
        }
    }

    /// Returns an equal primitive.
    pub fn copy(&self, alloc: Global) -> Result<Primitive, AllocError>
        ensures { IfOk result (λ primitive. primitive ≡ self.now) }
    {
        match self {
            Primitive::Wrap { line, column } => Ok(Primitive::Wrap {
                line: *line,
                column: *column,
            }),
            Primitive::Unwrap { line } => Ok(Primitive::Unwrap { line: *line }),
            Primitive::Insert { line, column, text } => Ok(Primitive::Insert {
                line: *line,
                column: *column,
                text: text.copy(alloc)?,
            }),
            Primitive::Remove {
                line,
                column,
                length,
            } => Ok(Primitive::Remove {
                line: *line,
                column: *column,
                length: *length,
            }),
        }
    }
}
