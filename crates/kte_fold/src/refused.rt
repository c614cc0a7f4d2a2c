use thiserror::Error;

/// Why a span may not be folded.
#[derive(Clone, Copy, Debug, PartialEq, Eq, Drop, Error)]
pub enum FoldRefused {
    /// A line of the span is not in the text, or a column of it exceeds its line's length.
    #[error("the span is not in the text")]
    OutOfText,
    /// The span is empty.
    #[error("the span is empty")]
    EmptySpan,
    /// Folds cross the span: one of the two starts strictly inside the other and ends strictly
    /// after it. This is the least number of such a fold.
    #[error("the span crosses fold {id}")]
    Crosses { id: u64 },
}

/// There is no fold of this number.
#[derive(Clone, Copy, Debug, PartialEq, Eq, Drop, Error)]
#[error("no fold {id}")]
pub struct NoFold {
    /// The number that was asked for.
    pub id: u64,
}
