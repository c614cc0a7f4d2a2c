//! What is sought, and where it matches in one line.
ghost use Rattle.std.specs.Prelude.{◌≡◌, ◌+◌, ◌≤◌, ◌↔◌, ℕ, length, IsTrue, IfSome, IfNone, IfOk};
ghost use Rattle.kte_place.specs.Place.{at};
ghost use Rattle.kte_place.specs.Span.{ends};
ghost use Rattle.kte_search.specs.Matches.{MatchesIn};
ghost use Rattle.kte_search.specs.Inside.{IsFirstColumn, IsLastColumn, NoColumnFrom, NoColumnTo};

use kte_place::{Place, Span};
use kte_text::{Line, matches_at};
use std::alloc::{AllocError, Global};

/// What is sought in a text: units that stand next to each other in one line.
#[derive(Debug, Drop)]
pub struct Query {
    /// The units. A search needs at least one.
    pub pattern: Line,
    /// The letters A to Z are taken as a to z, in the pattern and in the text.
    pub fold_case: bool,
    /// No word unit may stand next to a match: a digit, a letter A to Z or a to z, `_`, or any unit
    /// outside ASCII.
    pub whole: bool,
}

impl Query {
    /// Returns an equal query. Fails if out of memory.
    pub fn copy(&self, alloc: Global) -> Result<Query, AllocError>
        ensures { IfOk result (λ copy. copy ≡ self.now) }
    {
        Ok(Query {
            pattern: self.pattern.copy(alloc)?,
            fold_case: self.fold_case,
            whole: self.whole,
        })
    }

    /// Returns the first column of a line, from a column on, at which the query matches.
    pub(crate) fn first_in(&self, units: &[u16], from: u64) -> Option<u64>
        ensures found { IfSome result (λ column. IsFirstColumn self.now units.now from column) }
        ensures none { IfNone result (NoColumnFrom self.now units.now from) }
    {
        let last = (units.len() as u64).checked_sub(self.pattern.len())?;
        for column in from..last + 1 {
            if self.is_at(units, column) {
                return Some(column);
            }
        }
        None
    }

    /// Returns the last column of a line at which the query matches and the match ends at or before
    /// a column.
    pub(crate) fn last_in(&self, units: &[u16], before: u64) -> Option<u64>
        ensures found { IfSome result (λ column. IsLastColumn self.now units.now before column) }
        ensures none { IfNone result (NoColumnTo self.now units.now before) }
    {
        let end = before.min(units.len() as u64);
        let last = end.checked_sub(self.pattern.len())?;
        for column in (0..last + 1).rev() {
            if self.is_at(units, column) {
                return Some(column);
            }
        }
        None
    }

    /// Whether the query matches at this column of a line.
    fn is_at(&self, units: &[u16], column: u64) -> bool
        ensures { IsTrue result ↔ MatchesIn self.now units.now column }
    {
        matches_at(
            units,
            column,
            self.pattern.units(),
            self.fold_case,
            self.whole,
        )
    }

    /// Returns the span of the match at a place.
    pub(crate) fn span_at(&self, line: u32, column: u64, units: &[u16]) -> Span
        requires { MatchesIn self.now units.now column }
        ensures { result ≡ ends (at line column) (at line (column + length self.now.pattern)) }
    {
        let end = column + self.pattern.len();
        Span {
            start: Place { line, column },
            end: Place { line, column: end },
        }
    }
}
