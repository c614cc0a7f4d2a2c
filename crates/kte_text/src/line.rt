ghost use Rattle.std.specs.Prelude.{◌≡◌, ℕ, ◌^◌, ◌<◌, ◌↔◌, List, length, slice_index, IfOk, IsTrue, false, Some, Err};
ghost use Rattle.std.specs.List.{list_any, position};
ghost use Rattle.std.specs.Char.Utf16.{is_high_surrogate as high_surrogate, is_low_surrogate as low_surrogate};
ghost use Rattle.kte_text.specs.Units.{IsLine, IsBoundary, is_line_end, splits_pair, utf8_of};
ghost use Rattle.kte_text.specs.Reading.{utf16_of};
ghost use Rattle.kte_text.specs.declared.line.LineFault.TheVariants as LineFault;

use crate::reading::units_in;
use memchr::memchr2;
use std::alloc::{AllocError, Global};
use std::marker::Model;
use thiserror::Error;

/// A line of a text, as in KTextEditor's Document: UTF-16 units, in which each surrogate is paired,
/// without line ends (LF and CR).
#[derive(Debug, Drop)]
pub struct Line {
    units: Vec<u16>,
}

impl Model for Line {
    ghost Value = { List ℕ };

    ghost view = { λ line. line.units.items };

    ghost invariant = { λ line. IsLine line.units.items };
}

/// Why a text is not a line.
#[derive(Clone, Copy, Debug, PartialEq, Eq, Drop, Error)]
pub enum LineFault {
    /// It holds a line end, the first LF or CR at byte `at`, from 0.
    #[error("line end at byte {at}")]
    HasEnd { at: u64 },
    /// Out of memory.
    #[error("out of memory")]
    NoMemory,
}

impl From<AllocError> for LineFault {
    ghost from_gives = { λ _ fault. fault ≡ LineFault.NoMemory };

    fn from(_error: AllocError) -> LineFault {
        LineFault::NoMemory
    }
}

impl Line {
    /// Creates the line of these units.
    pub fn of_units(alloc: Global, units: &[u16]) -> Result<Line, AllocError>
        requires { IsLine units.now }
        ensures { IfOk result (λ line. line ≡ units.now) }
    {
        Ok(Line {
            units: Vec::from_slice(alloc, units)?,
        })
    }

    /// Creates the line of a text in UTF-8. Fails if there is a line end in it.
    pub fn from_utf8(alloc: Global, text: &str) -> Result<Line, LineFault>
        ensures line { IfOk result (λ line. utf8_of line ≡ text.now) }
        ensures has_end { (at : ℕ) → (result ≡ Err (LineFault.HasEnd at))
            ↔ (position is_line_end text.now ≡ Some at) }
    {
        match memchr2(b'\n', b'\r', text.as_bytes()) {
            Some(at) => Err(LineFault::HasEnd { at: at as u64 }),
            None => Ok(Line::of_text(alloc, text)?),
        }
    }

    /// Creates the line of a text in UTF-8 without a line end.
    pub(crate) fn of_text(alloc: Global, text: &str) -> Result<Line, AllocError>
        requires { list_any is_line_end text.now ≡ false }
        ensures { IfOk result (λ line. line ≡ utf16_of text.now) }
    {
        Ok(Line {
            units: units_in(alloc, text)?,
        })
    }

    /// Returns the units.
    pub fn units(&self) -> &[u16]
        ensures units { result.now ≡ self.now }
        ensures whole { IsLine self.now }
    {
        self.units.as_slice()
    }

    /// Returns the units themselves, without copying.
    pub fn into_units(self) -> Vec<u16>
        ensures units { result.items ≡ self }
        ensures whole { IsLine self }
    {
        self.units
    }

    /// Returns the number of units.
    pub fn len(&self) -> u64
        ensures count { result ≡ length self.now }
        ensures small { result < 2 ^ 63 }
    {
        self.units.len() as u64
    }

    /// Returns `true` if the line is empty.
    pub fn is_empty(&self) -> bool
        ensures { IsTrue result ↔ (length self.now ≡ 0) }
    {
        self.units.is_empty()
    }

    /// Returns unit `n`, from 0.
    pub fn get(&self, n: u64) -> &u16
        requires { n < length self.now }
        ensures { result.now ≡ slice_index self.now n }
    {
        &self.units[n as usize]
    }

    /// Returns an equal line.
    pub fn copy(&self, alloc: Global) -> Result<Line, AllocError>
        ensures { IfOk result (λ line. line ≡ self.now) }
    {
        Line::of_units(alloc, self.units.as_slice())
    }
}

pub(crate) fn is_high_surrogate(unit: u16) -> bool
    ensures { result ≡ high_surrogate unit }
{
    0xD800 <= unit && unit < 0xDC00
}

fn is_low_surrogate(unit: u16) -> bool
    ensures { result ≡ low_surrogate unit }
{
    0xDC00 <= unit && unit < 0xE000
}

/// Returns `true` if a line may be cut at this column, in UTF-16 units from 0: it is at most the
/// line's length, and not between the two units of a surrogate pair.
pub fn is_boundary(units: &[u16], column: u64) -> bool
    ensures { IsTrue result ↔ IsBoundary units.now column }
{
    column <= units.len() as u64 && !splits(units, column)
}

/// Returns `true` if the column is between the two units of a pair.
pub(crate) fn splits(units: &[u16], column: u64) -> bool
    ensures { result ≡ splits_pair units.now column }
{
    0 < column
        && column < units.len() as u64
        && is_high_surrogate(units[column as usize - 1])
        && is_low_surrogate(units[column as usize])
}
