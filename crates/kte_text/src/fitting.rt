ghost use Rattle.std.specs.Prelude.{◌≡◌, find, nat_lt};
ghost use Rattle.std.specs.Result.{result_err};
ghost use Rattle.kte_text.specs.Units.{splits_pair};
ghost use Rattle.kte_text.specs.Texts.{IsText};
ghost use Rattle.kte_text.specs.Primitives.{HasEnd, misfit, misplaced, oversize};

use crate::MAX_SIZE;
use crate::line::splits;
use crate::lines::Lines;
use crate::primitive::{Misfit, Primitive};

/// Checks whether a primitive fits a text. Fails with the first cause in the order of [`Misfit`].
/// An insertion or a removal of nothing is checked like any other. Takes no memory.
pub fn fits<L: Lines>(lines: &L, primitive: &Primitive) -> Result<(), Misfit>
    requires { HasEnd primitive.now }
    ensures { result_err result ≡ misfit primitive.now (L.text lines.now) }
{
    match primitive {
        Primitive::Wrap { line, column } => {
            fits_line(lines, *line, &[*column])?;
            fits_size(lines.size() + 1)
        }
        Primitive::Unwrap { line } => {
            fits_line(lines, *line, &[])?;
            if *line == 0 {
                return Err(Misfit::FirstLine);
            }
            Ok(())
        }
        Primitive::Insert { line, column, text } => {
            fits_line(lines, *line, &[*column])?;
            fits_size(lines.size() + text.len())
        }
        Primitive::Remove {
            line,
            column,
            length,
        } => fits_line(lines, *line, &[*column, *column + *length]),
    }
}

// Checks that the line is there and may be cut at these columns.
fn fits_line<L: Lines>(lines: &L, line: u32, columns: &[u64]) -> Result<(), Misfit>
    ensures answer { result_err result ≡ misplaced line columns.now (L.text lines.now) }
    ensures is_text { IsText (L.text lines.now) }
{
    if line >= lines.lines() {
        return Err(Misfit::NoLine { line });
    }
    let units = lines.line(line);
    if let Some(column) = first_beyond(columns, units.len() as u64) {
        return Err(Misfit::NoColumn { line, column });
    }
    if let Some(column) = first_splitting(columns, units) {
        return Err(Misfit::SplitsPair { line, column });
    }
    Ok(())
}

fn first_beyond(columns: &[u64], length: u64) -> Option<u64>
    ensures { result ≡ find (λ column. nat_lt length column) columns.now }
{
    columns.iter().copied().find(|column| *column > length)
}

fn first_splitting(columns: &[u64], units: &[u16]) -> Option<u64>
    ensures { result ≡ find (splits_pair units.now) columns.now }
{
    columns
        .iter()
        .copied()
        .find(|column| splits(units, *column))
}

fn fits_size(size: u64) -> Result<(), Misfit>
    ensures { result_err result ≡ oversize size }
{
    if size > MAX_SIZE {
        return Err(Misfit::TooLarge { size });
    }
    Ok(())
}
