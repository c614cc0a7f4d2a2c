ghost use Rattle.std.specs.Prelude.{◌≡◌, ◌+◌, ◌∷◌, [], length, None, OnOk, IsTrue};
ghost use Rattle.std.specs.Result.{result_err};
ghost use Rattle.kte_text.specs.Texts.{IsText, size_of};
ghost use Rattle.kte_text.specs.Primitives.{misplaced, oversize};
ghost use Rattle.kte_place.specs.Place.{is_at_or_before};
ghost use Rattle.kte_edit.specs.Steps.{IsChange, change_misfit, misplaced_among};
ghost use Rattle.kte_edit.specs.Parts.{offset};

use crate::change::Change;
use kte_place::{Place, Span};
use kte_text::{Lines, MAX_SIZE, Misfit, Text, is_boundary};

/// Checks whether a change fits a text. Takes no memory.
pub(crate) fn fits<L: Lines>(lines: &L, change: &Change) -> Result<(), Misfit>
    ensures answer { result_err result ≡ change_misfit change.now (L.text lines.now) }
    ensures change { OnOk result (IsChange change.now) }
    ensures is_text { IsText (L.text lines.now) }
{
    match change {
        Change::Wrap { at } => {
            fits_place(lines, *at)?;
            fits_size(lines.size() + 1)
        }
        Change::Unwrap { line } => {
            fits_place(
                lines,
                Place {
                    line: *line,
                    column: 0,
                },
            )?;
            if *line == 0 {
                return Err(Misfit::FirstLine);
            }
            Ok(())
        }
        Change::Insert { at, text } => {
            fits_place(lines, *at)?;
            fits_size(lines.size() + added_size(text))
        }
        Change::Remove { span } => fits_span(lines, *span),
        Change::Replace { span, text } => {
            fits_span(lines, *span)?;
            fits_size(lines.size() - size_between(lines, *span) + added_size(text))
        }
    }
}

// Checks that a place is one of the text: its line is there and may be cut at its column.
fn fits_place<L: Lines>(lines: &L, place: Place) -> Result<(), Misfit>
    ensures answer { result_err result ≡ misplaced place.line (place.column ∷ []) (L.text lines.now) }
    ensures is_text { IsText (L.text lines.now) }
{
    let Place { line, column } = place;
    if line >= lines.lines() {
        return Err(Misfit::NoLine { line });
    }
    let units = lines.line(line);
    if column > units.len() as u64 {
        return Err(Misfit::NoColumn { line, column });
    }
    if !is_boundary(units, column) {
        return Err(Misfit::SplitsPair { line, column });
    }
    Ok(())
}

// Checks the start of a span and then its end.
fn fits_span<L: Lines>(lines: &L, span: Span) -> Result<(), Misfit>
    ensures answer { result_err result
        ≡ misplaced_among (span.start ∷ span.end ∷ []) (L.text lines.now) }
    ensures order { IsTrue (is_at_or_before span.start span.end) }
    ensures is_text { IsText (L.text lines.now) }
{
    fits_place(lines, span.start)?;
    fits_place(lines, span.end)
}

fn fits_size(size: u64) -> Result<(), Misfit>
    ensures { result_err result ≡ oversize size }
{
    if size > MAX_SIZE {
        return Err(Misfit::TooLarge { size });
    }
    Ok(())
}

// Returns the size of a text to be inserted.
fn added_size(text: &Text) -> u64
    ensures size { result ≡ size_of text.now }
    ensures is_text { IsText text.now }
{
    // Called for its contract alone, which bounds the size.
    let _lines = text.lines();
    text.size()
}

// Returns the size of what is in a span of the text, in units and line ends.
fn size_between<L: Lines>(lines: &L, span: Span) -> u64
    requires is_text { IsText (L.text lines.now) }
    requires inside { misplaced_among (span.start ∷ span.end ∷ []) (L.text lines.now) ≡ None }
    ensures { offset (L.text lines.now) span.start + result ≡ offset (L.text lines.now) span.end }
{
    let mut size = span.end.column;
    let mut hint = 0;
    for line in span.start.line..span.end.line {
        size += lines.line_hinted(line, &mut hint).len() as u64 + 1;
    }
    size - span.start.column
}
