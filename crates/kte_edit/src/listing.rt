ghost use Rattle.std.specs.Prelude.{◌≡◌, ◌+◌, ◌-◌, ◌<◌, ◌≤◌, ◌↔◌, ◌++◌, ◌∷◌, [], length, IfOk, OnOk, Err, None, Some};
ghost use Rattle.kte_text.specs.Texts.{IsText, line_at, size_of};
ghost use Rattle.kte_text.specs.Flat.{flatten};
ghost use Rattle.kte_text.specs.Primitives.{FitInTurn, after_all};
ghost use Rattle.kte_text.specs.declared.TheConstants.{MAX_SIZE};
ghost use Rattle.kte_text.specs.declared.primitive.Misfit.{Misfit};
ghost use Rattle.kte_text.specs.declared.primitive.Primitive.TheVariants.{Insert, Remove};
ghost use Rattle.kte_edit.specs.Steps.{change_misfit, insertion, misplaced_among, removal, removed_lines, steps_of, without_empty};
ghost use Rattle.kte_edit.specs.Parts.{part_of, put_by, replaced};
ghost use Rattle.kte_edit.specs.declared.change.StepsFault.TheVariants as StepsFault;

use crate::change::{Change, StepsFault};
use crate::fitting::fits;
use kte_place::{Place, Span};
use kte_text::{Batch, Line, Lines, Primitive, Text};
use std::alloc::{AllocError, Global};

/// Returns the primitives of a change of a text, in the order in which they are applied. Insertions
/// and removals of nothing are left out, so the list may be empty.
///
/// A change that does not fit the text is refused, with the first cause in the order of [`Misfit`]:
/// the place, or the start of the span; the end of the span; the first line; the size after the whole
/// change.
pub fn steps<L: Lines>(alloc: Global, lines: &L, change: &Change) -> Result<Batch, StepsFault>
    ensures steps { IfOk result (λ batch. batch ≡ steps_of change.now (L.text lines.now)) }
    ensures misfit { (misfit : Misfit) → (result ≡ Err (StepsFault.Misfit misfit))
        ↔ (change_misfit change.now (L.text lines.now) ≡ Some misfit) }
    ensures fit { IfOk result (λ batch. FitInTurn batch (L.text lines.now)) }
    ensures text { IfOk result (λ batch. IsText (after_all batch (L.text lines.now))) }
    ensures part { IfOk result (λ batch. flatten (after_all batch (L.text lines.now))
        ≡ replaced (L.text lines.now) (part_of change.now (L.text lines.now)) (put_by change.now)) }
{
    fits(lines, change)?;
    Ok(listed(alloc, lines, change)?)
}

// Returns the primitives of a change that fits.
fn listed<L: Lines>(alloc: Global, lines: &L, change: &Change) -> Result<Batch, AllocError>
    requires is_text { IsText (L.text lines.now) }
    requires fit { change_misfit change.now (L.text lines.now) ≡ None }
    ensures { IfOk result (λ batch. batch ≡ steps_of change.now (L.text lines.now)) }
{
    let mut batch = Batch::new(alloc);
    match change {
        Change::Wrap { at } => batch.push(Primitive::Wrap {
            line: at.line,
            column: at.column,
        })?,
        Change::Unwrap { line } => batch.push(Primitive::Unwrap { line: *line })?,
        Change::Insert { at, text } => insert(&mut batch, alloc, *at, text)?,
        Change::Remove { span } => remove(&mut batch, lines, *span)?,
        Change::Replace { span, text } => {
            remove(&mut batch, lines, *span)?;
            insert(&mut batch, alloc, span.start, text)?;
        }
    }
    Ok(batch)
}

// Appends the insertion of a text at a place.
fn insert(batch: &mut Batch, alloc: Global, at: Place, text: &Text) -> Result<(), AllocError>
    requires line { at.line ≤ MAX_SIZE }
    requires column { at.column ≤ MAX_SIZE }
    ensures { OnOk result (batch.new ≡ batch.old ++ without_empty (insertion at text.now)) }
{
    let count = text.lines();
    let first = text.get(0);
    push_insertion(batch, alloc, at.line, at.column, first)?;
    let mut line = at.line;
    let mut column = at.column + first.len();
    for n in 1..count {
        let units = text.get(n as u64);
        batch.push(Primitive::Wrap { line, column })?;
        line += 1;
        push_insertion(batch, alloc, line, 0, units)?;
        column = units.len();
    }
    Ok(())
}

// Appends the removal of a span that is in the text.
fn remove<L: Lines>(batch: &mut Batch, lines: &L, span: Span) -> Result<(), AllocError>
    requires { misplaced_among (span.start ∷ span.end ∷ []) (L.text lines.now) ≡ None }
    ensures { OnOk result (batch.new ≡ batch.old ++ without_empty (removal span (L.text lines.now))) }
{
    let Span { start, end } = span;
    if start.line == end.line {
        return push_removal(batch, start.line, start.column, end.column - start.column);
    }
    push_removal(batch, end.line, 0, end.column)?;
    remove_lines(batch, lines, start.line, end.line)?;
    let length = lines.line(start.line).len() as u64;
    push_removal(batch, start.line, start.column, length - start.column)?;
    batch.push(Primitive::Unwrap {
        line: start.line + 1,
    })
}

// Appends the removal of the lines after one line and before another, from the last to the first.
fn remove_lines<L: Lines>(
    batch: &mut Batch,
    lines: &L,
    first: u32,
    end: u32,
) -> Result<(), AllocError>
    requires order { first < end }
    requires inside { end < length (L.text lines.now) }
    ensures { OnOk result (batch.new
        ≡ batch.old ++ without_empty (removed_lines (L.text lines.now) first (end - first - 1))) }
{
    let mut hint = 0;
    let mut line = end;
    while line > first + 1 {
        line -= 1;
        let length = lines.line_hinted(line, &mut hint).len() as u64;
        push_removal(batch, line, 0, length)?;
        batch.push(Primitive::Unwrap { line: line + 1 })?;
    }
    Ok(())
}

// Appends the insertion of a line, unless it is empty.
fn push_insertion(
    batch: &mut Batch,
    alloc: Global,
    line: u32,
    column: u64,
    units: &Line,
) -> Result<(), AllocError>
    ensures { OnOk result (batch.new
        ≡ batch.old ++ without_empty (Insert line column units.now ∷ [])) }
{
    if units.is_empty() {
        return Ok(());
    }
    batch.push(Primitive::Insert {
        line,
        column,
        text: units.copy(alloc)?,
    })
}

// Appends the removal of so many units, unless there are none.
fn push_removal(batch: &mut Batch, line: u32, column: u64, length: u64) -> Result<(), AllocError>
    ensures { OnOk result (batch.new ≡ batch.old ++ without_empty (Remove line column length ∷ [])) }
{
    if length == 0 {
        return Ok(());
    }
    batch.push(Primitive::Remove {
        line,
        column,
        length,
    })
}
