//! The lines of a text as rows: vectors of units, each with its own capacity.
ghost use Rattle.std.specs.Prelude.{◌≡◌, ◌+◌, ◌-◌, ◌≤◌, ◌<◌, [], ◌∷◌, ◌++◌, length, take, drop, slice_set, vec_len, vec_capacity, OnOk, IfOk};
ghost use Rattle.kte_text.specs.Texts.{IsText};
ghost use Rattle.kte_text.specs.Primitives.{FitsText, HasLine, after};
ghost use Rattle.kte_text.specs.Flat.{taken_by, given};
ghost use Rattle.kte_text.specs.declared.TheConstants.{MAX_SIZE};
ghost use Rattle.kte_buffer.specs.Entries.{entry};
ghost use Rattle.kte_buffer.specs.Rows.{lines_in, row_at, capacity_at, HasRoom, OnlyGrows};

use crate::row;
use kte_place::{Entry, EntryKind};
use kte_text::{Line, Primitive, Text};
use std::alloc::{AllocError, Global};
use std::mem;

/// Inserts units into a row. There is room for them.
pub(crate) fn insert_units(rows: &mut Vec<Vec<u16>>, line: usize, column: usize, units: &[u16])
    requires line { line < vec_len rows.old }
    requires column { column ≤ length (row_at rows.old.items line) }
    requires room { length (row_at rows.old.items line) + length units.now
        ≤ capacity_at rows.old.items line }
    ensures { lines_in rows.new.items ≡ slice_set (lines_in rows.old.items) line
        (take column (row_at rows.old.items line)
        ++ units.now ++ drop column (row_at rows.old.items line)) }
{
    row::insert(&mut rows[line], column, units);
}

/// Removes `count` units of a row from a column on.
pub(crate) fn remove_units(rows: &mut Vec<Vec<u16>>, line: usize, column: usize, count: usize)
    requires line { line < vec_len rows.old }
    requires end { column + count ≤ length (row_at rows.old.items line) }
    ensures { lines_in rows.new.items ≡ slice_set (lines_in rows.old.items) line
        (take column (row_at rows.old.items line)
        ++ drop (column + count) (row_at rows.old.items line)) }
{
    row::remove(&mut rows[line], column, count);
}

/// Cuts a row at a column. The units after it move into the fresh row, which is empty and has room
/// for them, and which is then inserted after the row. There is room for another row.
pub(crate) fn wrap(rows: &mut Vec<Vec<u16>>, line: usize, column: usize, mut fresh: Vec<u16>)
    requires line { line < vec_len rows.old }
    requires column { column ≤ length (row_at rows.old.items line) }
    requires empty { fresh.items ≡ [] }
    requires room { length (row_at rows.old.items line) - column ≤ vec_capacity fresh }
    requires row { vec_len rows.old < vec_capacity rows.old }
    ensures { lines_in rows.new.items ≡ take line (lines_in rows.old.items)
        ++ take column (row_at rows.old.items line) ∷ drop column (row_at rows.old.items line)
        ∷ drop (line + 1) (lines_in rows.old.items) }
{
    row::split(&mut rows[line], column, &mut fresh);
    rows.insert(line + 1, fresh).unwrap();
}

/// Joins a row to the end of the row before it. There is room for its units.
pub(crate) fn unwrap(rows: &mut Vec<Vec<u16>>, line: usize)
    requires some { 0 < line }
    requires line { line < vec_len rows.old }
    requires room { length (row_at rows.old.items (line - 1)) + length (row_at rows.old.items line)
        ≤ capacity_at rows.old.items (line - 1) }
    ensures { lines_in rows.new.items ≡ take (line - 1) (lines_in rows.old.items)
        ++ (row_at rows.old.items (line - 1) ++ row_at rows.old.items line)
        ∷ drop (line + 1) (lines_in rows.old.items) }
{
    let tail = rows.remove(line);
    row::append(&mut rows[line - 1], tail.as_slice());
}

/// Returns the entry of a primitive that is applied to these rows.
pub(crate) fn entry_of(rows: &[Vec<u16>], primitive: &Primitive) -> Entry
    requires { FitsText primitive.now (lines_in rows.now) }
    ensures { result ≡ entry primitive.now (lines_in rows.now) }
{
    match primitive {
        Primitive::Wrap { line, column } => Entry {
            kind: EntryKind::Wrap,
            line: *line,
            column: *column,
            length: 0,
            old: 0,
        },
        Primitive::Unwrap { line } => Entry {
            kind: EntryKind::Unwrap,
            line: *line,
            column: 0,
            length: 0,
            old: rows[*line as usize - 1].len() as u64,
        },
        Primitive::Insert { line, column, text } => Entry {
            kind: EntryKind::Insert,
            line: *line,
            column: *column,
            length: text.len(),
            old: rows[*line as usize].len() as u64,
        },
        Primitive::Remove {
            line,
            column,
            length,
        } => Entry {
            kind: EntryKind::Remove,
            line: *line,
            column: *column,
            length: *length,
            old: 0,
        },
    }
}

/// Makes room for `added` more units in a row.
fn grow(rows: &mut Vec<Vec<u16>>, line: usize, added: usize) -> Result<(), AllocError>
    requires { line < vec_len rows.old }
    ensures ok { OnOk result
        (length (row_at rows.old.items line) + added ≤ capacity_at rows.new.items line) }
    ensures rows { OnlyGrows rows.old rows.new }
{
    rows[line].try_reserve(added)
}

/// Makes room for a primitive. Capacity never shrinks, even on error.
pub(crate) fn reserve(
    rows: &mut Vec<Vec<u16>>,
    fresh: &mut Vec<u16>,
    primitive: &Primitive,
) -> Result<(), AllocError>
    requires fits { FitsText primitive.now (lines_in rows.old.items) }
    requires empty { fresh.old.items ≡ [] }
    ensures ok { OnOk result
        (HasRoom (entry primitive.now (lines_in rows.old.items)) rows.new fresh.new) }
    ensures rows { OnlyGrows rows.old rows.new }
    ensures empty { fresh.new.items ≡ [] }
    ensures fresh { vec_capacity fresh.old ≤ vec_capacity fresh.new }
{
    match primitive {
        Primitive::Wrap { line, column } => {
            fresh.try_reserve(rows[*line as usize].len() - *column as usize)?;
            rows.try_reserve(1)
        }
        Primitive::Unwrap { line } => {
            let added = rows[*line as usize].len();
            grow(rows, *line as usize - 1, added)
        }
        Primitive::Insert { line, text, .. } => grow(rows, *line as usize, text.len() as usize),
        Primitive::Remove { .. } => Ok(()),
    }
}

/// Applies a primitive. There is room for it.
pub(crate) fn apply(rows: &mut Vec<Vec<u16>>, fresh: &mut Vec<u16>, primitive: &Primitive)
    requires fits { FitsText primitive.now (lines_in rows.old.items) }
    requires room { HasRoom (entry primitive.now (lines_in rows.old.items)) rows.old fresh.old }
    requires empty { fresh.old.items ≡ [] }
    ensures lines { lines_in rows.new.items ≡ after primitive.now (lines_in rows.old.items) }
    ensures empty { fresh.new.items ≡ [] }
    ensures line { HasLine primitive.now }
{
    match primitive {
        Primitive::Wrap { line, column } => {
            let empty = Vec::new(*fresh.allocator());
            let row = mem::replace(fresh, empty);
            wrap(rows, *line as usize, *column as usize, row);
        }
        Primitive::Unwrap { line } => unwrap(rows, *line as usize),
        Primitive::Insert { line, column, text } => {
            insert_units(rows, *line as usize, *column as usize, text.units());
        }
        Primitive::Remove {
            line,
            column,
            length,
        } => remove_units(rows, *line as usize, *column as usize, *length as usize),
    }
}

/// Returns the size of a text after a primitive, from its size before.
pub(crate) fn size_after(size: u64, primitive: &Primitive) -> u64
    requires room { size + length (given primitive.now) ≤ MAX_SIZE }
    requires there { taken_by primitive.now ≤ size }
    ensures { result + taken_by primitive.now ≡ size + length (given primitive.now) }
{
    match primitive {
        Primitive::Wrap { .. } => size + 1,
        Primitive::Unwrap { .. } => size - 1,
        Primitive::Insert { text, .. } => size + text.len(),
        Primitive::Remove { length, .. } => size - *length,
    }
}

/// Returns the rows of these lines.
pub(crate) fn of_lines(alloc: Global, lines: Vec<Line>) -> Result<Vec<Vec<u16>>, AllocError>
    ensures { IfOk result (λ rows. lines_in rows.items ≡ lines.items) }
{
    let mut rows = Vec::with_capacity(alloc, lines.len())?;
    for line in lines {
        rows.push(line.into_units())?;
    }
    Ok(rows)
}

/// Returns a copy of the text of these rows.
pub(crate) fn copy_text(alloc: Global, rows: &[Vec<u16>]) -> Result<Text, AllocError>
    requires { IsText (lines_in rows.now) }
    ensures { IfOk result (λ text. text ≡ lines_in rows.now) }
{
    let mut text = Text::of(alloc, Line::of_units(alloc, rows[0].as_slice())?)?;
    for row in &rows[1..] {
        text.push(Line::of_units(alloc, row.as_slice())?)?;
    }
    Ok(text)
}
