ghost use Rattle.std.specs.Prelude.{◌≡◌, ℕ, List, IfOk, MatchOption};
ghost use Rattle.kte_text.specs.Units.{IsLine, utf8_of};
ghost use Rattle.kte_text.specs.declared.primitive.Primitive.{Primitive};
ghost use Rattle.kte_record.specs.Grammar.{item_of, removes};
ghost use Rattle.kte_record.specs.Transactions.{IsWritable, record_of};

use kte_record::Record;
use kte_text::{Line, LineFault, Primitive};
use std::alloc::{AllocError, Global};

/// Returns the primitive of a record, if it is that of one: the text of an insertion must be UTF-8
/// without line ends, and the columns of a removal in order.
pub(crate) fn primitive_of(alloc: Global, item: &Record) -> Result<Option<Primitive>, AllocError>
    ensures { IfOk result (λ found. MatchOption found
        ((p : Primitive) → IsWritable p → item_of item.now ≡ record_of p → ⊥)
        (λ p. item_of item.now ≡ record_of p)) }
{
    match item {
        Record::Start | Record::Finish => Ok(None),
        Record::Wrap { line, column } => Ok(Some(Primitive::Wrap {
            line: *line,
            column: *column as u64,
        })),
        Record::Unwrap { line } => Ok(Some(Primitive::Unwrap { line: *line })),
        Record::Insert { line, column, text } => match line_of(alloc, text)? {
            Some(text) => Ok(Some(Primitive::Insert {
                line: *line,
                column: *column as u64,
                text,
            })),
            None => Ok(None),
        },
        Record::Remove { line, start, end } => Ok(removal(*line, *start, *end)),
    }
}

// The removal of the units between two columns, unless these are in reverse.
fn removal(line: u32, start: u32, end: u32) -> Option<Primitive>
    ensures { MatchOption result
        ((p : Primitive) → removes line start end ≡ record_of p → ⊥)
        (λ p. removes line start end ≡ record_of p) }
{
    let length = end.checked_sub(start)?;
    Some(Primitive::Remove {
        line,
        column: start as u64,
        length: length as u64,
    })
}

// The line of these bytes, unless they are not UTF-8 or hold a line end.
fn line_of(alloc: Global, bytes: &[u8]) -> Result<Option<Line>, AllocError>
    ensures { IfOk result (λ found. MatchOption found
        ((units : List ℕ) → IsLine units → utf8_of units ≡ bytes.now → ⊥)
        (λ line. utf8_of line ≡ bytes.now)) }
{
    let Ok(text) = simdutf8::compat::from_utf8(bytes) else {
        return Ok(None);
    };
    match Line::from_utf8(alloc, text) {
        Ok(line) => Ok(Some(line)),
        Err(LineFault::HasEnd { .. }) => Ok(None),
        Err(LineFault::NoMemory) => Err(AllocError),
    }
}
