ghost use Rattle.std.specs.Prelude.{◌≡◌, ◌+◌, IfOk, None, take, drop};
ghost use Rattle.kte_text.specs.Units.{IsLine, IsBoundary};
ghost use Rattle.kte_text.specs.Texts.{IsText};
ghost use Rattle.kte_text.specs.Primitives.{misfit};
ghost use Rattle.kte_recover.specs.Inverse.{inverse};

use kte_buffer::Buffer;
use kte_text::{Line, Lines, Primitive};
use std::alloc::{AllocError, Global};

/// Returns the primitive that takes back one that fits the buffer's text, and is about to be
/// applied to it.
pub(crate) fn inverse(
    alloc: Global,
    buffer: &Buffer,
    primitive: &Primitive,
) -> Result<Primitive, AllocError>
    requires text { IsText buffer.now.text }
    requires fits { misfit primitive.now buffer.now.text ≡ None }
    ensures { IfOk result (λ back. back ≡ inverse primitive.now buffer.now.text) }
{
    match primitive {
        Primitive::Wrap { line, .. } => Ok(Primitive::Unwrap { line: *line + 1 }),
        Primitive::Unwrap { line } => {
            let line = *line - 1;
            Ok(Primitive::Wrap {
                line,
                column: buffer.line(line).len() as u64,
            })
        }
        Primitive::Insert { line, column, text } => Ok(Primitive::Remove {
            line: *line,
            column: *column,
            length: text.len(),
        }),
        Primitive::Remove {
            line,
            column,
            length,
        } => Ok(Primitive::Insert {
            line: *line,
            column: *column,
            text: removed(alloc, buffer.line(*line), *column, *length)?,
        }),
    }
}

// The line of the units that a removal takes out.
fn removed(alloc: Global, units: &[u16], column: u64, length: u64) -> Result<Line, AllocError>
    requires line { IsLine units.now }
    requires first { IsBoundary units.now column }
    requires last { IsBoundary units.now (column + length) }
    ensures { IfOk result (λ line. line ≡ take length (drop column units.now)) }
{
    let (start, end) = (column as usize, (column + length) as usize);
    Line::of_units(alloc, &units[start..end])
}
