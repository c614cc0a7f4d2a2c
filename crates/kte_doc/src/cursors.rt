//! The two cursors of a range.
ghost use Rattle.std.specs.Prelude.{◌≡◌, ◌≢◌, ℕ, length, None, Some, IfOk, IfSome, IsOk, OnErr, IsTrue, IsSome, if◌then◌else◌};
ghost use Rattle.std.specs.FinMap as map;
ghost use Rattle.kte_place.specs.Span.{made};
ghost use Rattle.kte_ranges.specs.Cursors.{is_among};
ghost use Rattle.kte_place.specs.Ends.{SpanIsInReach};
ghost use Rattle.kte_doc.specs.Hanging.{CanHang, HangsNew, HungAt};

use kte_buffer::Buffer;
use kte_place::{Cursors, Empty, Expand, Span, settle};
use kte_text::Lines;
use std::alloc::AllocError;

/// Hangs the cursors of a range that is made at a span of the buffer's text; none if it is invalid,
/// which does not allocate. Fails if out of memory; the cursors are then unchanged.
pub(crate) fn hang(
    buffer: &mut Buffer,
    span: Span,
    expand: Expand,
    empty: Empty,
) -> Result<Option<(u64, u64)>, AllocError>
    requires { SpanIsInReach span }
    ensures cursors { IfOk result (λ cursors. HangsNew buffer.old.hung buffer.new.hung expand
        cursors (made (length buffer.old.text) span empty)) }
    ensures text { buffer.new.text ≡ buffer.old.text }
    ensures invalid { made (length buffer.old.text) span empty ≡ None → IsOk result }
    ensures err { OnErr result (buffer.new.hung ≡ buffer.old.hung) }
{
    let lines = buffer.lines();
    if span.start.line >= lines || span.end.line >= lines {
        return Ok(None);
    }
    hang_at(buffer, settle(span.start, span.end, empty), expand)
}

/// Hangs the cursors of a range that is at a span; none if it is invalid, which does not allocate.
/// Fails if out of memory; the cursors are then unchanged.
pub(crate) fn hang_at(
    buffer: &mut Buffer,
    span: Option<Span>,
    expand: Expand,
) -> Result<Option<(u64, u64)>, AllocError>
    requires within { IfSome span (CanHang (length buffer.old.text)) }
    ensures cursors { IfOk result
        (λ cursors. HangsNew buffer.old.hung buffer.new.hung expand cursors span) }
    ensures text { buffer.new.text ≡ buffer.old.text }
    ensures invalid { span ≡ None → IsOk result }
    ensures err { OnErr result (buffer.new.hung ≡ buffer.old.hung) }
{
    match span {
        None => Ok(None),
        Some(span) => hang_both(buffer, span, expand).map(Some),
    }
}

/// Hangs two cursors at the ends of a span. Fails if out of memory; the cursors are then unchanged.
fn hang_both(buffer: &mut Buffer, span: Span, expand: Expand) -> Result<(u64, u64), AllocError>
    requires within { CanHang (length buffer.old.text) span }
    ensures cursors { IfOk result
        (λ cursors. HungAt buffer.old.hung buffer.new.hung expand cursors span) }
    ensures text { buffer.new.text ≡ buffer.old.text }
    ensures err { OnErr result (buffer.new.hung ≡ buffer.old.hung) }
{
    let start = buffer.hang(span.start, expand.start())?;
    match buffer.hang(span.end, expand.end()) {
        Ok(end) => Ok((start, end)),
        Err(error) => {
            buffer.unhang(start);
            Err(error)
        }
    }
}

/// Takes out the two cursors of a range, if it has any.
pub(crate) fn unhang(buffer: &mut Buffer, cursors: Option<(u64, u64)>)
    requires hang { (n : ℕ) → IsTrue (is_among cursors n) → IsSome (map.get buffer.old.hung n) }
    requires two { (c : _) → cursors ≡ Some c → c.0 ≢ c.1 }
    ensures hung { (n : ℕ) → map.get buffer.new.hung n
        ≡ (if is_among cursors n then None else map.get buffer.old.hung n) }
    ensures text { buffer.new.text ≡ buffer.old.text }
{
    if let Some((start, end)) = cursors {
        buffer.unhang(start);
        buffer.unhang(end);
    }
}
