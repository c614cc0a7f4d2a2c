//! Walks over the folds that pass over what is inside one where they can.
ghost use Rattle.std.specs.Prelude.{◌≡◌, false, Some, ◌&&◌, IsTrue};
ghost use Rattle.kte_place.specs.Place.{is_at_or_before};
ghost use Rattle.kte_fold.specs.Folds.{is_hidden, visible_before, visible_of, least_crossed, lesser, overlaps, crosses, is_in_text};
ghost use Rattle.kte_fold.specs.Tree.{KeepsTree};
ghost use Rattle.kte_fold.specs.Inside.{IsOutline, is_clear};

use kte_place::{Place, Span, Spanned};
use kte_text::Lines;

/// Whether a place is in a text: its line is there and has its column.
pub(crate) fn is_in_text<L: Lines>(lines: &L, place: Place) -> bool
    ensures { result ≡ is_in_text (L.text lines.now) place }
{
    place.line < lines.lines() && place.column <= lines.line(place.line).len() as u64
}

/// Returns the least number of the folds that cross a span.
pub(crate) fn least_crossed<S: Spanned>(
    numbers: &[u64],
    inside: &[usize],
    spans: &S,
    span: Span,
) -> Option<u64>
    requires outline { IsOutline numbers.now inside.now }
    requires tree { KeepsTree (S.spans spans.now) numbers.now inside.now }
    ensures { result ≡ least_crossed (S.spans spans.now) span numbers.now }
{
    let mut least = None;
    let mut at = 0;
    while at < numbers.len() {
        let id = numbers[at];
        match spans.span(id) {
            Some(fold) if !is_clear(fold, span) => {
                if crosses(fold, span) {
                    least = Some(lesser(id, least));
                }
                at += 1;
            }
            _ => at += 1 + inside[at],
        }
    }
    least
}

/// Returns the lesser of a number and another, if there is another.
fn lesser(id: u64, other: Option<u64>) -> u64
    ensures { result ≡ lesser id other }
{
    match other {
        None => id,
        Some(other) => id.min(other),
    }
}

/// Whether neither a fold nor any fold inside it can cross a span: it lies in the span or has no
/// part of it.
fn is_clear(fold: Span, span: Span) -> bool
    ensures { result ≡ is_clear (Some fold) span }
{
    precedes(fold, span) || precedes(span, fold) || lies_in(fold, span)
}

/// Whether a span ends at or before the start of another.
pub(crate) fn precedes(first: Span, second: Span) -> bool
    ensures value { result ≡ is_at_or_before first.end second.start }
    ensures ordered { IsTrue (is_at_or_before second.start second.end) }
{
    first.end <= second.start
}

/// Whether a span lies in another, which may be equal.
pub(crate) fn lies_in(inner: Span, outer: Span) -> bool
    ensures { result ≡ (is_at_or_before outer.start inner.start
        && is_at_or_before inner.end outer.end) }
{
    outer.start <= inner.start && inner.end <= outer.end
}

/// Whether two spans cross: one starts strictly inside the other, and the other ends strictly
/// inside the first.
fn crosses(a: Span, b: Span) -> bool
    ensures { result ≡ crosses a b }
{
    overlaps(a, b) || overlaps(b, a)
}

/// Whether one span starts strictly inside another, which ends strictly inside the first.
fn overlaps(a: Span, b: Span) -> bool
    ensures { result ≡ overlaps a b }
{
    b.start < a.start && a.start < b.end && a.start < b.end && b.end < a.end
}

/// Returns the number of lines before a line that are not hidden, or `None` if it is hidden itself.
pub(crate) fn visible_of<S: Spanned>(
    numbers: &[u64],
    inside: &[usize],
    spans: &S,
    line: u32,
) -> Option<u32>
    requires outline { IsOutline numbers.now inside.now }
    requires tree { KeepsTree (S.spans spans.now) numbers.now inside.now }
    ensures { result ≡ visible_of (S.spans spans.now) numbers.now line }
{
    let mut hidden = 0;
    let mut at = 0;
    while at < numbers.len() {
        if let Some(fold) = spans.span(numbers[at]) {
            if line <= fold.start.line {
                break;
            }
            if line <= fold.end.line {
                return None;
            }
            hidden += fold.end.line - fold.start.line;
        }
        at += 1 + inside[at];
    }
    Some(line - hidden)
}

/// Returns the line with this number of lines before it that are not hidden, itself not hidden, in
/// a text without end.
pub(crate) fn nth_visible<S: Spanned>(
    numbers: &[u64],
    inside: &[usize],
    spans: &S,
    visible: u32,
) -> u64
    requires outline { IsOutline numbers.now inside.now }
    requires tree { KeepsTree (S.spans spans.now) numbers.now inside.now }
    ensures shown { is_hidden (S.spans spans.now) numbers.now result ≡ false }
    ensures number { visible_before (S.spans spans.now) numbers.now result ≡ visible }
{
    let mut line = u64::from(visible);
    let mut at = 0;
    while at < numbers.len() {
        if let Some(fold) = spans.span(numbers[at]) {
            if line <= u64::from(fold.start.line) {
                break;
            }
            line += u64::from(fold.end.line - fold.start.line);
        }
        at += 1 + inside[at];
    }
    line
}
