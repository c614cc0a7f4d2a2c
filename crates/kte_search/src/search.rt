//! The search of a text.
ghost use Rattle.std.specs.Prelude.{◌≡◌, ◌<◌, ◌↔◌, [], length, IfSome, IfNone, IfOk, IsOk};
ghost use Rattle.kte_search.specs.Matches.{IsFirst, IsLast, AreAll, HasNoneFrom, HasNoneTo, HasNone};
ghost use Rattle.kte_search.specs.Inside.{first_column, last_column};

use crate::query::Query;
use kte_place::{Place, Span, Spans};
use kte_text::Lines;
use std::alloc::{AllocError, Global};

/// The greatest number of matches that [`all`] returns: 4,096.
pub const MAX_MATCHES: u64 = 4_096;

/// Returns the first match that starts at or after a place, or `None` if there is none. The place
/// may be past the end of its line or of the text.
pub fn find<L: Lines>(lines: &L, query: &Query, from: Place) -> Option<Span>
    requires { 0 < length query.now.pattern }
    ensures found { IfSome result (λ span. IsFirst query.now (L.text lines.now) from span) }
    ensures none { IfNone result (HasNoneFrom query.now (L.text lines.now) from) }
{
    let mut hint = 0;
    find_hinted(lines, query, from, &mut hint)
}

/// Returns the match that starts last among those that end at or before a place, or `None` if there
/// is none. The place may be past the end of its line or of the text.
pub fn find_back<L: Lines>(lines: &L, query: &Query, before: Place) -> Option<Span>
    requires { 0 < length query.now.pattern }
    ensures found { IfSome result (λ span. IsLast query.now (L.text lines.now) before span) }
    ensures none { IfNone result (HasNoneTo query.now (L.text lines.now) before) }
{
    let count = lines.lines();
    let after = if before.line < count {
        before.line + 1
    } else {
        count
    };
    let mut hint = 0;
    for line in (0..after).rev() {
        let units = lines.line_hinted(line, &mut hint);
        let end = last_column(before, line, units);
        if let Some(column) = query.last_in(units, end) {
            return Some(query.span_at(line, column, units));
        }
    }
    None
}

/// Returns the matches from left to right: the first one, and then each time the first that starts
/// at or after the end of the one before, at most [`MAX_MATCHES`] of them. Fails if out of memory.
pub fn all<L: Lines>(alloc: Global, lines: &L, query: &Query) -> Result<Spans, AllocError>
    requires { 0 < length query.now.pattern }
    ensures all { IfOk result (λ spans. AreAll query.now (L.text lines.now) spans) }
    ensures none { IfOk result (λ spans.
        (spans ≡ []) ↔ HasNone query.now (L.text lines.now)) }
    ensures refused { HasNone query.now (L.text lines.now) → IsOk result }
{
    let mut spans = Spans::new(alloc);
    let mut from = Place { line: 0, column: 0 };
    let mut hint = 0;
    for _ in 0..MAX_MATCHES {
        let Some(span) = find_hinted(lines, query, from, &mut hint) else {
            return Ok(spans);
        };
        spans.push(span)?;
        from = span.end;
    }
    Ok(spans)
}

/// Does the work of [`find`] in a walk that goes on: the hint is the one of [`Lines::line_hinted`].
fn find_hinted<L: Lines>(lines: &L, query: &Query, from: Place, hint: &mut u64) -> Option<Span>
    ensures found { IfSome result (λ span. IsFirst query.now (L.text lines.now) from span) }
    ensures none { IfNone result (HasNoneFrom query.now (L.text lines.now) from) }
{
    for line in from.line..lines.lines() {
        let units = lines.line_hinted(line, hint);
        if let Some(column) = query.first_in(units, first_column(from, line)) {
            return Some(query.span_at(line, column, units));
        }
    }
    None
}

/// Returns the column from which a line is searched.
fn first_column(from: Place, line: u32) -> u64
    ensures { result ≡ first_column from line }
{
    if line == from.line { from.column } else { 0 }
}

/// Returns the column up to which a line is searched.
fn last_column(before: Place, line: u32, units: &[u16]) -> u64
    ensures { result ≡ last_column before line units.now }
{
    if line == before.line {
        before.column
    } else {
        units.len() as u64
    }
}
