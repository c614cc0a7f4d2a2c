//! The lists of the folds: where a number is, where a new one goes, and what a removal leaves.
ghost use Rattle.std.specs.Prelude.{◌≡◌, ◌<◌, ◌≤◌, ◌+◌, ℕ, length, slice_index, IfSome, IfNone, IsTrue, false, None};
ghost use Rattle.kte_fold.specs.Folds.{is_fold, least_crossed};
ghost use Rattle.kte_fold.specs.Tree.{KeepsTree};
ghost use Rattle.kte_fold.specs.Inside.{IsOutline, Left, KeepsTreeFrom, Descended, AreApart, LieInside, Follow};

use crate::walk::{lies_in, precedes};
use kte_place::{Span, Spanned};

/// Where a new fold goes in the outline.
#[derive(Clone, Copy)]
pub(crate) struct Seat {
    /// The place at which it is inserted.
    pub(crate) at: usize,
    /// The end of what is inside the innermost fold that holds it.
    pub(crate) end: usize,
}

/// Returns the place of a number.
pub(crate) fn position(numbers: &[u64], id: u64) -> Option<usize>
    ensures found { IfSome result
        (λ at. (at < length numbers.now) × (slice_index numbers.now at ≡ id)) }
    ensures absent { IfNone result (is_fold numbers.now id ≡ false) }
{
    for (at, number) in numbers.iter().enumerate() {
        if *number == id {
            return Some(at);
        }
    }
    None
}

/// Counts one fold less inside each fold that holds the one at a place.
pub(crate) fn leave(inside: &mut [usize], at: usize)
    requires { at ≤ length inside.old }
    ensures before { (k : ℕ) → k < at →
        Left at k (slice_index inside.old k) (slice_index inside.new k) }
    ensures after { (k : ℕ) → at ≤ k → slice_index inside.new k ≡ slice_index inside.old k }
{
    for k in 0..at {
        if inside[k] >= at - k {
            inside[k] -= 1;
        }
    }
}

/// Finds where a span goes, and counts one fold more inside each fold that holds it. A fold of the
/// same span holds it.
pub(crate) fn find_seat<S: Spanned>(
    numbers: &[u64],
    inside: &mut [usize],
    spans: &S,
    span: Span,
) -> Seat
    requires outline { IsOutline numbers.now inside.old }
    requires tree { KeepsTree (S.spans spans.now) numbers.now inside.old }
    requires free { least_crossed (S.spans spans.now) span numbers.now ≡ None }
    ensures found { Descended (S.spans spans.now) numbers.now inside.old inside.new span
        result.at result.end }
    ensures apart { AreApart (S.spans spans.now) numbers.now span result.at result.end }
{
    let mut at = 0;
    let mut end = numbers.len();
    while at < end {
        match spans.span(numbers[at]) {
            Some(fold) if !precedes(fold, span) => {
                if !lies_in(span, fold) {
                    break;
                }
                inside[at] += 1;
                end = at + inside[at];
                at += 1;
            }
            _ => at += 1 + inside[at],
        }
    }
    Seat { at, end }
}

/// Returns the place after the folds that lie in a span, from its seat on.
pub(crate) fn end_of_inner<S: Spanned>(
    numbers: &[u64],
    inside: &[usize],
    spans: &S,
    span: Span,
    seat: Seat,
) -> usize
    requires same_length { length inside.now ≡ length numbers.now }
    requires tree { KeepsTreeFrom (S.spans spans.now) numbers.now inside.now seat.at }
    requires ordered { seat.at ≤ seat.end }
    requires bounded { seat.end ≤ length numbers.now }
    requires level { (k : ℕ) → seat.at ≤ k → k < seat.end
        → k + slice_index inside.now k < seat.end }
    requires apart { AreApart (S.spans spans.now) numbers.now span seat.at seat.end }
    ensures after { seat.at ≤ result }
    ensures bounded { result ≤ seat.end }
    ensures inner { LieInside (S.spans spans.now) numbers.now inside.now span seat.at result }
    ensures outer { Follow (S.spans spans.now) numbers.now span result seat.end }
{
    let mut next = seat.at;
    while next < seat.end {
        match spans.span(numbers[next]) {
            Some(fold) if precedes(span, fold) => break,
            _ => next += 1 + inside[next],
        }
    }
    next
}
