ghost use Rattle.std.specs.Prelude.{◌≡◌, ◌≢◌, ◌+◌, ◌<◌, ◌≤◌, ◌↔◌, ◌⊎◌, ℕ, [], length, None, false, IsTrue, IfSome, IsSomeAnd, IsOk, OnOk, OnErr, IfErr};
ghost use Rattle.std.specs.Result.{result_err};
ghost use Rattle.std.specs.FinMap as map;
ghost use Rattle.kte_fold.specs.Folds.{Spans, is_fold, is_hidden, visible_of, least_crossed, refusal, IsLineOf};
ghost use Rattle.kte_fold.specs.Tree.{KeepsTree};

use crate::outline::{end_of_inner, find_seat, leave, position};
use crate::refused::{FoldRefused, NoFold};
use crate::walk::{is_in_text, least_crossed, nth_visible, visible_of};
use kte_place::{Span, Spanned};
use kte_text::Lines;
use std::alloc::{AllocError, Global};
use std::marker::Model;

/// The folds of a text: a tree of numbers of ranges.
#[derive(Debug, Drop)]
pub struct Folds {
    /// In the order of an outline: each before those inside it.
    numbers: Vec<u64>,
    /// How many folds are inside each.
    inside: Vec<usize>,
}

impl Model for Folds {
    ghost use Rattle.std.specs.Prelude.{◌-◌, min, vec_len};
    ghost use Rattle.std.specs.Vec.{vec_capacity};
    ghost use Rattle.kte_fold.specs.Tree.{Outline};
    ghost use Rattle.kte_fold.specs.Inside.{IsOutline};

    ghost Value = { Outline };

    ghost view = { λ f. record {
      numbers = f.numbers.items;
      inside = f.inside.items;
      room = min (vec_capacity f.numbers - vec_len f.numbers)
          (vec_capacity f.inside - vec_len f.inside);
    } };

    ghost invariant = { λ f. IsOutline f.numbers.items f.inside.items };
}

impl Folds {
    /// Creates a text's folds, none, without allocating.
    pub fn new(alloc: Global) -> Folds
        ensures numbers { result.numbers ≡ [] }
        ensures inside { result.inside ≡ [] }
    {
        Folds {
            numbers: Vec::new(alloc),
            inside: Vec::new(alloc),
        }
    }

    /// Checks whether a span may be folded. Fails with the first cause in the order of
    /// [`FoldRefused`]. Takes no memory.
    pub fn allow<L: Lines, S: Spanned>(
        &self,
        lines: &L,
        spans: &S,
        span: Span,
    ) -> Result<(), FoldRefused>
        requires { KeepsTree (S.spans spans.now) self.now.numbers self.now.inside }
        ensures { result_err result
            ≡ refusal (L.text lines.now) (S.spans spans.now) self.now.numbers span }
    {
        if !is_in_text(lines, span.start) || !is_in_text(lines, span.end) {
            return Err(FoldRefused::OutOfText);
        }
        if span.end <= span.start {
            return Err(FoldRefused::EmptySpan);
        }
        match least_crossed(self.numbers.as_slice(), self.inside.as_slice(), spans, span) {
            Some(id) => Err(FoldRefused::Crosses { id }),
            None => Ok(()),
        }
    }

    /// Makes room for one `add`. Fails if out of memory; the folds are unchanged then.
    pub fn reserve(&mut self) -> Result<(), AllocError>
        ensures ok { OnOk result (1 ≤ self.new.room) }
        ensures ready { 1 ≤ self.old.room → IsOk result }
        ensures grows { self.old.room ≤ self.new.room }
        ensures same { self.new ≡ record self.old { room = self.new.room } }
    {
        self.numbers.reserve(1)?;
        self.inside.reserve(1)
    }

    /// Adds the fold of a range. Takes no memory.
    pub fn add<S: Spanned>(&mut self, spans: &S, id: u64)
        requires room { 1 ≤ self.old.room }
        requires tree { KeepsTree (S.spans spans.now) self.old.numbers self.old.inside }
        requires new { is_fold self.old.numbers id ≡ false }
        requires allowed { IsSomeAnd (map.get (S.spans spans.now) id)
            (λ s. least_crossed (S.spans spans.now) s self.old.numbers ≡ None) }
        ensures added { (n : ℕ) → IsTrue (is_fold self.new.numbers n)
            ↔ ((n ≡ id) ⊎ IsTrue (is_fold self.old.numbers n)) }
        ensures tree { KeepsTree (S.spans spans.now) self.new.numbers self.new.inside }
        ensures room { self.old.room ≡ self.new.room + 1 }
    {
        let span = spans.span(id).unwrap();
        let seat = find_seat(
            self.numbers.as_slice(),
            self.inside.as_mut_slice(),
            spans,
            span,
        );
        let next = end_of_inner(
            self.numbers.as_slice(),
            self.inside.as_slice(),
            spans,
            span,
            seat,
        );
        self.numbers.insert(seat.at, id).unwrap();
        self.inside.insert(seat.at, next - seat.at).unwrap();
    }

    /// Removes a fold; those inside it stay, inside the fold that held it, if any. Fails if there
    /// is no such fold; nothing has changed then. Takes no memory.
    pub fn remove(&mut self, id: u64) -> Result<(), NoFold>
        ensures fold { OnOk result (IsTrue (is_fold self.old.numbers id)) }
        ensures no_fold { IfErr result
            (λ fault. (fault.id ≡ id) × (is_fold self.old.numbers id ≡ false)) }
        ensures removed { OnOk result ((n : ℕ) → IsTrue (is_fold self.new.numbers n)
            ↔ ((n ≢ id) × IsTrue (is_fold self.old.numbers n))) }
        ensures tree { (spans : Spans) → KeepsTree spans self.old.numbers self.old.inside
            → KeepsTree spans self.new.numbers self.new.inside }
        ensures err { OnErr result (self.new ≡ self.old) }
        ensures room { self.old.room ≤ self.new.room }
    {
        let Some(at) = position(self.numbers.as_slice(), id) else {
            return Err(NoFold { id });
        };
        leave(self.inside.as_mut_slice(), at);
        self.numbers.remove(at);
        self.inside.remove(at);
        Ok(())
    }

    /// Whether a fold has this number, valid or not.
    pub fn is_fold(&self, id: u64) -> bool
        ensures { result ≡ is_fold self.now.numbers id }
    {
        position(self.numbers.as_slice(), id).is_some()
    }

    /// Whether a line is hidden: a valid fold starts before it, and ends on it or later. Takes no
    /// memory.
    pub fn hidden<S: Spanned>(&self, spans: &S, line: u32) -> bool
        requires { KeepsTree (S.spans spans.now) self.now.numbers self.now.inside }
        ensures { result ≡ is_hidden (S.spans spans.now) self.now.numbers line }
    {
        self.visible_of(spans, line).is_none()
    }

    /// Returns the number of lines before a line that are not hidden, or `None` if the line itself
    /// is hidden. Takes no memory.
    pub fn visible_of<S: Spanned>(&self, spans: &S, line: u32) -> Option<u32>
        requires { KeepsTree (S.spans spans.now) self.now.numbers self.now.inside }
        ensures { result ≡ visible_of (S.spans spans.now) self.now.numbers line }
    {
        visible_of(self.numbers.as_slice(), self.inside.as_slice(), spans, line)
    }

    /// Returns the line, of so many lines, with this number of lines before it that are not hidden,
    /// itself not hidden, or `None` if there are not so many. Takes no memory.
    pub fn line_of<S: Spanned>(&self, spans: &S, lines: u32, visible: u32) -> Option<u32>
        requires { KeepsTree (S.spans spans.now) self.now.numbers self.now.inside }
        ensures { IsLineOf (S.spans spans.now) self.now.numbers lines visible result }
    {
        let line = nth_visible(
            self.numbers.as_slice(),
            self.inside.as_slice(),
            spans,
            visible,
        );
        if line < u64::from(lines) {
            Some(line as u32)
        } else {
            None
        }
    }
}
