ghost use Rattle.std.specs.Prelude.{◌≡◌, None, IsTrue, IfSome};
ghost use Rattle.kte_place.specs.Place.{at};
ghost use Rattle.kte_place.specs.declared.span.Empty.TheVariants.{Void};
ghost use Rattle.kte_place.specs.Entry.{EntryFits, PlaceFits};
ghost use Rattle.kte_place.specs.Span.{between, carry_span};
ghost use Rattle.kte_fold.specs.Folds.{has_span, is_in_text};
ghost use Rattle.kte_fold.specs.Laws.{IsEntryOf, grows_at_no_end};
ghost use Rattle.kte_fold.specs.Examples.{three_spans};
ghost use Rattle.kte_fold.specs.Tree.{KeepsTree};

use crate::laws::carrying;
use crate::walk::is_in_text;
use crate::*;
use kte_place::{Empty, Entry, EntryKind, Expand, MAX_COLUMN, MAX_LENGTH, Place, Span, Spanned};
use kte_text::{Lines, LoadFault, Text, load};
use std::alloc::{AllocError, Global};
use std::test::Fail;

/// The ranges 1 to 3, each valid or not.
#[derive(Drop)]
struct Ranges {
    one: Option<Span>,
    two: Option<Span>,
    three: Option<Span>,
}

impl Spanned for Ranges {
    ghost spans = { λ r. three_spans r.one r.two r.three };

    fn span(&self, id: u64) -> Option<Span> {
        match id {
            1 => self.one,
            2 => self.two,
            3 => self.three,
            _ => None,
        }
    }
}

/// A span from a line and a column to a line and a column.
fn span(start: (u32, u64), end: (u32, u64)) -> Span
    ensures { result ≡ between (at start.0 start.1) (at end.0 end.1) }
{
    let start = Place {
        line: start.0,
        column: start.1,
    };
    let end = Place {
        line: end.0,
        column: end.1,
    };
    Span::new(start, end)
}

/// Four lines of one letter each.
fn four_lines(alloc: Global) -> Result<Text, LoadFault> {
    Ok(load(alloc, b"a\nb\nc\nd")?.text)
}

fn no_folds<S: Spanned>(alloc: Global, spans: &S) -> Folds
    ensures { KeepsTree (S.spans spans.now) result.numbers result.inside }
{
    let _ = spans;
    Folds::new(alloc)
}

/// Folds the range of this number, if it is valid and allowed. Returns why it is not allowed.
fn fold<S: Spanned>(
    folds: &mut Folds,
    text: &Text,
    spans: &S,
    id: u64,
) -> Result<Option<FoldRefused>, AllocError>
    requires { KeepsTree (S.spans spans.now) folds.old.numbers folds.old.inside }
    ensures { KeepsTree (S.spans spans.now) folds.new.numbers folds.new.inside }
{
    let Some(span) = spans.span(id) else {
        return Ok(None);
    };
    if let Err(refused) = folds.allow(text, spans, span) {
        return Ok(Some(refused));
    }
    if !folds.is_fold(id) {
        folds.reserve()?;
        folds.add(spans, id);
    }
    Ok(None)
}

/// Removes a fold.
fn unfold<S: Spanned>(folds: &mut Folds, spans: &S, id: u64) -> Option<NoFold>
    requires { KeepsTree (S.spans spans.now) folds.old.numbers folds.old.inside }
    ensures { KeepsTree (S.spans spans.now) folds.new.numbers folds.new.inside }
{
    let _ = spans;
    folds.remove(id).err()
}

/// The entry of a line that is joined to the one before it, which has this length.
fn unwrap(line: u32, old: u64) -> Entry {
    Entry {
        kind: EntryKind::Unwrap,
        line,
        column: 0,
        length: 0,
        old,
    }
}

/// The entry of so many units that are removed from a column on.
fn removal(line: u32, column: u64, length: u64) -> Entry {
    Entry {
        kind: EntryKind::Remove,
        line,
        column,
        length,
        old: 0,
    }
}

/// Whether an entry is one of a text, and places can be carried over it.
fn is_entry_of(text: &Text, entry: Entry) -> bool
    ensures entry { IsTrue result → IsEntryOf text.now entry }
    ensures fits { IsTrue result → EntryFits entry }
{
    if entry.line >= text.lines() || entry.length > MAX_LENGTH || entry.old > MAX_LENGTH {
        return false;
    }
    if entry.kind == EntryKind::Unwrap {
        return entry.line > 0 && text.line(entry.line - 1).len() as u64 == entry.old;
    }
    true
}

/// Whether a place is in a text and can be carried.
fn has_place(text: &Text, place: Place) -> bool
    ensures inside { IsTrue result → IsTrue (is_in_text text.now place) }
    ensures fits { IsTrue result → PlaceFits place }
{
    place.line < u32::MAX && place.column <= MAX_COLUMN && is_in_text(text, place)
}

/// Whether a range is in a text and can be carried, if it is valid.
fn is_in(text: &Text, range: Option<Span>) -> bool
    ensures inside { IsTrue result → IfSome range (λ s. IsTrue (has_span text.now s)) }
    ensures fits { IsTrue result → IfSome range (λ s. PlaceFits s.start × PlaceFits s.end) }
{
    match range {
        None => true,
        Some(span) => has_place(text, span.start) && has_place(text, span.end),
    }
}

/// Returns a range after an entry.
fn carried(entry: Entry, range: Option<Span>) -> Option<Span>
    requires entry { EntryFits entry }
    requires range { IfSome range (λ s. PlaceFits s.start × PlaceFits s.end) }
    ensures { result ≡ carry_span entry range grows_at_no_end Void }
{
    let expand = Expand {
        left: false,
        right: false,
    };
    match range {
        None => None,
        Some(span) => entry.carry_span(span, expand, Empty::Void),
    }
}

/// Carries the ranges over an entry. Returns whether the entry is one of the text and the ranges
/// are in it; else they are unchanged.
fn carry(ranges: &mut Ranges, folds: &Folds, text: &Text, entry: Entry) -> bool
    requires { KeepsTree (three_spans ranges.old.one ranges.old.two ranges.old.three)
        folds.now.numbers folds.now.inside }
    ensures { KeepsTree (three_spans ranges.new.one ranges.new.two ranges.new.three)
        folds.now.numbers folds.now.inside }
{
    let _ = folds;
    carrying();
    if !is_entry_of(text, entry) {
        return false;
    }
    if !is_in(text, ranges.one) || !is_in(text, ranges.two) || !is_in(text, ranges.three) {
        return false;
    }
    ranges.one = carried(entry, ranges.one);
    ranges.two = carried(entry, ranges.two);
    ranges.three = carried(entry, ranges.three);
    true
}

#[test]
fn a_crossing_fold_is_refused_and_an_unfolded_one_hides_nothing(
    rt: HostRuntime,
) -> Result<(), Fail> {
    let text = four_lines(rt.alloc())?;
    let ranges = Ranges {
        one: Some(span((0, 1), (2, 0))),
        two: Some(span((1, 0), (3, 1))),
        three: None,
    };
    let mut folds = no_folds(rt.alloc(), &ranges);
    assert_eq!(rt; fold(&mut folds, &text, &ranges, 1)?, None);
    let refused = fold(&mut folds, &text, &ranges, 2)?;
    assert_eq!(rt; refused, Some(FoldRefused::Crosses { id: 1 }));
    for (line, visible) in [(0, Some(0)), (1, None), (2, None), (3, Some(1))] {
        assert_eq!(rt; folds.hidden(&ranges, line), visible.is_none());
        assert_eq!(rt; folds.visible_of(&ranges, line), visible);
    }
    assert_eq!(rt; folds.line_of(&ranges, 4, 1), Some(3));
    assert_eq!(rt; folds.line_of(&ranges, 4, 2), None);
    assert_eq!(rt; unfold(&mut folds, &ranges, 1), None);
    assert_eq!(rt; unfold(&mut folds, &ranges, 1), Some(NoFold { id: 1 }));
    for line in 0..4u32 {
        assert_eq!(rt; folds.visible_of(&ranges, line), Some(line));
    }
    Ok(())
}

#[test]
fn folds_touch_nest_and_share_their_ends(rt: HostRuntime) -> Result<(), Fail> {
    let text = four_lines(rt.alloc())?;
    let crosses = Some(FoldRefused::Crosses { id: 1 });
    let rows = [
        ((2, 0), (3, 0), None),
        ((0, 0), (1, 0), None),
        ((1, 1), (1, 1), Some(FoldRefused::EmptySpan)),
        ((1, 1), (2, 0), None),
        ((1, 0), (1, 1), None),
        ((1, 0), (2, 0), None),
        ((0, 0), (3, 1), None),
        ((0, 1), (1, 1), crosses),
        ((1, 1), (3, 0), crosses),
        ((3, 0), (4, 0), Some(FoldRefused::OutOfText)),
        ((0, 2), (3, 0), Some(FoldRefused::OutOfText)),
        ((4, 0), (4, 0), Some(FoldRefused::OutOfText)),
    ];
    for (start, end, want) in rows {
        let ranges = Ranges {
            one: Some(span((1, 0), (2, 0))),
            two: Some(span(start, end)),
            three: None,
        };
        let mut folds = no_folds(rt.alloc(), &ranges);
        assert_eq!(rt; fold(&mut folds, &text, &ranges, 1)?, None);
        assert_eq!(rt; fold(&mut folds, &text, &ranges, 2)?, want);
        assert_eq!(rt; folds.is_fold(2), want.is_none());
        assert!(rt; folds.hidden(&ranges, 2));
    }
    Ok(())
}

#[test]
fn an_outer_fold_goes_and_the_inner_ones_stay(rt: HostRuntime) -> Result<(), Fail> {
    let text = four_lines(rt.alloc())?;
    let ranges = Ranges {
        one: Some(span((0, 0), (1, 0))),
        two: Some(span((2, 0), (3, 0))),
        three: Some(span((0, 0), (3, 1))),
    };
    let mut folds = no_folds(rt.alloc(), &ranges);
    assert_eq!(rt; fold(&mut folds, &text, &ranges, 2)?, None);
    assert_eq!(rt; fold(&mut folds, &text, &ranges, 1)?, None);
    assert_eq!(rt; fold(&mut folds, &text, &ranges, 3)?, None);
    assert_eq!(rt; folds.visible_of(&ranges, 2), None);
    assert_eq!(rt; folds.line_of(&ranges, 4, 1), None);
    assert_eq!(rt; unfold(&mut folds, &ranges, 3), None);
    assert_eq!(rt; folds.visible_of(&ranges, 2), Some(1));
    assert_eq!(rt; folds.line_of(&ranges, 4, 1), Some(2));
    assert_eq!(rt; unfold(&mut folds, &ranges, 1), None);
    assert_eq!(rt; folds.visible_of(&ranges, 2), Some(2));
    Ok(())
}

#[test]
fn a_fold_of_removed_text_hides_nothing_and_can_be_removed(rt: HostRuntime) -> Result<(), Fail> {
    let text = four_lines(rt.alloc())?;
    let mut ranges = Ranges {
        one: Some(span((0, 1), (2, 0))),
        two: Some(span((1, 0), (1, 1))),
        three: Some(span((1, 0), (3, 0))),
    };
    let mut folds = no_folds(rt.alloc(), &ranges);
    assert_eq!(rt; fold(&mut folds, &text, &ranges, 1)?, None);
    assert_eq!(rt; fold(&mut folds, &text, &ranges, 2)?, None);
    let refused = fold(&mut folds, &text, &ranges, 3)?;
    assert_eq!(rt; refused, Some(FoldRefused::Crosses { id: 1 }));
    // Line 1 is joined to line 0 and its unit removed, so that the inner fold is empty.
    assert!(rt; carry(&mut ranges, &folds, &text, unwrap(1, 1)));
    let text = load(rt.alloc(), b"ab\nc\nd")?.text;
    assert_eq!(rt; ranges.two, Some(span((0, 1), (0, 2))));
    assert!(rt; carry(&mut ranges, &folds, &text, removal(0, 1, 1)));
    let text = load(rt.alloc(), b"a\nc\nd")?.text;
    assert_eq!(rt; ranges.two, None);
    assert_eq!(rt; ranges.one, Some(span((0, 1), (1, 0))));
    assert_eq!(rt; folds.visible_of(&ranges, 1), None);
    assert_eq!(rt; folds.line_of(&ranges, 3, 1), Some(2));
    // The next line is joined too, so that the outer fold is empty.
    assert!(rt; carry(&mut ranges, &folds, &text, unwrap(1, 1)));
    let text = load(rt.alloc(), b"ac\nd")?.text;
    assert_eq!(rt; ranges.one, None);
    for line in 0..2u32 {
        assert!(rt; !folds.hidden(&ranges, line));
        assert_eq!(rt; folds.visible_of(&ranges, line), Some(line));
        assert_eq!(rt; folds.line_of(&ranges, 2, line), Some(line));
    }
    assert_eq!(rt; fold(&mut folds, &text, &ranges, 3)?, None);
    for id in 1..3u64 {
        assert!(rt; folds.is_fold(id));
        assert_eq!(rt; unfold(&mut folds, &ranges, id), None);
        assert_eq!(rt; unfold(&mut folds, &ranges, id), Some(NoFold { id }));
    }
    assert!(rt; folds.hidden(&ranges, 1));
    Ok(())
}
