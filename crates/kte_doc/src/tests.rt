ghost use Rattle.std.specs.Prelude.{◌≡◌, All, IfOk};
ghost use Rattle.kte_place.specs.Ends.{SpanIsInReach};

use crate::{Doc, DocFault, MakeFault, SetFault};
use kte_history::{NotLocked, NotOwned, Owner};
use kte_place::{Empty, Expand, Place, Span, Spans};
use kte_ranges::{NoRange, RangeKind};
use kte_text::{Lines, Misfit, Primitive, load};
use std::alloc::Global;
use std::process::Abort;
use std::test::Fail;

const NEITHER: Expand = Expand {
    left: false,
    right: false,
};

fn at(line: u32, column: u64) -> Place
    ensures line { result.line ≡ line }
    ensures column { result.column ≡ column }
{
    Place { line, column }
}

/// The document of a file of printable ASCII.
fn document(alloc: Global, file: &[u8]) -> Result<Doc, Fail> {
    Ok(Doc::new(alloc, load(alloc, file)?.text, 8)?)
}

/// Makes a range of the user's.
fn make(
    rt: &impl Abort,
    doc: &mut Doc,
    span: Span,
    expand: Expand,
    empty: Empty,
) -> Result<u64, Fail>
    requires { SpanIsInReach span }
{
    assert!(rt; doc.next_id() < 1 << 63);
    Ok(doc.make_range(span, expand, empty, RangeKind::User)?)
}

/// Returns an empty list of spans.
fn no_spans(alloc: Global) -> Spans
    ensures { All SpanIsInReach result }
{
    Spans::new(alloc)
}

/// Returns the list of one span.
fn one_span(alloc: Global, span: Span) -> Result<Spans, Fail>
    requires { SpanIsInReach span }
    ensures { IfOk result (λ spans. All SpanIsInReach spans) }
{
    let mut spans = Spans::new(alloc);
    spans.push(span)?;
    Ok(spans)
}

/// Returns the list of two spans.
fn two_spans(alloc: Global, first: Span, second: Span) -> Result<Spans, Fail>
    requires first { SpanIsInReach first }
    requires second { SpanIsInReach second }
    ensures { IfOk result (λ spans. All SpanIsInReach spans) }
{
    let mut spans = one_span(alloc, first)?;
    spans.push(second)?;
    Ok(spans)
}

/// Makes ranges of a job of spans of the text at a revision.
fn make_at(
    rt: &(impl Abort + AllocGlobal),
    doc: &mut Doc,
    revision: u64,
    spans: &Spans,
) -> Result<u64, MakeFault>
    requires { All SpanIsInReach spans.now }
{
    assert!(rt; doc.next_id() < 1 << 62);
    assert!(rt; spans.len() < 1 << 62);
    let kind = RangeKind::Job { job: 7 };
    doc.make_at(rt.alloc(), revision, spans, NEITHER, Empty::Void, kind)
}

/// Inserts letters into line 0.
fn insert(
    rt: &(impl Abort + AllocGlobal),
    doc: &mut Doc,
    column: u64,
    letters: &[u8],
) -> Result<(), Fail> {
    let mut lines = load(rt.alloc(), letters)?.text.into_lines();
    let text = lines.pop().ok_or("no line")?;
    let insert = Primitive::Insert {
        line: 0,
        column,
        text,
    };
    assert!(rt; !insert.is_empty());
    doc.primitive(&insert)?;
    Ok(())
}

#[test]
fn a_range_grows_as_it_was_made_to(rt: HostRuntime) -> Result<(), Fail> {
    let mut doc = document(rt.alloc(), b"xabx")?;
    let table = [
        (false, false, 2, 4),
        (true, false, 1, 4),
        (false, true, 2, 5),
        (true, true, 1, 5),
    ];
    for (left, right, _, _) in table {
        let ab = Span::new(at(0, 1), at(0, 3));
        make(&rt, &mut doc, ab, Expand { left, right }, Empty::Allow)?;
    }
    insert(&rt, &mut doc, 3, b"R")?;
    insert(&rt, &mut doc, 1, b"L")?;
    for (n, (_, _, start, end)) in table.into_iter().enumerate() {
        let grown = Span::new(at(0, start), at(0, end));
        assert_eq!(rt; doc.range(n as u64 + 1), Ok(Some(grown)));
    }
    Ok(())
}

#[test]
fn an_empty_range_moves_behind_what_is_inserted(rt: HostRuntime) -> Result<(), Fail> {
    let mut doc = document(rt.alloc(), b"abcd")?;
    let empty = Span::new(at(0, 2), at(0, 2));
    let id = make(&rt, &mut doc, empty, NEITHER, Empty::Allow)?;
    insert(&rt, &mut doc, 2, b"xyz")?;
    let moved = Span::new(at(0, 5), at(0, 5));
    assert_eq!(rt; doc.range(id), Ok(Some(moved)));
    Ok(())
}

#[test]
fn a_range_from_beyond_its_line_is_emptied_by_a_join(rt: HostRuntime) -> Result<(), Fail> {
    let mut doc = document(rt.alloc(), b"abc\nde")?;
    let across = Span::new(at(0, 10), at(1, 2));
    let allowed = make(&rt, &mut doc, across, NEITHER, Empty::Allow)?;
    let void = make(&rt, &mut doc, across, NEITHER, Empty::Void)?;
    doc.primitive(&Primitive::Unwrap { line: 1 })?;
    let emptied = Span::new(at(0, 10), at(0, 10));
    assert_eq!(rt; doc.range(allowed), Ok(Some(emptied)));
    assert_eq!(rt; doc.range(void), Ok(None));
    assert_eq!(rt; doc.info(void).and_then(|info| info.cursors), None);
    Ok(())
}

#[test]
fn a_span_lands_where_a_range_is(rt: HostRuntime) -> Result<(), Fail> {
    let mut doc = document(rt.alloc(), b"abc\nde")?;
    let across = Span::new(at(0, 10), at(1, 2));
    assert_eq!(rt; doc.lock(Owner::Editor)?, 0);
    doc.primitive(&Primitive::Unwrap { line: 1 })?;
    let emptied = Span::new(at(0, 10), at(0, 10));
    assert_eq!(rt;
        doc.land(0, across, NEITHER, Empty::Allow),
        Ok(Some(emptied))
    );
    assert_eq!(rt; doc.land(0, across, NEITHER, Empty::Void), Ok(None));
    assert_eq!(rt; doc.stored().len(), 1);
    assert_eq!(rt; doc.unlock(Owner::Editor, 0), Ok(()));
    let free = NotLocked {
        revision: 0,
        oldest: None,
    };
    assert_eq!(rt; doc.land(0, across, NEITHER, Empty::Allow), Err(free));
    assert_eq!(rt; doc.unlock(Owner::Editor, 0), Err(NotOwned { revision: 0 }));
    Ok(())
}

#[test]
fn ranges_of_a_locked_revision_are_where_older_ones_are(rt: HostRuntime) -> Result<(), Fail> {
    let mut doc = document(rt.alloc(), b"abc\nde")?;
    check_older_and_newer(&rt, &mut doc)
}

/// Makes two ranges before the lines are joined, and two of the same spans after it.
fn check_older_and_newer(rt: &(impl Abort + AllocGlobal), doc: &mut Doc) -> Result<(), Fail> {
    doc.lock(Owner::Editor)?;
    let word = Span::new(at(1, 0), at(1, 2));
    let across = Span::new(at(0, 10), at(1, 2));
    make(rt, doc, word, NEITHER, Empty::Void)?;
    make(rt, doc, across, NEITHER, Empty::Void)?;
    doc.primitive(&Primitive::Unwrap { line: 1 })?;
    let spans = two_spans(rt.alloc(), word, across)?;
    assert_eq!(rt; make_at(rt, doc, 0, &spans), Ok(3));
    let joined = Span::new(at(0, 3), at(0, 5));
    assert_eq!(rt; doc.range(1), Ok(Some(joined)));
    assert_eq!(rt; doc.range(3), Ok(Some(joined)));
    assert_eq!(rt; doc.range(2), Ok(None));
    assert_eq!(rt; doc.range(4), Ok(None));
    assert_eq!(rt; doc.next_id(), 5);
    Ok(())
}

#[test]
fn no_range_is_made_of_no_span(rt: HostRuntime) -> Result<(), Fail> {
    let mut doc = document(rt.alloc(), b"ab")?;
    let spans = no_spans(rt.alloc());
    assert_eq!(rt; make_at(&rt, &mut doc, 0, &spans), Ok(1));
    assert_eq!(rt; doc.next_id(), 1);
    Ok(())
}

/// Checks that nothing lands from a revision, and that nothing is made then, of a span or of none.
fn check_refused(
    rt: &(impl Abort + AllocGlobal),
    doc: &mut Doc,
    revision: u64,
    oldest: Option<u64>,
) -> Result<(), Fail> {
    let first = Span::new(at(0, 0), at(0, 1));
    let refused = NotLocked { revision, oldest };
    assert_eq!(rt;
        doc.land(revision, first, NEITHER, Empty::Void),
        Err(refused)
    );
    let fault = MakeFault::NotLocked { revision, oldest };
    assert_eq!(rt;
        make_at(rt, doc, revision, &no_spans(rt.alloc())),
        Err(fault)
    );
    let spans = one_span(rt.alloc(), first)?;
    assert_eq!(rt; make_at(rt, doc, revision, &spans), Err(fault));
    assert_eq!(rt; doc.next_id(), 1);
    Ok(())
}

#[test]
fn nothing_lands_from_a_revision_that_is_not_locked(rt: HostRuntime) -> Result<(), Fail> {
    let mut doc = document(rt.alloc(), b"ab")?;
    check_landings(&rt, &mut doc)
}

/// Locks revision 2 alone of four, and lands from each and from others.
fn check_landings(rt: &(impl Abort + AllocGlobal), doc: &mut Doc) -> Result<(), Fail> {
    doc.lock(Owner::Editor)?;
    insert(rt, doc, 0, b"x")?;
    insert(rt, doc, 0, b"y")?;
    doc.lock(Owner::Job { job: 3 })?;
    insert(rt, doc, 0, b"z")?;
    doc.unlock(Owner::Editor, 0)?;
    // Unlocked, never locked, after the present one, and none that there can be.
    check_refused(rt, doc, 0, Some(2))?;
    check_refused(rt, doc, 1, Some(2))?;
    check_refused(rt, doc, 4, Some(2))?;
    check_refused(rt, doc, u64::MAX, Some(2))?;
    let spans = one_span(rt.alloc(), Span::new(at(0, 0), at(0, 1)))?;
    assert_eq!(rt; make_at(rt, doc, 2, &spans), Ok(1));
    assert_eq!(rt; make_at(rt, doc, 3, &spans), Ok(2));
    assert_eq!(rt; doc.range(1), Ok(Some(Span::new(at(0, 1), at(0, 2)))));
    assert_eq!(rt; doc.range(2), Ok(Some(Span::new(at(0, 0), at(0, 1)))));
    Ok(())
}

/// Locks the present revision twice, and checks that it stays locked until both locks are removed.
fn check_locked_twice(
    rt: &(impl Abort + AllocGlobal),
    doc: &mut Doc,
    owner: Owner,
) -> Result<(), Fail> {
    let ab = Span::new(at(0, 0), at(0, 2));
    let revision = doc.lock(owner)?;
    doc.lock(owner)?;
    let refused = NotOwned { revision };
    assert_eq!(rt; doc.unlock(Owner::Job { job: 2 }, revision), Err(refused));
    assert_eq!(rt; doc.unlock(owner, revision), Ok(()));
    insert(rt, doc, 0, b"x")?;
    let moved = Span::new(at(0, 1), at(0, 3));
    assert_eq!(rt;
        doc.land(revision, ab, NEITHER, Empty::Allow),
        Ok(Some(moved))
    );
    assert_eq!(rt; doc.unlock(owner, revision), Ok(()));
    assert_eq!(rt; doc.stored().len(), 0);
    assert_eq!(rt; doc.unlock(owner, revision), Err(refused));
    Ok(())
}

#[test]
fn a_revision_locked_twice_is_unlocked_twice(rt: HostRuntime) -> Result<(), Fail> {
    let mut doc = document(rt.alloc(), b"ab")?;
    check_locked_twice(&rt, &mut doc, Owner::Editor)?;
    check_locked_twice(&rt, &mut doc, Owner::Job { job: 1 })
}

#[test]
fn a_span_past_the_text_lands_nowhere(rt: HostRuntime) -> Result<(), Fail> {
    let mut doc = document(rt.alloc(), b"ab")?;
    doc.lock(Owner::Editor)?;
    doc.primitive(&Primitive::Wrap { line: 0, column: 1 })?;
    let next_line = Span::new(at(0, 0), at(1, 0));
    assert_eq!(rt; doc.land(0, next_line, NEITHER, Empty::Allow), Ok(None));
    let farthest = Span::new(at(1 << 30, 0), at(1 << 30, 1 << 30));
    assert_eq!(rt; doc.land(0, farthest, NEITHER, Empty::Allow), Ok(None));
    let beyond = Span::new(at(0, 9), at(0, 1 << 30));
    let moved = Span::new(at(1, 8), at(1, (1 << 30) - 1));
    assert_eq!(rt; doc.land(0, beyond, NEITHER, Empty::Allow), Ok(Some(moved)));
    Ok(())
}

#[test]
fn a_range_is_set_and_dropped(rt: HostRuntime) -> Result<(), Fail> {
    let mut doc = document(rt.alloc(), b"abc")?;
    let first = Span::new(at(0, 0), at(0, 1));
    let second = Span::new(at(0, 1), at(0, 3));
    let id = make(&rt, &mut doc, first, NEITHER, Empty::Void)?;
    assert_eq!(rt; doc.range(id), Ok(Some(first)));
    doc.set_range(id, second)?;
    assert_eq!(rt; doc.range(id), Ok(Some(second)));
    assert_eq!(rt; doc.range_ids(rt.alloc())?.as_slice(), [1].as_slice());
    doc.drop_range(id)?;
    assert_eq!(rt; doc.range(id), Err(NoRange { id: 1 }));
    assert_eq!(rt; doc.set_range(id, first), Err(SetFault::NoRange { id: 1 }));
    assert_eq!(rt; doc.next_id(), 2);
    Ok(())
}

#[test]
fn no_primitive_is_made_past_the_limit(rt: HostRuntime) -> Result<(), Fail> {
    let mut doc = Doc::new(rt.alloc(), load(rt.alloc(), b"")?.text, 2)?;
    let wrap = Primitive::Wrap { line: 0, column: 0 };
    doc.primitive(&wrap)?;
    doc.primitive(&wrap)?;
    let full = DocFault::RevisionsFull { revision: 2 };
    assert_eq!(rt; doc.primitive(&wrap), Err(full));
    let no_line = DocFault::Misfit(Misfit::NoLine { line: 9 });
    assert_eq!(rt; doc.primitive(&Primitive::Unwrap { line: 9 }), Err(no_line));
    assert_eq!(rt; doc.revision(), 2);
    assert_eq!(rt; doc.copy_text(rt.alloc())?.lines(), 3);
    Ok(())
}

#[test]
fn a_range_stays_on_its_word(rt: HostRuntime) -> Result<(), Fail> {
    let alloc = rt.alloc();
    let mut doc = Doc::new(alloc, load(alloc, b"hello\nworld")?.text, 1_000)?;
    let world = Span::new(Place { line: 1, column: 0 }, Place { line: 1, column: 5 });
    assert!(rt; doc.next_id() < 1 << 63);
    let id = doc.make_range(world, NEITHER, Empty::Allow, RangeKind::User)?;
    doc.primitive(&Primitive::Wrap { line: 0, column: 2 })?;
    let moved = Span::new(Place { line: 2, column: 0 }, Place { line: 2, column: 5 });
    assert_eq!(rt; doc.range(id), Ok(Some(moved)));
    Ok(())
}
