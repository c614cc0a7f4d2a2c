ghost use Rattle.std.specs.Prelude.{◌<◌, length, IfOk};

use crate::*;
use kte_place::{Place, Span, Spans};
use kte_text::{Line, LoadFault, Text, load};
use std::alloc::Global;
use std::process::Abort;
use std::test::Fail;

fn text(alloc: Global, bytes: &[u8]) -> Result<Text, LoadFault> {
    Ok(load(alloc, bytes)?.text)
}

fn query<R: Abort>(
    rt: &R,
    alloc: Global,
    pattern: &str,
    fold_case: bool,
    whole: bool,
) -> Result<Query, Fail>
    ensures { IfOk result (λ query. 0 < length query.pattern) }
{
    let pattern = Line::from_utf8(alloc, pattern)?;
    assert!(rt; !pattern.is_empty());
    Ok(Query {
        pattern,
        fold_case,
        whole,
    })
}

fn place(line: u32, column: u64) -> Place {
    Place { line, column }
}

/// A span within one line.
fn span(line: u32, start: u64, end: u64) -> Span {
    Span::new(place(line, start), place(line, end))
}

fn are(spans: &Spans, want: &[(u32, u64, u64)]) -> bool {
    spans.len() == want.len() as u64
        && want.iter().enumerate().all(|(n, (line, start, end))| *spans.get(n as u64)
            == span(*line, *start, *end))
}

#[test]
fn words_and_case(rt: HostRuntime) -> Result<(), Fail> {
    let alloc = rt.alloc();
    let foo = text(alloc, b"foo Foo food")?;
    let words = query(&rt, alloc, "foo", true, true)?;
    let exactly = query(&rt, alloc, "foo", false, false)?.copy(alloc)?;
    let any_case = query(&rt, alloc, "foo", true, false)?;
    assert!(rt; are(&all(alloc, &foo, &words)?, &[(0, 0, 3), (0, 4, 7)]));
    assert_eq!(rt; find(&foo, &exactly, place(0, 1)), Some(span(0, 8, 11)));
    assert_eq!(rt;
        find_back(&foo, &any_case, place(0, 8)),
        Some(span(0, 4, 7))
    );
    assert_eq!(rt; find(&foo, &exactly, place(0, 9)), None);
    Ok(())
}

#[test]
fn places_past_a_line_and_past_the_text(rt: HostRuntime) -> Result<(), Fail> {
    let alloc = rt.alloc();
    let lines = text(alloc, b"ab cab\n\nab")?;
    let ab = query(&rt, alloc, "ab", false, false)?;
    for (from, next, before) in [
        (place(0, 0), Some(span(0, 0, 2)), None),
        (place(0, 4), Some(span(0, 4, 6)), Some(span(0, 0, 2))),
        (place(0, 5), Some(span(2, 0, 2)), Some(span(0, 0, 2))),
        (place(0, 99), Some(span(2, 0, 2)), Some(span(0, 4, 6))),
        (place(1, 0), Some(span(2, 0, 2)), Some(span(0, 4, 6))),
        (place(2, u64::MAX), None, Some(span(2, 0, 2))),
        (place(u32::MAX, 0), None, Some(span(2, 0, 2))),
    ] {
        assert_eq!(rt; find(&lines, &ab, from), next, "from {from:?}");
        assert_eq!(rt; find_back(&lines, &ab, from), before, "before {from:?}");
    }
    Ok(())
}

#[test]
fn all_matches_of_hard_patterns(rt: HostRuntime) -> Result<(), Fail> {
    let alloc = rt.alloc();
    for (bytes, pattern, whole, want) in ROWS {
        let lines = text(alloc, bytes)?;
        let pattern = query(&rt, alloc, pattern, false, *whole)?;
        assert!(rt; are(&all(alloc, &lines, &pattern)?, want), "{pattern:?}");
    }
    Ok(())
}

// Each text, a pattern, whether it is a whole word, and its matches.
const ROWS: &[(&[u8], &str, bool, &[(u32, u64, u64)])] = &[
    (b"aaaaa", "aa", false, &[(0, 0, 2), (0, 2, 4)]),
    (b"ab\nab\n", "abc", false, &[]),
    (b"ab", "b\u{1F600}", false, &[]),
    (b"\xC3\xA9a a \xC3\xA9", "a", true, &[(0, 3, 4)]),
    (b"\xC3\xA9a a \xC3\xA9", "\u{E9}", true, &[(0, 5, 6)]),
    (b"--\n-", "-", true, &[(0, 0, 1), (0, 1, 2), (1, 0, 1)]),
];
