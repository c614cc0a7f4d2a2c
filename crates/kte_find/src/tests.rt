ghost use Rattle.std.specs.Prelude.{IfOk};
ghost use Rattle.kte_find.specs.Rule.{HasWord};

use crate::{Checker, MAX_FINDINGS, PlainChecker, Rule};
use kte_place::Spans;
use kte_text::{Line, load};
use std::alloc::Global;
use std::test::Fail;

/// The rule of this name; any other name is a word to look for.
fn rule_of(alloc: Global, name: &str) -> Result<Rule, Fail>
    ensures { IfOk result HasWord }
{
    match name {
        "blanks" => Ok(Rule::Blanks),
        "long" => Ok(Rule::Long { limit: 3 }),
        "pairs" => Ok(Rule::Pairs),
        "repeat" => Ok(Rule::Repeat),
        _ => {
            let word = Line::from_utf8(alloc, name)?;
            if word.is_empty() {
                return Ok(Rule::Blanks);
            }
            Ok(Rule::Word { word })
        }
    }
}

/// Whether these are the findings, each with its line and its two columns.
fn are(found: &Spans, want: &[(u32, u64, u64)]) -> bool {
    found.len() == want.len() as u64
        && want.iter().enumerate().all(|(n, finding)| {
            let span = found.get(n as u64);
            (span.start.line, span.start.column, span.end.column) == *finding
        })
}

// Each rule, a text, and the findings.
const ROWS: &[(&str, &str, &[(u32, u64, u64)])] = &[
    (
        "pairs",
        "([)]",
        &[(0, 0, 1), (0, 1, 2), (0, 2, 3), (0, 3, 4)],
    ),
    ("pairs", "(a[])", &[]),
    ("pairs", "", &[]),
    ("pairs", "(\n[x\n]\n)", &[]),
    ("pairs", "((\n)", &[(0, 0, 1)]),
    ("pairs", ")(", &[(0, 0, 1), (0, 1, 2)]),
    ("pairs", "{}]()[\n", &[(0, 2, 3), (0, 5, 6)]),
    ("pairs", "(\n}\n)", &[(0, 0, 1), (1, 0, 1), (2, 0, 1)]),
    ("blanks", "a  \n", &[(0, 1, 3)]),
    ("blanks", "a \t \n\n  a\n\t", &[(0, 1, 4), (3, 0, 1)]),
    ("blanks", "a\u{a0}", &[]),
    ("long", "abc", &[]),
    ("long", "abcd\n\nabcdef", &[(0, 3, 4), (2, 3, 6)]),
    ("repeat", "a a\ta", &[(0, 2, 3), (0, 4, 5)]),
    ("repeat", "a, a\na b a ab", &[]),
    ("repeat", "é é é_", &[(0, 2, 3)]),
    ("repeat", "-a - a a", &[(0, 7, 8)]),
    ("ab", "ab abc ab", &[(0, 0, 2), (0, 7, 9)]),
    ("ab", "abé éab ab_ 1ab\nab-ab", &[(1, 0, 2), (1, 3, 5)]),
    ("a a", "a a a", &[(0, 0, 3), (0, 2, 5)]),
    ("AB", "ab", &[]),
    ("ab", "", &[]),
];

#[test]
fn rules_have_these_findings(rt: HostRuntime) -> Result<(), Fail> {
    let alloc = rt.alloc();
    for (name, text, want) in ROWS {
        let rule = rule_of(alloc, name)?;
        let loaded = load(alloc, text.as_bytes())?;
        let found = PlainChecker.check(alloc, &rule, &loaded.text)?;
        assert!(rt; are(&found, want), "{name} in {text}");
    }
    Ok(())
}

#[test]
fn the_first_findings_are_given(rt: HostRuntime) -> Result<(), Fail> {
    let alloc = rt.alloc();
    let bytes = vec![in alloc; b'('; 5000]?;
    let loaded = load(alloc, &bytes)?;
    for name in ["pairs", "("] {
        let found = PlainChecker.check(alloc, &rule_of(alloc, name)?, &loaded.text)?;
        assert_eq!(rt; found.len(), MAX_FINDINGS, "{name}");
        assert_eq!(rt; found.get(4095).start.column, 4095, "{name}");
    }
    Ok(())
}

#[test]
fn a_million_brackets_are_paired(rt: HostRuntime) -> Result<(), Fail> {
    let alloc = rt.alloc();
    let mut bytes = vec![in alloc; b'('; 500_000]?;
    bytes.extend_from_slice(&vec![in alloc; b')'; 500_000]?)?;
    let loaded = load(alloc, &bytes)?;
    let found = PlainChecker.check(alloc, &Rule::Pairs, &loaded.text)?;
    assert_eq!(rt; found.len(), 0);
    Ok(())
}

#[test]
fn a_copy_is_an_equal_rule(rt: HostRuntime) -> Result<(), Fail> {
    let alloc = rt.alloc();
    let loaded = load(alloc, b"a b a")?;
    let rule = rule_of(alloc, "a")?.copy(alloc)?;
    let found = PlainChecker.check(alloc, &rule, &loaded.text)?;
    assert!(rt; are(&found, &[(0, 0, 1), (0, 4, 5)]));
    Ok(())
}
