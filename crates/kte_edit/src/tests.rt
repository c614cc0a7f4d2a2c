use crate::{Change, StepsFault, steps};
use kte_place::{Place, Span};
use kte_text::{Batch, LoadFault, Loaded, Misfit, Primitive, Text, load};
use std::alloc::Global;
use std::test::Fail;

fn place(line: u32, column: u64) -> Place {
    Place { line, column }
}

// What a primitive is, without its text: its kind, its line, and two numbers more.
fn outline(primitive: &Primitive) -> (u8, u32, u64, u64) {
    match primitive {
        Primitive::Wrap { line, column } => (b'w', *line, *column, 0),
        Primitive::Unwrap { line } => (b'u', *line, 0, 0),
        Primitive::Insert { line, column, text } => (b'i', *line, *column, text.len()),
        Primitive::Remove {
            line,
            column,
            length,
        } => (b'r', *line, *column, *length),
    }
}

fn has_outline(batch: &Batch, outlines: &[(u8, u32, u64, u64)]) -> bool {
    batch.len() == outlines.len() as u64
        && outlines
            .iter()
            .enumerate()
            .all(|(n, want)| outline(batch.get(n as u64)) == *want)
}

// The text of a file.
fn text_of(alloc: Global, bytes: &[u8]) -> Result<Text, LoadFault> {
    let Loaded { text, .. } = load(alloc, bytes)?;
    Ok(text)
}

#[test]
fn a_text_is_inserted_line_by_line(rt: HostRuntime) -> Result<(), Fail> {
    let alloc = rt.alloc();
    let text = text_of(alloc, b"xy")?;
    let change = Change::Insert {
        at: place(0, 1),
        text: text_of(alloc, b"a\nb")?,
    };
    let batch = steps(alloc, &text, &change.copy(alloc)?)?;
    let want = [(b'i', 0, 1, 1), (b'w', 0, 2, 0), (b'i', 1, 0, 1)];
    assert!(rt; has_outline(&batch, &want));
    Ok(())
}

#[test]
fn a_span_over_three_lines_is_replaced(rt: HostRuntime) -> Result<(), Fail> {
    let alloc = rt.alloc();
    let text = text_of(alloc, b"a\nb\nc")?;
    let change = Change::Replace {
        span: Span::new(place(2, 0), place(0, 0)),
        text: text_of(alloc, b"z")?,
    };
    let batch = steps(alloc, &text, &change)?;
    let want = [
        (b'r', 1, 0, 1),
        (b'u', 2, 0, 0),
        (b'r', 0, 0, 1),
        (b'u', 1, 0, 0),
        (b'i', 0, 0, 1),
    ];
    assert!(rt; has_outline(&batch, &want));
    Ok(())
}

#[test]
fn each_kind_of_change_has_its_steps(rt: HostRuntime) -> Result<(), Fail> {
    let alloc = rt.alloc();
    let text = text_of(alloc, b"ab\nc")?;
    let span = Span::new(place(0, 0), place(0, 2));
    let nothing = Span::new(place(0, 1), place(0, 1));
    let empty = text_of(alloc, b"")?;
    let table: [(Change, &[(u8, u32, u64, u64)]); 6] = [
        (Change::Wrap { at: place(0, 1) }, &[(b'w', 0, 1, 0)]),
        (Change::Unwrap { line: 1 }, &[(b'u', 1, 0, 0)]),
        (Change::Remove { span }, &[(b'r', 0, 0, 2)]),
        (
            Change::Insert {
                at: place(0, 2),
                text: empty.copy(alloc)?,
            },
            &[],
        ),
        (Change::Remove { span: nothing }, &[]),
        (
            Change::Replace {
                span: nothing,
                text: empty,
            },
            &[],
        ),
    ];
    for (change, want) in table {
        assert!(rt; has_outline(&steps(alloc, &text, &change)?, want));
    }
    Ok(())
}

#[test]
fn changes_that_do_not_fit_are_refused(rt: HostRuntime) -> Result<(), Fail> {
    let alloc = rt.alloc();
    let text = text_of(alloc, "a\n\u{1F600}".as_bytes())?;
    let table = [
        (
            place(0, 0),
            place(0, 2),
            Misfit::NoColumn { line: 0, column: 2 },
        ),
        (
            place(1, 3),
            place(2, 0),
            Misfit::NoColumn { line: 1, column: 3 },
        ),
        (
            place(1, 1),
            place(2, 0),
            Misfit::SplitsPair { line: 1, column: 1 },
        ),
        (place(0, 0), place(2, 0), Misfit::NoLine { line: 2 }),
        (
            place(0, 0),
            place(1, 1),
            Misfit::SplitsPair { line: 1, column: 1 },
        ),
    ];
    for (start, end, want) in table {
        let change = Change::Remove {
            span: Span::new(start, end),
        };
        let fault = steps(alloc, &text, &change).err();
        assert_eq!(rt; fault, Some(StepsFault::Misfit(want)));
    }
    Ok(())
}
