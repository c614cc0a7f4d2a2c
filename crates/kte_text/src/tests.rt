ghost use Rattle.std.specs.Prelude.{◌≡◌, [], ◌∷◌, length, IfOk};

use crate::{
    Batch, Eol, Line, LineFault, Lines, LoadFault, MAX_SIZE, Misfit, Primitive, Text, fits,
    is_boundary, load,
};
use std::alloc::{AllocError, Global};
use std::test::Fail;

mod saving;

// A line of so many letters.
fn letters(alloc: Global, count: usize) -> Result<Line, AllocError>
    ensures { IfOk result (λ line. length line ≡ count) }
{
    let units = vec![in alloc; 0x61; count]?;
    Line::of_units(alloc, &units)
}

// The line of U+1F600 alone.
fn pair(alloc: Global) -> Result<Line, AllocError>
    ensures { IfOk result (λ line. line ≡ 0xD83D ∷ 0xDE00 ∷ []) }
{
    Line::of_units(alloc, &[0xD83D, 0xDE00])
}

fn reads(line: &Line, text: &[u16]) -> bool {
    line.units() == text
}

fn has_lines(text: &Text, lines: &[&[u16]]) -> bool {
    text.len() == lines.len() as u64
        && lines
            .iter()
            .enumerate()
            .all(|(n, line)| reads(text.get(n as u64), line))
}

#[test]
fn a_text_of_the_greatest_size_takes_nothing_more(rt: HostRuntime) -> Result<(), Fail> {
    let alloc = rt.alloc();
    let text = Text::of(alloc, letters(alloc, MAX_SIZE as usize)?)?;
    let too_large = Err(Misfit::TooLarge { size: 67_108_865 });
    let insert = Primitive::Insert {
        line: 0,
        column: 0,
        text: Line::from_utf8(alloc, "a")?,
    };
    let wrap = Primitive::Wrap { line: 0, column: 0 };
    let remove = Primitive::Remove {
        line: 0,
        column: 67_108_863,
        length: 1,
    };
    assert_eq!(rt; fits(&text, &insert), too_large);
    assert_eq!(rt; fits(&text, &wrap), too_large);
    assert_eq!(rt; fits(&text, &remove), Ok(()));
    Ok(())
}

#[test]
fn a_pair_is_not_split(rt: HostRuntime) -> Result<(), Fail> {
    let alloc = rt.alloc();
    let text = Text::of(alloc, pair(alloc)?)?;
    let splits = Err(Misfit::SplitsPair { line: 0, column: 1 });
    for (column, want) in [(0, Ok(())), (1, splits), (2, Ok(()))] {
        let wrap = Primitive::Wrap { line: 0, column };
        let insert = Primitive::Insert {
            line: 0,
            column,
            text: Line::from_utf8(alloc, "a")?,
        };
        assert_eq!(rt; fits(&text, &wrap), want, "wrap at {column}");
        assert_eq!(rt; fits(&text, &insert), want, "insert at {column}");
        assert_eq!(rt;
            is_boundary(text.line(0), column),
            want.is_ok(),
            "column {column}"
        );
    }
    Ok(())
}

#[test]
fn a_removal_is_judged_at_both_columns(rt: HostRuntime) -> Result<(), Fail> {
    let alloc = rt.alloc();
    let text = Text::of(alloc, pair(alloc)?)?;
    let splits = Err(Misfit::SplitsPair { line: 0, column: 1 });
    let beyond = Err(Misfit::NoColumn { line: 0, column: 3 });
    for (column, length, want) in [
        (0, 2, Ok(())),
        (0, 1, splits),
        (1, 1, splits),
        (1, 2, beyond),
        (2, 0, Ok(())),
    ] {
        let remove = Primitive::Remove {
            line: 0,
            column,
            length,
        };
        assert_eq!(rt; fits(&text, &remove), want, "{length} units from {column}");
    }
    Ok(())
}

const A: &[u16] = &[0x61];

const B: &[u16] = &[0x62];

const EMPTY: &[u16] = &[];

// Each file, its lines, its first line end, and whether it begins with a mark.
const FILES: &[(&[u8], &[&[u16]], Eol, bool)] = &[
    (b"", &[EMPTY], Eol::Lf, false),
    (b"\xEF\xBB\xBF", &[EMPTY], Eol::Lf, true),
    (
        b"\xEF\xBB\xBF\xEF\xBB\xBFa",
        &[&[0xFEFF, 0x61]],
        Eol::Lf,
        true,
    ),
    (b"a\xEF\xBB\xBF", &[&[0x61, 0xFEFF]], Eol::Lf, false),
    (b"\xEF\xBB\xBFa\r\nb\rc", &[A, B, &[0x63]], Eol::CrLf, true),
    (b"a\nb", &[A, B], Eol::Lf, false),
    (b"a\rb", &[A, B], Eol::Cr, false),
    (b"a\r\nb", &[A, B], Eol::CrLf, false),
    (b"\n", &[EMPTY, EMPTY], Eol::Lf, false),
    (b"a\r", &[A, EMPTY], Eol::Cr, false),
    (b"a\r\n", &[A, EMPTY], Eol::CrLf, false),
    (b"a\r\r\nb", &[A, EMPTY, B], Eol::Cr, false),
    (b"a\n\rb", &[A, EMPTY, B], Eol::Lf, false),
    (b"a\nb\r\na\rb\n", &[A, B, A, B, EMPTY], Eol::Lf, false),
    (b"\0\0", &[&[0, 0]], Eol::Lf, false),
    (
        b"a\xE2\x80\xA8b\xC2\x85a",
        &[&[0x61, 0x2028, 0x62, 0x85, 0x61]],
        Eol::Lf,
        false,
    ),
    (
        b"a\xC3\xA9\xF0\x9F\x98\x80b",
        &[&[0x61, 0xE9, 0xD83D, 0xDE00, 0x62]],
        Eol::Lf,
        false,
    ),
];

#[test]
fn files_have_these_texts(rt: HostRuntime) -> Result<(), Fail> {
    let alloc = rt.alloc();
    for (bytes, lines, eol, bom) in FILES {
        let loaded = load(alloc, bytes)?;
        assert!(rt; has_lines(&loaded.text, lines), "{bytes:?}");
        assert_eq!(rt; loaded.eol, *eol, "{bytes:?}");
        assert_eq!(rt; loaded.bom, *bom, "{bytes:?}");
    }
    Ok(())
}

// Files that are not UTF-8, and the length of their longest prefix that is.
const FAULTY: &[(&[u8], u64)] = &[
    (b"a\xFF", 1),
    (b"\xEF\xBB", 0),
    (b"\xEF\xBB\xBFa\xEF\xBB", 4),
    (b"\x80", 0),
    (b"a\xC0\x80", 1),
    (b"\r\n\xE0\x80\x80", 2),
    (b"\xED\xA0\x80", 0),
    (b"\xF4\x90\x80\x80", 0),
    (b"\xF0\x9F\x98\x80\xF0\x9F\x98", 4),
];

#[test]
fn other_bytes_are_not_utf8(rt: HostRuntime) -> Result<(), Fail> {
    let alloc = rt.alloc();
    for (bytes, at) in FAULTY {
        let fault = LoadFault::NotUtf8 { at: *at };
        assert_eq!(rt; load(alloc, bytes).err(), Some(fault), "{bytes:?}");
    }
    Ok(())
}

#[test]
fn a_line_has_no_greatest_length_of_its_own(rt: HostRuntime) -> Result<(), Fail> {
    let alloc = rt.alloc();
    let text = load(alloc, &vec![in alloc; b'a'; 1_000_000]?)?.text;
    assert_eq!(rt; text.len(), 1);
    assert_eq!(rt; text.size(), 1_000_000);
    Ok(())
}

#[test]
fn a_line_has_no_line_end(rt: HostRuntime) -> Result<(), Fail> {
    let alloc = rt.alloc();
    let line = Line::from_utf8(alloc, "a\u{1F600}\u{2028}")?;
    assert!(rt; reads(&line, &[0x61, 0xD83D, 0xDE00, 0x2028]));
    for (text, at) in [("\n", 0), ("\u{E9}\r\n", 2), ("a\u{1F600}\n\r", 5)] {
        let fault = LineFault::HasEnd { at };
        assert_eq!(rt; Line::from_utf8(alloc, text).err(), Some(fault), "{text:?}");
    }
    Ok(())
}

#[test]
fn copies_are_equal(rt: HostRuntime) -> Result<(), Fail> {
    let alloc = rt.alloc();
    let mut text = Text::of(alloc, letters(alloc, 1)?)?;
    text.push(letters(alloc, 2)?)?;
    let copy = text.copy(alloc)?;
    assert!(rt; has_lines(&copy, &[A, &[0x61, 0x61]]));
    let lines = copy.into_lines();
    assert_eq!(rt; lines.len(), 2);
    assert!(rt; reads(&lines[1].copy(alloc)?, &[0x61, 0x61]));
    Ok(())
}

#[test]
fn a_batch_keeps_its_primitives(rt: HostRuntime) -> Result<(), Fail> {
    let alloc = rt.alloc();
    let mut batch = Batch::new(alloc);
    assert!(rt; batch.is_empty());
    batch.push(Primitive::Unwrap { line: 7 })?;
    batch.push(Primitive::Insert {
        line: 3,
        column: 5,
        text: pair(alloc)?,
    })?;
    let copy = batch.copy(alloc)?;
    assert_eq!(rt; copy.len(), 2);
    assert_eq!(rt;
        format!(in alloc; "{:?}", copy.get(0))?.as_str(),
        "Unwrap { line: 7 }"
    );
    assert!(rt; !copy.get(1).is_empty());
    batch.truncate(1);
    assert_eq!(rt; batch.len(), 1);
    assert_eq!(rt; copy.len(), 2);
    Ok(())
}

#[test]
fn a_misfit_is_told_in_words(rt: HostRuntime) -> Result<(), Fail> {
    let alloc = rt.alloc();
    for (misfit, words) in [
        (Misfit::NoLine { line: 2 }, "no line 2"),
        (
            Misfit::NoColumn { line: 0, column: 6 },
            "no column 6 in line 0",
        ),
        (
            Misfit::SplitsPair { line: 0, column: 1 },
            "column 1 of line 0 splits a pair",
        ),
        (Misfit::FirstLine, "the first line has none before it"),
        (
            Misfit::TooLarge { size: 67_108_865 },
            "the text would have size 67108865",
        ),
    ] {
        assert_eq!(rt; format!(in alloc; "{misfit}")?.as_str(), words);
    }
    Ok(())
}
