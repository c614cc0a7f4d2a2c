ghost use Rattle.std.specs.Prelude.{◌≡◌, [], ◌∷◌, IfOk};
ghost use Rattle.std.specs.FinMap as map;
ghost use Rattle.kte_text.specs.Primitives.{HasEnd};
ghost use Rattle.kte_place.specs.Place.{at as place_at};
ghost use Rattle.kte_buffer.specs.Buffer.{ColumnsFit};
ghost use Rattle.kte_buffer.specs.Cursors.{hanging};

use crate::Buffer;
use kte_place::{Cursors, Entry, EntryKind, MAX_COLUMN, OnInsert, Place};
use kte_text::{Line, Lines, Misfit, Primitive, Text, load};
use std::alloc::{AllocError, Global};
use std::process::Abort;
use std::test::Fail;

fn at(line: u32, column: u64) -> Place
    ensures { result ≡ place_at line column }
{
    Place { line, column }
}

// The lines `abcdef` and `ghij`, with no cursor.
fn two_lines(alloc: Global) -> Result<Buffer, Fail>
    ensures empty { IfOk result (λ buffer. buffer.hung ≡ map.empty) }
    ensures columns { IfOk result (λ buffer. ColumnsFit buffer.hung) }
{
    let loaded = load(alloc, b"abcdef\nghij")?;
    Ok(Buffer::new(alloc, loaded.text)?)
}

// U+1F600.
fn pair(alloc: Global) -> Result<Line, AllocError>
    ensures { IfOk result (λ line. line ≡ 0xD83D ∷ 0xDE00 ∷ []) }
{
    Line::of_units(alloc, &[0xD83D, 0xDE00])
}

fn reads(units: &[u16], text: &str) -> bool {
    let bytes = text.as_bytes();
    units.len() == bytes.len()
        && units
            .iter()
            .zip(bytes)
            .all(|(unit, byte)| *unit == u16::from(*byte))
}

fn has_lines<L: Lines>(lines: &L, wanted: &[&str]) -> bool {
    if lines.lines() as usize != wanted.len() {
        return false;
    }
    for (n, line) in wanted.iter().enumerate() {
        if !reads(lines.line(n as u32), line) {
            return false;
        }
    }
    true
}

// Hangs a cursor on a line that is there.
fn hang(
    rt: &impl Abort,
    buffer: &mut Buffer,
    place: Place,
    on_insert: OnInsert,
) -> Result<u64, Fail>
    requires { ColumnsFit buffer.old.hung }
    ensures free { IfOk result (λ id. map.get buffer.old.hung id ≡ None) }
    ensures hung { IfOk result
        (λ id. buffer.new.hung ≡ map.insert buffer.old.hung id (hanging place on_insert)) }
    ensures columns { ColumnsFit buffer.new.hung }
{
    assert!(rt; place.line < buffer.lines());
    assert!(rt; place.column <= MAX_COLUMN);
    Ok(buffer.hang(place, on_insert)?)
}

// The numbers of the near cursors.
fn near<C: Cursors>(alloc: Global, cursors: &C) -> Result<Vec<u64>, AllocError> {
    let mut near = Vec::new(alloc);
    for n in 0..cursors.near_len() {
        near.push(cursors.near_at(n))?;
    }
    Ok(near)
}

// Hangs a cursor that stays and one that moves at the place, applies a primitive, and returns its
// entry and the two cursors' places.
fn carried(
    rt: &impl Abort,
    buffer: &mut Buffer,
    primitive: &Primitive,
    place: Place,
) -> Result<(Entry, Place, Place), Fail>
    requires columns { ColumnsFit buffer.old.hung }
    requires end { HasEnd primitive.now }
{
    let stays = hang(rt, buffer, place, OnInsert::Stay)?;
    let moves = hang(rt, buffer, place, OnInsert::Move)?;
    assert!(rt; !primitive.is_empty());
    buffer.fits(primitive)?;
    buffer.reserve(primitive)?;
    let entry = buffer.apply(primitive);
    Ok((entry, buffer.place(stays), buffer.place(moves)))
}

// Checks for each place of the two lines where a cursor that stays and one that moves go.
fn check_places(
    rt: &(impl Abort + AllocGlobal),
    primitive: &Primitive,
    places: &[(Place, Place, Place)],
) -> Result<(), Fail>
    requires { HasEnd primitive.now }
{
    for (place, stays, moves) in places {
        let mut buffer = two_lines(rt.alloc())?;
        let (_, stayed, moved) = carried(rt, &mut buffer, primitive, *place)?;
        assert_eq!(rt; stayed, *stays, "stays at {place:?}");
        assert_eq!(rt; moved, *moves, "moves at {place:?}");
    }
    Ok(())
}

// Checks what the two lines become, and the entry.
fn check_text(
    rt: &(impl Abort + AllocGlobal),
    primitive: &Primitive,
    wanted: &[&str],
    entry: Entry,
) -> Result<(), Fail>
    requires { HasEnd primitive.now }
{
    let mut buffer = two_lines(rt.alloc())?;
    let (made, _, _) = carried(rt, &mut buffer, primitive, at(0, 0))?;
    assert_eq!(rt; made, entry);
    assert!(rt; has_lines(&buffer, wanted));
    assert!(rt; has_lines(&buffer.copy_text(rt.alloc())?, wanted));
    Ok(())
}

#[test]
fn a_wrap_moves_what_follows_it(rt: HostRuntime) -> Result<(), Fail> {
    let wrap = Primitive::Wrap { line: 0, column: 3 };
    let entry = Entry {
        kind: EntryKind::Wrap,
        line: 0,
        column: 3,
        length: 0,
        old: 0,
    };
    check_text(&rt, &wrap, &["abc", "def", "ghij"], entry)?;
    check_places(
        &rt,
        &wrap,
        &[
            (at(0, 1), at(0, 1), at(0, 1)),
            (at(0, 3), at(0, 3), at(1, 0)),
            (at(0, 5), at(1, 2), at(1, 2)),
            (at(0, 9), at(1, 6), at(1, 6)),
            (at(1, 2), at(2, 2), at(2, 2)),
        ],
    )
}

#[test]
fn a_joined_line_follows_the_other(rt: HostRuntime) -> Result<(), Fail> {
    let unwrap = Primitive::Unwrap { line: 1 };
    let entry = Entry {
        kind: EntryKind::Unwrap,
        line: 1,
        column: 0,
        length: 0,
        old: 6,
    };
    check_text(&rt, &unwrap, &["abcdefghij"], entry)?;
    check_places(
        &rt,
        &unwrap,
        &[
            (at(0, 3), at(0, 3), at(0, 3)),
            (at(0, 9), at(0, 9), at(0, 9)),
            (at(1, 0), at(0, 6), at(0, 6)),
            (at(1, 2), at(0, 8), at(0, 8)),
            (at(1, 9), at(0, 15), at(0, 15)),
        ],
    )
}

#[test]
fn an_insertion_moves_what_follows_it(rt: HostRuntime) -> Result<(), Fail> {
    let insert = Primitive::Insert {
        line: 0,
        column: 3,
        text: pair(rt.alloc())?,
    };
    check_places(
        &rt,
        &insert,
        &[
            (at(0, 1), at(0, 1), at(0, 1)),
            (at(0, 3), at(0, 3), at(0, 5)),
            (at(0, 6), at(0, 8), at(0, 8)),
            (at(0, 7), at(0, 8), at(0, 8)),
            (at(0, 9), at(0, 9), at(0, 9)),
            (at(1, 4), at(1, 4), at(1, 4)),
        ],
    )
}

#[test]
fn a_removal_closes_its_gap(rt: HostRuntime) -> Result<(), Fail> {
    let remove = Primitive::Remove {
        line: 0,
        column: 2,
        length: 3,
    };
    let entry = Entry {
        kind: EntryKind::Remove,
        line: 0,
        column: 2,
        length: 3,
        old: 0,
    };
    check_text(&rt, &remove, &["abf", "ghij"], entry)?;
    check_places(
        &rt,
        &remove,
        &[
            (at(0, 1), at(0, 1), at(0, 1)),
            (at(0, 2), at(0, 2), at(0, 2)),
            (at(0, 4), at(0, 2), at(0, 2)),
            (at(0, 5), at(0, 2), at(0, 2)),
            (at(0, 6), at(0, 3), at(0, 3)),
            (at(0, 9), at(0, 6), at(0, 6)),
        ],
    )
}

#[test]
fn a_pair_is_inserted_and_not_split(rt: HostRuntime) -> Result<(), Fail> {
    let alloc = rt.alloc();
    let mut buffer = two_lines(alloc)?;
    let insert = Primitive::Insert {
        line: 1,
        column: 4,
        text: pair(alloc)?,
    };
    let (entry, _, _) = carried(&rt, &mut buffer, &insert, at(0, 0))?;
    assert_eq!(rt; (entry.length, entry.old), (2, 4));
    assert_eq!(rt; buffer.size(), 13);
    let splits = Err(Misfit::SplitsPair { line: 1, column: 5 });
    for (column, want) in [(4, Ok(())), (5, splits), (6, Ok(()))] {
        assert_eq!(rt; buffer.fits(&Primitive::Wrap { line: 1, column }), want);
    }
    Ok(())
}

#[test]
fn empty_primitives_are_judged_like_any_other(rt: HostRuntime) -> Result<(), Fail> {
    let buffer = two_lines(rt.alloc())?;
    for (line, column, want) in [
        (0, 6, Ok(())),
        (0, 7, Err(Misfit::NoColumn { line: 0, column: 7 })),
        (2, 0, Err(Misfit::NoLine { line: 2 })),
    ] {
        let remove = Primitive::Remove {
            line,
            column,
            length: 0,
        };
        assert_eq!(rt; buffer.fits(&remove), want);
        let nothing = load(rt.alloc(), b"")?.text.into_lines().pop();
        let insert = Primitive::Insert {
            line,
            column,
            text: nothing.ok_or("no line")?,
        };
        assert_eq!(rt; buffer.fits(&insert), want);
    }
    assert_eq!(rt;
        buffer.fits(&Primitive::Unwrap { line: 0 }),
        Err(Misfit::FirstLine)
    );
    Ok(())
}

#[test]
fn a_cursor_is_taken_out_alone(rt: HostRuntime) -> Result<(), Fail> {
    let mut buffer = two_lines(rt.alloc())?;
    let kept = hang(&rt, &mut buffer, at(1, 4), OnInsert::Move)?;
    let gone = hang(&rt, &mut buffer, at(1, 4), OnInsert::Stay)?;
    buffer.unhang(gone);
    assert_ne!(rt; kept, gone);
    assert_eq!(rt; buffer.place(kept), at(1, 4));
    Ok(())
}

#[test]
fn cursors_on_touched_lines_are_near(rt: HostRuntime) -> Result<(), Fail> {
    let mut buffer = two_lines(rt.alloc())?;
    let later = hang(&rt, &mut buffer, at(1, 2), OnInsert::Stay)?;
    let wrap = Primitive::Wrap { line: 0, column: 3 };
    carried(&rt, &mut buffer, &wrap, at(0, 3))?;
    let near = near(rt.alloc(), &buffer)?;
    assert_eq!(rt; near.len(), 2);
    assert!(rt; !near.as_slice().contains(&later));
    Ok(())
}
