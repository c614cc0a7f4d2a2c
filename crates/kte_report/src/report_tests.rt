ghost use Rattle.kte_command.specs.Commands.{InRange};
ghost use Rattle.kte_place.specs.Place.{IsInReach};

use crate::{push_report, push_summary, write_report};
use kte_command::Command;
use kte_core::{Core, Request};
use kte_edit::Change;
use kte_place::{Empty, Expand, Place, Span};
use kte_text::load;
use std::alloc::Global;
use std::process::Abort;
use std::test::Fail;

const EMPTY: &[u8] = b"report\nlines 1\nrevision 0\nsize 0\nkept 0\nundo 0 0\nranges 0\nhidden 0\n\
    digest e69de29bb2d1d6434b8b29ae775ad8c2e48c5391\ntext\n|\n";

/// Of a file with a byte order mark, a line end CR LF and a surrogate pair.
const MARKED: &[u8] = b"report\nlines 2\nrevision 0\nsize 4\nkept 0\nundo 0 0\nranges 0\nhidden 0\n\
    digest 0cd53b0cc387b368ffe0932aec6d7bd5cc2edf24\ntext\n|a\n|\xF0\x9F\x98\x80\n";

/// Of the same kind of file, `ab` and `c`, with two ranges of `ab`, one of them empty, and revision
/// 0 locked, after an insertion in `ab`, another in front of it, and an undo.
const EDITED: &[u8] = b"report\nlines 2\nrevision 3\nsize 5\nkept 3\nundo 1 1\nranges 2\n\
    range 1 user left allow 0 0 0 3\nrange 2 user both void invalid\nhidden 0\n\
    digest 961e620767792c688d2846c4e9925c90b05afe2a\ntext\n|a\xC3\xA9b\n|c\n";

/// Of the same state, after seven commands of which the last is refused.
const SUMMARY: &[u8] = b"commands 7\nevents 7\nlines 2\nrevision 3\nsize 5\nundo 1 1\nranges 2\n\
    digest 961e620767792c688d2846c4e9925c90b05afe2a\nrecovered 4\n";

/// Of `a`, `b`, `c` and `d` on a line each, in one fold.
const FOLDED: &[u8] = b"report\nlines 4\nrevision 0\nsize 7\nkept 0\nundo 0 0\nranges 1\n\
    range 1 fold none void 0 1 2 0\nhidden 2\nhide 1 2\n\
    digest 27a7ea60561953234e709fe8f1caaf5892ce4481\ntext\n|a\n|b\n|c\n|d\n";

const UNFOLDED: &[u8] =
    b"report\nlines 4\nrevision 0\nsize 7\nkept 0\nundo 0 0\nranges 0\nhidden 0\n\
    digest 27a7ea60561953234e709fe8f1caaf5892ce4481\ntext\n|a\n|b\n|c\n|d\n";

/// .. in two folds with a line between them.
const APART: &[u8] = b"report\nlines 4\nrevision 0\nsize 7\nkept 0\nundo 0 0\nranges 2\n\
    range 1 fold none void 2 0 3 1\nrange 2 fold none void 0 0 1 1\n\
    hidden 2\nhide 1 1\nhide 3 3\n\
    digest 27a7ea60561953234e709fe8f1caaf5892ce4481\ntext\n|a\n|b\n|c\n|d\n";

/// .. in two folds that touch.
const TOUCHING: &[u8] = b"report\nlines 4\nrevision 0\nsize 7\nkept 0\nundo 0 0\nranges 2\n\
    range 1 fold none void 1 1 3 1\nrange 2 fold none void 0 0 1 1\nhidden 3\nhide 1 3\n\
    digest 27a7ea60561953234e709fe8f1caaf5892ce4481\ntext\n|a\n|b\n|c\n|d\n";

#[test]
fn the_report_of_a_file_that_was_loaded(rt: HostRuntime) -> Result<(), Fail> {
    let alloc = rt.alloc();
    let table: [(&[u8], &[u8]); 2] = [(b"", EMPTY), (b"\xEF\xBB\xBFa\r\n\xF0\x9F\x98\x80", MARKED)];
    for (file, expected) in table {
        let core = Core::new(alloc, load(alloc, file)?, 8)?;
        let report = write_report(alloc, &core)?;
        assert_eq!(rt; report.as_slice(), expected);
    }
    Ok(())
}

#[test]
fn the_report_of_ranges_locks_and_groups(rt: HostRuntime) -> Result<(), Fail> {
    let alloc = rt.alloc();
    let mut core = Core::new(alloc, load(alloc, b"\xEF\xBB\xBFab\r\nc")?, 8)?;
    edit(alloc, &mut core)?;
    shows(&rt, alloc, &core)
}

#[test]
fn a_summary_counts_events_and_primitives(rt: HostRuntime) -> Result<(), Fail> {
    let alloc = rt.alloc();
    let mut core = Core::new(alloc, load(alloc, b"\xEF\xBB\xBFab\r\nc")?, 8)?;
    edit(alloc, &mut core)?;
    ask(alloc, &mut core, Command::End)?;
    let mut out = Vec::new(alloc);
    push_summary(&core, 7, 4, &mut out)?;
    assert_eq!(rt; out.as_slice(), SUMMARY);
    Ok(())
}

#[test]
fn a_crossing_fold_hides_nothing_and_an_unfolded_one_neither(rt: HostRuntime) -> Result<(), Fail> {
    let alloc = rt.alloc();
    let mut core = Core::new(alloc, load(alloc, b"a\nb\nc\nd")?, 8)?;
    fold(alloc, &mut core, (0, 1), (2, 0))?;
    fold(alloc, &mut core, (1, 0), (3, 1))?;
    assert_eq!(rt; write_report(alloc, &core)?.as_slice(), FOLDED);
    ask(alloc, &mut core, Command::Unfold { id: 1 })?;
    ask(alloc, &mut core, Command::Unfold { id: 1 })?;
    assert_eq!(rt; write_report(alloc, &core)?.as_slice(), UNFOLDED);
    Ok(())
}

#[test]
fn runs_of_hidden_lines_are_joined_where_they_touch(rt: HostRuntime) -> Result<(), Fail> {
    let alloc = rt.alloc();
    let table: [((u8, u8), &[u8]); 2] = [((2, 0), APART), ((1, 1), TOUCHING)];
    for (start, expected) in table {
        let mut core = Core::new(alloc, load(alloc, b"a\nb\nc\nd")?, 8)?;
        fold(alloc, &mut core, start, (3, 1))?;
        fold(alloc, &mut core, (0, 0), (1, 1))?;
        assert_eq!(rt; write_report(alloc, &core)?.as_slice(), expected);
    }
    Ok(())
}

/// Asks for a fold from a line and a column to a line and a column.
fn fold(alloc: Global, core: &mut Core, start: (u8, u8), end: (u8, u8)) -> Result<(), Fail> {
    let span = Span::new(at(start), at(end));
    ask(alloc, core, Command::Fold { span })
}

/// A report is appended.
fn shows(rt: &impl Abort, alloc: Global, core: &Core) -> Result<(), Fail> {
    let mut out = b"journal\n".to_vec(alloc)?;
    push_report(core, &mut out)?;
    assert_eq!(rt; &out[..8], b"journal\n".as_slice());
    assert_eq!(rt; &out[8..], EDITED);
    Ok(())
}

fn edit(alloc: Global, core: &mut Core) -> Result<(), Fail> {
    range(alloc, core, (0, 2), (true, false), Empty::Allow)?;
    range(alloc, core, (1, 1), (true, true), Empty::Void)?;
    ask(alloc, core, Command::Lock)?;
    insert(alloc, core, 1, b"\xC3\xA9")?;
    insert(alloc, core, 0, b"x")?;
    ask(alloc, core, Command::Undo)
}

/// Asks for a range between two columns of the first line.
fn range(
    alloc: Global,
    core: &mut Core,
    columns: (u8, u8),
    expand: (bool, bool),
    empty: Empty,
) -> Result<(), Fail> {
    let command = Command::MakeRange {
        span: Span::new(place(columns.0), place(columns.1)),
        expand: Expand {
            left: expand.0,
            right: expand.1,
        },
        empty,
    };
    ask(alloc, core, command)
}

/// Asks for an insertion at a column of the first line.
fn insert(alloc: Global, core: &mut Core, column: u8, text: &[u8]) -> Result<(), Fail> {
    let change = Change::Insert {
        at: place(column),
        text: load(alloc, text)?.text,
    };
    ask(alloc, core, Command::Edit { change })
}

fn place(column: u8) -> Place
    ensures { IsInReach result }
{
    at((0, column))
}

/// The place at a line and a column.
fn at(place: (u8, u8)) -> Place
    ensures { IsInReach result }
{
    Place {
        line: u32::from(place.0),
        column: u64::from(place.1),
    }
}

/// Asks for a command.
fn ask(alloc: Global, core: &mut Core, command: Command) -> Result<(), Fail>
    requires { InRange command }
{
    let _deeper = core.depth().checked_add(2).ok_or("too deep")?;
    let _further = core
        .doc()
        .next_id()
        .checked_add(1 << 63)
        .ok_or("too many ranges")?;
    if core.rule(u32::MAX - 2).is_some() {
        return Err("too many jobs".into());
    }
    let _ = core.step(alloc, 0, Request::Cmd(command))?;
    Ok(())
}
