ghost use Rattle.std.specs.Prelude.{◌≡◌, ◌≤◌, ◌^◌, [], ◌∷◌, IfOk};
ghost use Rattle.kte_command.specs.Commands.{HasPattern, InRange};
ghost use Rattle.kte_core.specs.Requests.{IsAllowed, ranges_of};
ghost use Rattle.kte_place.specs.Examples.{span};

use crate::{Core, Event, Journal, OutsideCall, Refusal, Reply, Request, Step};
use kte_command::Command;
use kte_edit::Change;
use kte_find::Rule;
use kte_fold::FoldRefused;
use kte_place::{Place, Span, Spans};
use kte_search::Query;
use kte_text::{Line, Lines, Misfit, load};
use std::alloc::Global;
use std::process::Abort;
use std::test::Fail;

fn place(line: u32, column: u64) -> Place {
    Place { line, column }
}

/// Asks for something as a seat, while there are few events and ranges.
fn step(alloc: Global, core: &mut Core, seat: u32, request: Request) -> Result<Step, Fail>
    requires allowed { IsAllowed seat request }
    requires few { ranges_of request ≤ 99 }
{
    if core.journal().len() > 99 || core.doc().next_id() > 99 {
        return Err(Fail::from("too many"));
    }
    Ok(core.step(alloc, seat, request)?)
}

/// Asks for a command.
fn ask(alloc: Global, core: &mut Core, command: Command) -> Result<Step, Fail>
    requires { InRange command }
{
    step(alloc, core, 0, Request::Cmd(command))
}

/// The reply to an edit outside of any transaction.
fn edited(steps: u64, revision: u64) -> Reply {
    Reply::Edited {
        steps,
        revision,
        depth: 0,
    }
}

/// Checks a reply by its debug text: replies have no equality.
fn assert_reply(rt: &impl Abort, alloc: Global, reply: &Reply, want: &Reply) -> Result<(), Fail> {
    let shown = format!(in alloc; "{reply:?}")?;
    let want = format!(in alloc; "{want:?}")?;
    assert_eq!(rt; shown.as_str(), want.as_str());
    Ok(())
}

/// Asks for something as a seat, and checks the reply.
fn assert_step(
    rt: &impl Abort,
    alloc: Global,
    core: &mut Core,
    seat: u32,
    request: Request,
    want: &Reply,
) -> Result<(), Fail>
    requires allowed { IsAllowed seat request }
    requires few { ranges_of request ≤ 99 }
{
    assert_reply(rt, alloc, &step(alloc, core, seat, request)?.reply, want)
}

/// Asks for a command, and checks the reply.
fn assert_ask(
    rt: &impl Abort,
    alloc: Global,
    core: &mut Core,
    command: Command,
    want: &Reply,
) -> Result<(), Fail>
    requires { InRange command }
{
    assert_step(rt, alloc, core, 0, Request::Cmd(command), want)
}

/// Asks for an insertion at a place, and checks the reply.
fn assert_insert(
    rt: &impl Abort,
    alloc: Global,
    core: &mut Core,
    at: Place,
    text: &[u8],
    want: &Reply,
) -> Result<(), Fail> {
    let text = load(alloc, text)?.text;
    let change = Change::Insert { at, text };
    assert_ask(rt, alloc, core, Command::Edit { change }, want)
}

/// Asks for a removal between two places, and checks the reply.
fn assert_remove(
    rt: &impl Abort,
    alloc: Global,
    core: &mut Core,
    from: Place,
    to: Place,
    want: &Reply,
) -> Result<(), Fail> {
    let span = Span::new(from, to);
    let change = Change::Remove { span };
    assert_ask(rt, alloc, core, Command::Edit { change }, want)
}

/// Asks for the first line to be split at its start, and checks the reply.
fn assert_wrap(rt: &impl Abort, alloc: Global, core: &mut Core, want: &Reply) -> Result<(), Fail> {
    let change = Change::Wrap { at: place(0, 0) };
    assert_ask(rt, alloc, core, Command::Edit { change }, want)
}

/// The present text of a core, with `|` in front of each line.
fn shown(alloc: Global, core: &Core) -> Result<String, Fail> {
    let doc = core.doc();
    let mut shown = String::new(alloc);
    for n in 0..doc.lines() {
        shown.push('|')?;
        shown.push_str(&String::from_utf16_lossy(alloc, doc.line(n))?)?;
    }
    Ok(shown)
}

#[test]
fn an_insertion_is_made_and_is_an_event(rt: HostRuntime) -> Result<(), Fail> {
    let alloc = rt.alloc();
    let mut core = Core::new(alloc, load(alloc, b"hello\n")?, 8)?;
    steps_of_an_insertion_is_made_and_is_an_event(&rt, alloc, &mut core)
}

fn steps_of_an_insertion_is_made_and_is_an_event(
    rt: &impl Abort,
    alloc: Global,
    core: &mut Core,
) -> Result<(), Fail> {
    assert_insert(rt, alloc, core, place(0, 5), b"!", &edited(1, 1))?;
    assert_eq!(rt; shown(alloc, core)?.as_str(), "|hello!|");
    assert_eq!(rt; core.copy_text(alloc)?.len(), 2);
    assert_eq!(rt; core.doc().revision(), 1);

    assert_eq!(rt; core.journal().len(), 1);
    let event = core.journal().get(0);
    assert_eq!(rt; event.seat, 0);
    assert_reply(rt, alloc, &event.reply, &edited(1, 1))?;
    Ok(())
}

#[test]
fn a_refused_change_is_an_event_and_changes_nothing(rt: HostRuntime) -> Result<(), Fail> {
    let alloc = rt.alloc();
    let mut core = Core::new(alloc, load(alloc, b"hello\n")?, 8)?;
    steps_of_a_refused_change_is_an_event_and_changes_nothing(&rt, alloc, &mut core)
}

fn steps_of_a_refused_change_is_an_event_and_changes_nothing(
    rt: &impl Abort,
    alloc: Global,
    core: &mut Core,
) -> Result<(), Fail> {
    let refused = Reply::Refused(Refusal::Misfit(Misfit::NoColumn { line: 0, column: 6 }));
    assert_insert(rt, alloc, core, place(0, 6), b"!", &refused)?;
    assert_eq!(rt; shown(alloc, core)?.as_str(), "|hello|");
    assert_eq!(rt; core.undo_counts(), (0, 0));

    assert_eq!(rt; core.journal().len(), 1);
    assert_reply(rt, alloc, &core.journal().get(0).reply, &refused)?;
    Ok(())
}

#[test]
fn a_span_is_judged_at_its_start_first(rt: HostRuntime) -> Result<(), Fail> {
    let alloc = rt.alloc();
    let mut core = Core::new(alloc, load(alloc, b"ab\ncd")?, 8)?;
    steps_of_a_span_is_judged_at_its_start_first(&rt, alloc, &mut core)
}

fn steps_of_a_span_is_judged_at_its_start_first(
    rt: &impl Abort,
    alloc: Global,
    core: &mut Core,
) -> Result<(), Fail> {
    let table = [
        (
            place(0, 3),
            place(7, 0),
            Misfit::NoColumn { line: 0, column: 3 },
        ),
        (place(0, 1), place(7, 0), Misfit::NoLine { line: 7 }),
        (
            place(0, 1),
            place(1, 3),
            Misfit::NoColumn { line: 1, column: 3 },
        ),
    ];
    for (from, to, misfit) in table {
        let refused = Reply::Refused(Refusal::Misfit(misfit));
        assert_remove(rt, alloc, core, from, to, &refused)?;
    }
    assert_eq!(rt; shown(alloc, core)?.as_str(), "|ab|cd");
    assert_remove(rt, alloc, core, place(0, 0), place(1, 2), &edited(3, 3))?;
    assert_eq!(rt; shown(alloc, core)?.as_str(), "|");
    Ok(())
}

#[test]
fn an_insertion_of_nothing_makes_no_revision(rt: HostRuntime) -> Result<(), Fail> {
    let alloc = rt.alloc();
    let mut core = Core::new(alloc, load(alloc, b"")?, 0)?;
    steps_of_an_insertion_of_nothing_makes_no_revision(&rt, alloc, &mut core)
}

fn steps_of_an_insertion_of_nothing_makes_no_revision(
    rt: &impl Abort,
    alloc: Global,
    core: &mut Core,
) -> Result<(), Fail> {
    assert_insert(rt, alloc, core, place(0, 0), b"", &edited(0, 0))?;
    assert_eq!(rt; core.undo_counts(), (0, 0));
    assert_eq!(rt; core.journal().len(), 1);
    Ok(())
}

#[test]
fn no_revision_is_made_past_the_limit(rt: HostRuntime) -> Result<(), Fail> {
    let alloc = rt.alloc();
    let mut core = Core::new(alloc, load(alloc, b"")?, 2)?;
    steps_of_no_revision_is_made_past_the_limit(&rt, alloc, &mut core)
}

fn steps_of_no_revision_is_made_past_the_limit(
    rt: &impl Abort,
    alloc: Global,
    core: &mut Core,
) -> Result<(), Fail> {
    let full = Reply::Refused(Refusal::RevisionsFull { revision: 2 });
    assert_wrap(rt, alloc, core, &edited(1, 1))?;
    assert_wrap(rt, alloc, core, &edited(1, 2))?;
    assert_wrap(rt, alloc, core, &full)?;
    assert_ask(rt, alloc, core, Command::Undo, &full)?;
    assert_eq!(rt; shown(alloc, core)?.as_str(), "|||");
    assert_eq!(rt; core.undo_counts(), (2, 0));
    assert_eq!(rt; core.journal().len(), 4);
    Ok(())
}

#[test]
fn a_text_of_two_lines_is_inserted(rt: HostRuntime) -> Result<(), Fail> {
    let alloc = rt.alloc();
    let mut core = Core::new(alloc, load(alloc, b"xy")?, 8)?;
    steps_of_a_text_of_two_lines_is_inserted(&rt, alloc, &mut core)
}

fn steps_of_a_text_of_two_lines_is_inserted(
    rt: &impl Abort,
    alloc: Global,
    core: &mut Core,
) -> Result<(), Fail> {
    assert_insert(rt, alloc, core, place(0, 1), b"a\nb", &edited(3, 3))?;
    assert_eq!(rt; shown(alloc, core)?.as_str(), "|xa|by");
    Ok(())
}

#[test]
fn a_span_over_three_lines_is_replaced(rt: HostRuntime) -> Result<(), Fail> {
    let alloc = rt.alloc();
    let mut core = Core::new(alloc, load(alloc, b"a\nb\nc")?, 99)?;
    steps_of_a_span_over_three_lines_is_replaced(&rt, alloc, &mut core)
}

fn steps_of_a_span_over_three_lines_is_replaced(
    rt: &impl Abort,
    alloc: Global,
    core: &mut Core,
) -> Result<(), Fail> {
    let change = Change::Replace {
        span: Span::new(place(0, 0), place(2, 0)),
        text: load(alloc, b"z")?.text,
    };
    let step = ask(alloc, core, Command::Edit { change })?;
    assert_reply(rt, alloc, &step.reply, &edited(5, 5))?;
    assert_eq!(rt; step.made.len(), 5);
    assert_eq!(rt; shown(alloc, core)?.as_str(), "|zc");
    assert_ask(rt, alloc, core, Command::Undo, &edited(5, 10))?;
    assert_eq!(rt; shown(alloc, core)?.as_str(), "|a|b|c");
    assert_ask(rt, alloc, core, Command::Redo, &edited(5, 15))?;
    assert_eq!(rt; shown(alloc, core)?.as_str(), "|zc");
    Ok(())
}

#[test]
fn a_change_is_undone_and_redone_once(rt: HostRuntime) -> Result<(), Fail> {
    let alloc = rt.alloc();
    let mut core = Core::new(alloc, load(alloc, b"ab")?, 8)?;
    steps_of_a_change_is_undone_and_redone_once(&rt, alloc, &mut core)
}

fn steps_of_a_change_is_undone_and_redone_once(
    rt: &impl Abort,
    alloc: Global,
    core: &mut Core,
) -> Result<(), Fail> {
    let nothing = Reply::Refused(Refusal::Nothing);
    assert_remove(rt, alloc, core, place(0, 0), place(0, 1), &edited(1, 1))?;
    assert_ask(rt, alloc, core, Command::Undo, &edited(1, 2))?;
    assert_eq!(rt; shown(alloc, core)?.as_str(), "|ab");
    assert_eq!(rt; core.undo_counts(), (0, 1));
    assert_ask(rt, alloc, core, Command::Undo, &nothing)?;
    assert_ask(rt, alloc, core, Command::Redo, &edited(1, 3))?;
    assert_ask(rt, alloc, core, Command::Redo, &nothing)?;
    assert_eq!(rt; shown(alloc, core)?.as_str(), "|b");
    assert_eq!(rt; core.undo_counts(), (1, 0));
    Ok(())
}

#[test]
fn nothing_is_undone_in_an_open_transaction(rt: HostRuntime) -> Result<(), Fail> {
    let alloc = rt.alloc();
    let mut core = Core::new(alloc, load(alloc, b"")?, 8)?;
    steps_of_nothing_is_undone_in_an_open_transaction(&rt, alloc, &mut core)
}

fn steps_of_nothing_is_undone_in_an_open_transaction(
    rt: &impl Abort,
    alloc: Global,
    core: &mut Core,
) -> Result<(), Fail> {
    let nothing = Reply::Refused(Refusal::Nothing);
    let inside = Reply::Edited {
        steps: 1,
        revision: 1,
        depth: 1,
    };
    let open = Reply::Refused(Refusal::StillOpen { depth: 1 });
    let not_open = Reply::Refused(Refusal::NotOpen);
    assert_ask(rt, alloc, core, Command::Undo, &nothing)?;
    assert_ask(rt, alloc, core, Command::Begin, &Reply::Depth { depth: 1 })?;
    assert_insert(rt, alloc, core, place(0, 0), b"a", &inside)?;
    assert_eq!(rt; core.depth(), 1);
    assert_ask(rt, alloc, core, Command::Undo, &open)?;
    assert_ask(rt, alloc, core, Command::End, &Reply::Depth { depth: 0 })?;
    assert_ask(rt, alloc, core, Command::End, &not_open)?;
    assert_eq!(rt; core.undo_counts(), (1, 0));
    assert_eq!(rt; core.depth(), 0);
    Ok(())
}

#[test]
fn only_a_group_that_is_kept_empties_what_may_be_redone(rt: HostRuntime) -> Result<(), Fail> {
    let alloc = rt.alloc();
    let mut core = Core::new(alloc, load(alloc, b"ab")?, 8)?;
    steps_of_only_a_group_that_is_kept_empties_what_may_be_redone(&rt, alloc, &mut core)
}

fn steps_of_only_a_group_that_is_kept_empties_what_may_be_redone(
    rt: &impl Abort,
    alloc: Global,
    core: &mut Core,
) -> Result<(), Fail> {
    assert_wrap(rt, alloc, core, &edited(1, 1))?;
    assert_ask(rt, alloc, core, Command::Undo, &edited(1, 2))?;
    let _ = ask(alloc, core, Command::Begin)?;
    let _ = ask(alloc, core, Command::End)?;
    assert_insert(rt, alloc, core, place(0, 0), b"", &edited(0, 2))?;
    assert_eq!(rt; core.undo_counts(), (0, 1));
    assert_insert(rt, alloc, core, place(0, 0), b"x", &edited(1, 3))?;
    assert_eq!(rt; core.undo_counts(), (1, 0));
    assert_eq!(rt; shown(alloc, core)?.as_str(), "|xab");
    Ok(())
}

#[test]
fn a_finding_lands_from_the_revision_at_which_its_job_was_taken(
    rt: HostRuntime,
) -> Result<(), Fail> {
    let alloc = rt.alloc();
    let mut core = Core::new(alloc, load(alloc, b"x\na  ")?, 99)?;
    steps_of_a_finding_lands_from_the_revision_at_which_its_job_was_taken(&rt, alloc, &mut core)
}

fn steps_of_a_finding_lands_from_the_revision_at_which_its_job_was_taken(
    rt: &impl Abort,
    alloc: Global,
    core: &mut Core,
) -> Result<(), Fail> {
    let check = Command::Check { rule: Rule::Blanks };
    assert_ask(rt, alloc, core, check, &Reply::Posted { job: 1 })?;
    assert!(rt; matches!(core.rule(1), Some(Rule::Blanks)));
    let took = Reply::Took {
        job: 1,
        revision: 0,
    };
    assert_step(rt, alloc, core, 1, Request::Take, &took)?;
    assert_eq!(rt; core.waiting(), None);
    assert_remove(rt, alloc, core, place(0, 1), place(1, 3), &edited(2, 2))?;
    assert_ask(rt, alloc, core, Command::Undo, &edited(2, 4))?;
    let saved = core.saved_form(alloc)?;
    assert_eq!(rt; saved.as_slice(), b"x\na  ".as_slice());
    let delivered = Reply::Delivered {
        job: 1,
        first: 1,
        count: 1,
    };
    assert_reply(rt, alloc, &deliver(alloc, core, 1, 1)?, &delivered)?;
    let invalid = Reply::Range { id: 1, span: None };
    let show = Command::ShowRange { id: 1 };
    assert_ask(rt, alloc, core, show, &invalid)?;
    Ok(())
}

/// Delivers one finding of a job.
fn deliver(alloc: Global, core: &mut Core, seat: u32, job: u32) -> Result<Reply, Fail> {
    let findings = blanks(alloc)?;
    let request = Request::Deliver { job, findings };
    Ok(step(alloc, core, seat, request)?.reply)
}

/// The blanks at the end of the second line.
fn blanks(alloc: Global) -> Result<Spans, Fail>
    ensures { IfOk result (λ spans. spans ≡ span 1 1 1 3 ∷ []) }
{
    let start = Place { line: 1, column: 1 };
    let end = Place { line: 1, column: 3 };
    let mut spans = Spans::new(alloc);
    spans.push(Span { start, end })?;
    Ok(spans)
}

#[test]
fn a_job_is_refused_to_other_seats(rt: HostRuntime) -> Result<(), Fail> {
    let alloc = rt.alloc();
    let mut core = Core::new(alloc, load(alloc, b"x\na  ")?, 99)?;
    steps_of_a_job_is_refused_to_other_seats(&rt, alloc, &mut core)
}

fn steps_of_a_job_is_refused_to_other_seats(
    rt: &impl Abort,
    alloc: Global,
    core: &mut Core,
) -> Result<(), Fail> {
    let no_job = Reply::Refused(Refusal::NoJob { closed: false });
    let not_taken = Reply::Refused(Refusal::NotTaken { job: 1 });
    let took = Reply::Took {
        job: 1,
        revision: 0,
    };
    let returned = Reply::Returned { job: 1 };
    assert_step(rt, alloc, core, 1, Request::Take, &no_job)?;
    assert_step(rt, alloc, core, 1, Request::GiveBack { job: 1 }, &not_taken)?;
    let check = Command::Check { rule: Rule::Pairs };
    assert_ask(rt, alloc, core, check, &Reply::Posted { job: 1 })?;
    assert_step(rt, alloc, core, 1, Request::GiveBack { job: 1 }, &not_taken)?;
    assert_step(rt, alloc, core, 1, Request::Take, &took)?;
    assert_step(rt, alloc, core, 2, Request::GiveBack { job: 1 }, &not_taken)?;
    assert_reply(rt, alloc, &deliver(alloc, core, 2, 1)?, &not_taken)?;
    assert_step(rt, alloc, core, 1, Request::GiveBack { job: 1 }, &returned)?;
    assert_step(rt, alloc, core, 2, Request::Take, &took)?;
    assert_step(rt, alloc, core, 1, Request::Take, &no_job)?;
    Ok(())
}

#[test]
fn a_closed_session_refuses_each_command(rt: HostRuntime) -> Result<(), Fail> {
    let alloc = rt.alloc();
    let mut core = Core::new(alloc, load(alloc, b"a")?, 99)?;
    steps_of_a_closed_session_refuses_each_command(&rt, alloc, &mut core)
}

fn steps_of_a_closed_session_refuses_each_command(
    rt: &impl Abort,
    alloc: Global,
    core: &mut Core,
) -> Result<(), Fail> {
    let open = Reply::Refused(Refusal::StillOpen { depth: 1 });
    let closed = Reply::Refused(Refusal::Closed);
    let no_job = Reply::Refused(Refusal::NoJob { closed: true });
    assert_ask(rt, alloc, core, Command::Sync, &Reply::Asked)?;
    assert_ask(rt, alloc, core, Command::Save, &Reply::Asked)?;
    let _ = ask(alloc, core, Command::Begin)?;
    assert_ask(rt, alloc, core, Command::Sync, &open)?;
    assert_ask(rt, alloc, core, Command::Save, &open)?;
    assert_step(rt, alloc, core, 0, Request::Close, &Reply::Closed)?;
    assert!(rt; core.is_closed());
    assert_step(rt, alloc, core, 0, Request::Close, &closed)?;
    assert_ask(rt, alloc, core, Command::End, &closed)?;
    assert_step(rt, alloc, core, 1, Request::Take, &no_job)?;
    let (call, ok) = (OutsideCall::Save, true);
    let outcome = Request::Outcome { call, ok };
    assert_step(rt, alloc, core, 0, outcome, &Reply::Noted)?;
    Ok(())
}

#[test]
fn a_journal_keeps_its_events(rt: HostRuntime) -> Result<(), Fail> {
    let mut journal = Journal::new(rt.alloc());
    assert!(rt; journal.is_empty());
    for id in [7, 8] {
        journal.push(Event {
            seat: 0,
            request: Request::Cmd(Command::DropRange { id }),
            reply: Reply::Dropped { id },
        })?;
    }
    assert_eq!(rt; journal.len(), 2);
    let first = &journal.get(0).reply;
    assert_reply(&rt, rt.alloc(), first, &Reply::Dropped { id: 7 })?;
    let second = &journal.get(1).reply;
    assert_reply(&rt, rt.alloc(), second, &Reply::Dropped { id: 8 })?;
    Ok(())
}

#[test]
fn a_fold_hides_lines_and_crosses_no_other(rt: HostRuntime) -> Result<(), Fail> {
    let alloc = rt.alloc();
    let mut core = Core::new(alloc, load(alloc, b"a\nb\nc\nd")?, 99)?;
    steps_of_a_fold_hides_lines_and_crosses_no_other(&rt, alloc, &mut core)
}

fn steps_of_a_fold_hides_lines_and_crosses_no_other(
    rt: &impl Abort,
    alloc: Global,
    core: &mut Core,
) -> Result<(), Fail> {
    let stands = Reply::Range {
        id: 1,
        span: Some(Span::new(place(0, 1), place(2, 0))),
    };
    let made = fold(alloc, core, place(0, 1), place(2, 0))?;
    assert_reply(rt, alloc, &made, &stands)?;
    let table = [
        (place(1, 0), place(3, 1), FoldRefused::Crosses { id: 1 }),
        (place(1, 1), place(1, 1), FoldRefused::EmptySpan),
        (place(0, 0), place(4, 0), FoldRefused::OutOfText),
        (place(0, 2), place(0, 2), FoldRefused::OutOfText),
    ];
    for (from, to, cause) in table {
        let refused = Reply::Refused(Refusal::Fold(cause));
        assert_reply(rt, alloc, &fold(alloc, core, from, to)?, &refused)?;
    }
    let no_range = Reply::Refused(Refusal::NoRange { id: 1 });
    let show = Command::ShowRange { id: 1 };
    let drop = Command::DropRange { id: 1 };
    assert_ask(rt, alloc, core, show, &no_range)?;
    assert_ask(rt, alloc, core, drop, &no_range)?;
    assert_eq!(rt; hidden(alloc, core)?.as_str(), "-++-");

    // Removing the fold's text makes it invalid; it is a fold yet.
    assert_remove(rt, alloc, core, place(0, 1), place(2, 0), &edited(3, 3))?;
    assert_eq!(rt; hidden(alloc, core)?.as_str(), "--");
    let no_fold = Reply::Refused(Refusal::NoFold { id: 1 });
    let dropped = Reply::Dropped { id: 1 };
    assert_ask(rt, alloc, core, Command::Unfold { id: 1 }, &dropped)?;
    assert_ask(rt, alloc, core, Command::Unfold { id: 1 }, &no_fold)?;
    assert_eq!(rt; core.doc().next_id(), 2);
    Ok(())
}

/// Asks for a fold between two places near the start of the text.
fn fold(alloc: Global, core: &mut Core, from: Place, to: Place) -> Result<Reply, Fail> {
    let span = Span::new(from, to);
    let (start, end) = (span.start, span.end);
    if start.line > 99 || start.column > 99 || end.line > 99 || end.column > 99 {
        return Err(Fail::from("too far"));
    }
    Ok(ask(alloc, core, Command::Fold { span })?.reply)
}

/// The lines of a core, a `+` for each hidden one and a `-` for each other.
fn hidden(alloc: Global, core: &Core) -> Result<String, Fail> {
    let mut shown = String::new(alloc);
    for line in 0..core.doc().lines() {
        let mark = if core.folds().hidden(core.doc(), line) {
            '+'
        } else {
            '-'
        };
        shown.push(mark)?;
    }
    Ok(shown)
}

#[test]
fn matches_are_found(rt: HostRuntime) -> Result<(), Fail> {
    let alloc = rt.alloc();
    let mut core = Core::new(alloc, load(alloc, b"foo Foo food")?, 99)?;
    steps_of_matches_are_found(&rt, alloc, &mut core)
}

fn steps_of_matches_are_found(rt: &impl Abort, alloc: Global, core: &mut Core) -> Result<(), Fail> {
    let all = Command::All {
        query: foo(rt, alloc, true, true)?,
    };
    let mut spans = one(alloc, 0)?;
    spans.push(Span::new(place(0, 4), place(0, 7)))?;
    assert_ask(rt, alloc, core, all, &Reply::Found { spans })?;
    let find = Command::Find {
        from: Place { line: 0, column: 1 },
        query: foo(rt, alloc, false, false)?,
    };
    let spans = one(alloc, 8)?;
    assert_ask(rt, alloc, core, find, &Reply::Found { spans })?;
    let find_back = Command::FindBack {
        before: Place { line: 0, column: 8 },
        query: foo(rt, alloc, true, false)?,
    };
    let spans = one(alloc, 4)?;
    assert_ask(rt, alloc, core, find_back, &Reply::Found { spans })?;
    let find = Command::Find {
        from: Place { line: 0, column: 9 },
        query: foo(rt, alloc, false, false)?,
    };
    let no_match = Reply::Refused(Refusal::NoMatch);
    assert_ask(rt, alloc, core, find, &no_match)?;
    assert_eq!(rt; core.journal().len(), 4);
    Ok(())
}

/// A search for `foo`.
fn foo(rt: &impl Abort, alloc: Global, fold_case: bool, whole: bool) -> Result<Query, Fail>
    ensures { IfOk result (λ query. HasPattern query) }
{
    let pattern = Line::from_utf8(alloc, "foo")?;
    assert!(rt; !pattern.is_empty());
    Ok(Query {
        pattern,
        fold_case,
        whole,
    })
}

/// The span of three units of the first line from a column on.
fn one(alloc: Global, column: u64) -> Result<Spans, Fail>
    requires { column ≤ 99 }
{
    let mut spans = Spans::new(alloc);
    spans.push(Span::new(place(0, column), place(0, column + 3)))?;
    Ok(spans)
}
