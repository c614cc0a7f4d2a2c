use crate::{JournalFault, read_journal, write_journal};
use kte_command::Command;
use kte_core::{Event, Journal, OutsideCall, Refusal, Reply, Request};
use kte_edit::Change;
use kte_find::Rule;
use kte_fold::FoldRefused;
use kte_place::{Empty, Expand, Place, Span, Spans};
use kte_text::{Misfit, load};
use std::alloc::Global;
use std::process::Abort;
use std::test::Fail;

/// Requests of each kind with the replies that they may have, by hand.
const TEXT: &[u8] = b"journal 16\n\
0 insert 0 5 \"a\\\"\\\\\\n\xC3\xA9\" = edited 1 1 0\n\
0 range 1 3 2 0 left void = range 1 1 3 2 0\n\
0 droprange 18446744073709551615 = refused norange 18446744073709551615\n\
0 fold 0 4 1 0 = range 2 0 4 1 0\n\
0 unfold 2 = dropped 2\n\
0 check word \"ab\" = posted 1\n\
0 check long 80 = posted 2\n\
0 sync = asked\n\
3 take = took 1 4\n\
3 deliver 1 0 1 0 3 2 0 10 4 = delivered 1 5 2\n\
3 deliver 2 = refused nottaken 2\n\
4294967295 giveback 1 = returned 1\n\
0 outcome append ok = noted\n\
0 outcome sync failed = noted\n\
0 outcome save ok = noted\n\
0 close = closed\n";

/// Every command, every other request, every reply and every refusal, by hand. The replies are not
/// those that the requests have: a journal's text may hold any.
const EVERY: &[u8] = b"journal 41\n\
0 insert 0 5 \"a\\\"\\\\\\n\\t\\x01\xC3\xA9\" = edited 1 1 0\n\
0 wrap 0 3 = cut 10 20 0\n\
0 unwrap 1 = depth 4294967295\n\
0 remove 0 1 2 3 = range 5 0 1 2 3\n\
0 replace 0 1 0 1 \"\" = range 6 invalid\n\
0 begin = dropped 7\n\
0 end = locked 8\n\
0 undo = unlocked 9\n\
0 redo = landed 0 1 2 3\n\
0 range 1 3 2 0 none allow = landed invalid\n\
0 range 1 3 2 0 left void = posted 1\n\
0 setrange 1 0 0 0 2 = asked\n\
0 droprange 18446744073709551615 = took 2 3\n\
0 where 3 = delivered 4 5 6\n\
0 lock = returned 7\n\
0 unlock 4 = noted\n\
0 land 4 0 0 1 0 right allow = closed\n\
0 land 4 0 0 1 0 both void = refused noline 1\n\
0 fold 1 0 2 0 = found\n\
0 unfold 18446744073709551615 = found 0 1 0 3 2 0 10 4\n\
0 find 0 0 \"a\" case part = refused nofold 18446744073709551615\n\
0 findback 3 7 \"\xC3\xA9\" nocase word = refused outoftext\n\
0 all \"\\t\" case word = refused emptyspan\n\
0 check word \"ab\" = refused nocolumn 1 18446744073709551615\n\
0 check blanks = refused splitspair 4 5\n\
0 check long 80 = refused firstline\n\
0 check pairs = refused toolarge 67108865\n\
0 check repeat = refused notopen\n\
0 sync = refused stillopen 2\n\
0 save = refused nothing\n\
3 take = refused notlocked 3 4\n\
3 deliver 1 0 1 0 3 2 0 10 4 = refused notlocked 5 none\n\
3 deliver 2 = refused notowned 6\n\
4294967295 giveback 1 = refused norange 7\n\
0 outcome append ok = refused revisionsfull 8\n\
0 outcome append failed = refused nojob open\n\
0 outcome sync ok = refused nojob closed\n\
0 outcome sync failed = refused nottaken 9\n\
0 outcome save ok = refused closed\n\
0 outcome save failed = refused crosses 10\n\
0 close = refused nomatch\n";

fn add(journal: &mut Journal, seat: u32, request: Request, reply: Reply) -> Result<(), Fail> {
    journal.push(Event {
        seat,
        request,
        reply,
    })?;
    Ok(())
}

fn span(start: (u32, u64), end: (u32, u64)) -> Span {
    let start = Place {
        line: start.0,
        column: start.1,
    };
    let end = Place {
        line: end.0,
        column: end.1,
    };
    Span::new(start, end)
}

fn two_spans(alloc: Global) -> Result<Spans, Fail> {
    let mut spans = Spans::new(alloc);
    spans.push(span((0, 1), (0, 3)))?;
    spans.push(span((2, 0), (10, 4)))?;
    Ok(spans)
}

fn add_commands(alloc: Global, journal: &mut Journal) -> Result<(), Fail> {
    let edited = Reply::Edited {
        steps: 1,
        revision: 1,
        depth: 0,
    };
    let insert = Command::Edit {
        change: Change::Insert {
            at: Place { line: 0, column: 5 },
            text: load(alloc, b"a\"\\\n\xC3\xA9")?.text,
        },
    };
    add(journal, 0, Request::Cmd(insert), edited)?;
    let stands = Reply::Range {
        id: 1,
        span: Some(span((1, 3), (2, 0))),
    };
    let range = Command::MakeRange {
        span: span((2, 0), (1, 3)),
        expand: Expand {
            left: true,
            right: false,
        },
        empty: Empty::Void,
    };
    add(journal, 0, Request::Cmd(range), stands)?;
    let refused = Reply::Refused(Refusal::NoRange { id: u64::MAX });
    let drop = Command::DropRange { id: u64::MAX };
    add(journal, 0, Request::Cmd(drop), refused)?;
    let folded = Reply::Range {
        id: 2,
        span: Some(span((0, 4), (1, 0))),
    };
    let fold = Command::Fold {
        span: span((1, 0), (0, 4)),
    };
    add(journal, 0, Request::Cmd(fold), folded)?;
    let unfold = Command::Unfold { id: 2 };
    add(journal, 0, Request::Cmd(unfold), Reply::Dropped { id: 2 })?;
    let word = load(alloc, b"ab")?.text.into_lines().pop();
    if let Some(word) = word {
        let check = Command::Check {
            rule: Rule::Word { word },
        };
        add(journal, 0, Request::Cmd(check), Reply::Posted { job: 1 })?;
    }
    let check = Command::Check {
        rule: Rule::Long { limit: 80 },
    };
    add(journal, 0, Request::Cmd(check), Reply::Posted { job: 2 })?;
    add(journal, 0, Request::Cmd(Command::Sync), Reply::Asked)
}

fn add_others(alloc: Global, journal: &mut Journal) -> Result<(), Fail> {
    let took = Reply::Took {
        job: 1,
        revision: 4,
    };
    add(journal, 3, Request::Take, took)?;
    let findings = two_spans(alloc)?;
    let delivered = Reply::Delivered {
        job: 1,
        first: 5,
        count: 2,
    };
    add(journal, 3, Request::Deliver { job: 1, findings }, delivered)?;
    let deliver = Request::Deliver {
        job: 2,
        findings: Spans::new(alloc),
    };
    add(
        journal,
        3,
        deliver,
        Reply::Refused(Refusal::NotTaken { job: 2 }),
    )?;
    add(
        journal,
        u32::MAX,
        Request::GiveBack { job: 1 },
        Reply::Returned { job: 1 },
    )?;
    for (call, ok) in [
        (OutsideCall::Append, true),
        (OutsideCall::Sync, false),
        (OutsideCall::Save, true),
    ] {
        add(journal, 0, Request::Outcome { call, ok }, Reply::Noted)?;
    }
    add(journal, 0, Request::Close, Reply::Closed)
}

/// Whether this is the text of a journal that is read from it.
fn is_read(alloc: Global, text: &[u8]) -> Result<bool, Fail> {
    match read_journal(alloc, text) {
        Ok(journal) => Ok(write_journal(alloc, &journal)?.as_slice() == text),
        Err(_) => Ok(false),
    }
}

/// Returns the line at fault, or 0 if the text is a journal's.
fn bad_line(alloc: Global, text: &[u8]) -> Result<u64, Fail> {
    match read_journal(alloc, text) {
        Ok(_) => Ok(0),
        Err(JournalFault::Bad { line }) => Ok(line),
        Err(fault) => Err(fault.into()),
    }
}

#[test]
fn journals_are_written_and_read(rt: HostRuntime) -> Result<(), Fail> {
    let alloc = rt.alloc();
    let mut journal = Journal::new(alloc);
    add_commands(alloc, &mut journal)?;
    add_others(alloc, &mut journal)?;
    let text = write_journal(alloc, &journal)?;
    assert!(rt; text.as_slice() == TEXT);
    assert!(rt; is_read(alloc, TEXT)?);
    assert!(rt; is_read(alloc, b"journal 0\n")?);
    Ok(())
}

#[test]
fn replies_are_written_and_read(rt: HostRuntime) -> Result<(), Fail> {
    let alloc = rt.alloc();
    let at = (Some(span((0, 1), (2, 3))), None);
    let table = [
        (
            Reply::Edited {
                steps: 1,
                revision: 2,
                depth: 3,
            },
            "edited 1 2 3",
        ),
        (
            Reply::Cut {
                steps: 10,
                revision: 20,
                depth: 0,
            },
            "cut 10 20 0",
        ),
        (Reply::Depth { depth: u32::MAX }, "depth 4294967295"),
        (Reply::Range { id: 5, span: at.0 }, "range 5 0 1 2 3"),
        (Reply::Range { id: 6, span: at.1 }, "range 6 invalid"),
        (Reply::Dropped { id: 7 }, "dropped 7"),
        (Reply::Locked { revision: 8 }, "locked 8"),
        (Reply::Unlocked { revision: 9 }, "unlocked 9"),
        (Reply::Landed { span: at.0 }, "landed 0 1 2 3"),
        (Reply::Landed { span: at.1 }, "landed invalid"),
        (
            Reply::Found {
                spans: Spans::new(alloc),
            },
            "found",
        ),
        (
            Reply::Found {
                spans: two_spans(alloc)?,
            },
            "found 0 1 0 3 2 0 10 4",
        ),
        (Reply::Posted { job: 1 }, "posted 1"),
        (Reply::Asked, "asked"),
        (
            Reply::Took {
                job: 2,
                revision: 3,
            },
            "took 2 3",
        ),
        (
            Reply::Delivered {
                job: 4,
                first: 5,
                count: 6,
            },
            "delivered 4 5 6",
        ),
        (Reply::Returned { job: 7 }, "returned 7"),
        (Reply::Noted, "noted"),
        (Reply::Closed, "closed"),
    ];
    for (reply, want) in table {
        assert!(rt; is_written(alloc, reply, want)?, "{want}");
    }
    Ok(())
}

#[test]
fn refusals_are_written_and_read(rt: HostRuntime) -> Result<(), Fail> {
    let alloc = rt.alloc();
    let at = (1, u64::MAX);
    let table = [
        (Refusal::Misfit(Misfit::NoLine { line: 1 }), "noline 1"),
        (
            Refusal::Misfit(Misfit::NoColumn {
                line: at.0,
                column: at.1,
            }),
            "nocolumn 1 18446744073709551615",
        ),
        (
            Refusal::Misfit(Misfit::SplitsPair { line: 4, column: 5 }),
            "splitspair 4 5",
        ),
        (Refusal::Misfit(Misfit::FirstLine), "firstline"),
        (
            Refusal::Misfit(Misfit::TooLarge { size: 67_108_865 }),
            "toolarge 67108865",
        ),
        (Refusal::NotOpen, "notopen"),
        (Refusal::StillOpen { depth: 2 }, "stillopen 2"),
        (Refusal::Nothing, "nothing"),
        (
            Refusal::NotLocked {
                revision: 3,
                oldest: Some(4),
            },
            "notlocked 3 4",
        ),
        (
            Refusal::NotLocked {
                revision: 5,
                oldest: None,
            },
            "notlocked 5 none",
        ),
        (Refusal::NotOwned { revision: 6 }, "notowned 6"),
        (Refusal::NoRange { id: 7 }, "norange 7"),
        (Refusal::NoFold { id: 8 }, "nofold 8"),
        (Refusal::Fold(FoldRefused::OutOfText), "outoftext"),
        (Refusal::Fold(FoldRefused::EmptySpan), "emptyspan"),
        (Refusal::Fold(FoldRefused::Crosses { id: 10 }), "crosses 10"),
        (Refusal::NoMatch, "nomatch"),
        (Refusal::RevisionsFull { revision: 8 }, "revisionsfull 8"),
        (Refusal::NoJob { closed: false }, "nojob open"),
        (Refusal::NoJob { closed: true }, "nojob closed"),
        (Refusal::NotTaken { job: 9 }, "nottaken 9"),
        (Refusal::Closed, "closed"),
    ];
    for (refusal, want) in table {
        let want = format!(in alloc; "refused {want}")?;
        assert!(rt;
            is_written(alloc, Reply::Refused(refusal), &want)?,
            "{want}"
        );
    }
    Ok(())
}

/// Whether a journal with this reply is written so, and read from that text.
fn is_written(alloc: Global, reply: Reply, want: &str) -> Result<bool, Fail> {
    let mut journal = Journal::new(alloc);
    add(&mut journal, 12, Request::Take, reply)?;
    let text = format!(in alloc; "journal 1\n12 take = {want}\n")?;
    let written = write_journal(alloc, &journal)?;
    Ok(written.as_slice() == text.as_bytes() && is_read(alloc, text.as_bytes())?)
}

#[test]
fn a_journal_that_is_cut_is_bad_where_it_ends(rt: HostRuntime) -> Result<(), Fail> {
    let alloc = rt.alloc();
    assert!(rt; is_read(alloc, EVERY)?);
    for n in 0..EVERY.len() {
        let piece = &EVERY[..n];
        assert_eq!(rt; bad_line(alloc, piece)?, line_after(piece), "{n}");
    }
    Ok(())
}

/// Returns the number, from 1, of the line of the place after the last byte.
fn line_after(bytes: &[u8]) -> u64 {
    bytes.split(|byte| *byte == b'\n').count() as u64
}

#[test]
fn a_changed_byte_is_bad_or_makes_another_journal(rt: HostRuntime) -> Result<(), Fail> {
    let alloc = rt.alloc();
    for line in EVERY.split(|byte| *byte == b'\n') {
        if line.is_empty() || line.starts_with(b"journal") {
            continue;
        }
        let mut text = b"journal 2\n".to_vec(alloc)?;
        text.extend_from_slice(line)?;
        text.extend_from_slice(b"\n0 close = closed\n")?;
        assert!(rt; is_read(alloc, &text)?);
        // The seat is a number, so some change makes another journal.
        assert!(rt; is_read_changed(&rt, alloc, &text)?);
    }
    Ok(())
}

/// Whether some change of one byte makes another journal. All other changes are bad.
fn is_read_changed(rt: &impl Abort, alloc: Global, text: &[u8]) -> Result<bool, Fail> {
    let mut is_any_read = false;
    for n in 0..text.len() {
        for byte in *b"\n \"02x\xFF" {
            let mut changed = text.to_vec(alloc)?;
            changed[n] = byte;
            let line = bad_line(alloc, &changed)?;
            if line == 0 {
                is_any_read |= byte != text[n];
                assert!(rt; is_read(alloc, &changed)?, "{n} {byte}");
            } else {
                assert!(rt; is_near(line, line_after(&text[..n])), "{n} {byte}");
            }
        }
    }
    Ok(is_any_read)
}

/// Whether this may be the first line at fault after a change of one byte in the line `changed`. The
/// bytes before the change are a journal's. The line that is changed has no event, or has one that
/// ends at a new line end and the rest has none; or the first line has another count.
fn is_near(line: u64, changed: u64) -> bool {
    line >= changed && (line - changed <= 1 || changed == 1)
}

#[test]
fn the_bad_line_is_named(rt: HostRuntime) -> Result<(), Fail> {
    let alloc = rt.alloc();
    let table: [(&[u8], u64); 24] = [
        (b"", 1),
        (b"journal 0", 1),
        (b"\n", 1),
        (b"journal 00\n", 1),
        (b"journal  0\n", 1),
        (b" journal 0\n", 1),
        (b"journal 0 \n", 1),
        (b"journal 0\r\n", 1),
        (b"Journal 0\n", 1),
        (b"journals 0\n", 1),
        (b"journal\n", 1),
        (b"journal 18446744073709551616\n", 1),
        (b"journal 99999999999999999999\nx\n", 1),
        (b"journal 18446744073709551615\n", 2),
        (b"journal 18446744073709551615\n\n", 2),
        (b"journal 0\n\n", 2),
        (b"journal 0\n0 close = closed\n", 2),
        (b"journal 0\n0", 2),
        (b"journal 1\n0 close = closed\n0", 3),
        (b"journal 1\n0 close = closed\n\n", 3),
        (b"journal 2\n0 close = closed\n", 3),
        (b"journal 2\n0 close = closed\n\n0 close = closed\n", 3),
        (b"journal 3\n0 close = closed\nx\nx\n", 3),
        (b"journal 2\n0 close = closed\n0 close = closed\nx\nx", 4),
    ];
    for (text, line) in table {
        assert_eq!(rt; bad_line(alloc, text)?, line);
    }
    Ok(())
}

#[test]
fn a_line_of_no_event_is_bad(rt: HostRuntime) -> Result<(), Fail> {
    let alloc = rt.alloc();
    let table: [&[u8]; 42] = [
        b"",
        b"0",
        b"00 close = closed",
        b"4294967296 close = closed",
        b" 0 close = closed",
        b"0  close = closed",
        b"0 close  = closed",
        b"0 close =  closed",
        b"0 close = closed ",
        b"0 close = closed\r",
        b"0 close= closed",
        b"0 close =closed",
        b"0 close closed",
        b"0 close == closed",
        b"0 close 1 = closed",
        b"0 shut = closed",
        b"0 take = nojob open",
        b"0 take = refused",
        b"0 take = refused nojob",
        b"0 take = refused refused closed",
        b"0 take = took 1",
        b"0 take = took 4294967296 0",
        b"0 lock = locked 18446744073709551616",
        b"0 lock = locked 01",
        b"0 unwrap 4294967296 = nothing",
        b"0 deliver 1 0 0 0 = noted",
        b"0 deliver 1 0 1 0 0 = noted",
        b"0 lock = found 0 0 0",
        b"0 lock = found 0 1 0 0",
        b"0 lock = found none",
        b"0 lock = refused outoftext 1",
        b"0 lock = refused crosses",
        b"0 lock = nofold 1",
        b"0 fold 0 1 0 0 = noted",
        b"0 find 0 0 \"\" case part = noted",
        b"0 range 0 1 0 0 none void = noted",
        b"0 check word \"\" = posted 1",
        b"0 outcome append = noted",
        b"0 outcome load ok = noted",
        b"0 insert 0 0 \"\t\" = noted",
        b"0 insert 0 0 \"\\x09\" = noted",
        b"0 insert 0 0 \"\xFF\" = noted",
    ];
    for line in table {
        let mut text = Vec::new(alloc);
        text.extend_from_slice(b"journal 1\n")?;
        text.extend_from_slice(line)?;
        text.push(b'\n')?;
        assert_eq!(rt; bad_line(alloc, &text)?, 2);
    }
    Ok(())
}
