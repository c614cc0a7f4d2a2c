//! The lines of a journal, without their ends.
ghost use Rattle.std.specs.Prelude.{◌≡◌, [], ◌++◌, OnOk, OnErr};
ghost use Rattle.std.specs.List.{flat_map};
ghost use Rattle.kte_script.specs.Fields.{spell_number, spell_place, spell_or_none, spell_or_invalid, spell_spans, spell_succeeds};
ghost use Rattle.kte_place.specs.Place.{at};
ghost use Rattle.kte_script.specs.Spelled.{Keeps};
ghost use Rattle.kte_report.specs.Events.{refusal_spelling, request_spelling, reply_spelling, event_text};
ghost use Rattle.kte_report.specs.Journal.{head};

use itoa::Buffer;
use kte_core::{Event, OutsideCall, Refusal, Reply, Request};
use kte_fold::FoldRefused;
use kte_place::{Place, Span, Spans};
use kte_script::push::{
    push_closes, push_number, push_number_or_none, push_place, push_span_or_invalid, push_spans,
    push_succeeds,
};
use kte_script::spell;
use kte_text::Misfit;
use std::alloc::AllocError;

/// Appends the first line: the number of events.
#[tactic(auto, using(crate::proofs::WritingLemmas::keeps, crate::proofs::WritingLemmas::two_parts))]
pub(crate) fn push_head(out: &mut Vec<u8>, count: u64) -> Result<(), AllocError>
    ensures ok { OnOk result (out.new.items ≡ out.old.items ++ head count) }
    ensures err { OnErr result (Keeps out.old.items out.new.items) }
{
    out.extend_from_slice(b"journal")?;
    push_number(out, count)
}

/// Appends the line of an event.
#[tactic(auto, using(crate::proofs::WritingLemmas::keeps))]
pub(crate) fn push_event(out: &mut Vec<u8>, event: &Event) -> Result<(), AllocError>
    ensures ok { OnOk result (out.new.items ≡ out.old.items ++ event_text event.now) }
    ensures err { OnErr result (Keeps out.old.items out.new.items) }
{
    let mut buffer = Buffer::new();
    out.extend_from_slice(buffer.format(event.seat).as_bytes())?;
    out.push(b' ')?;
    push_request(out, &event.request)?;
    out.extend_from_slice(b" = ")?;
    push_reply(out, &event.reply)
}

/// Appends the spelling of a request.
fn push_request(out: &mut Vec<u8>, request: &Request) -> Result<(), AllocError>
    ensures ok { OnOk result (out.new.items ≡ out.old.items ++ request_spelling request.now) }
    ensures err { OnErr result (Keeps out.old.items out.new.items) }
{
    match request {
        Request::Cmd(command) => spell(command, out),
        Request::Close => out.extend_from_slice(b"close"),
        Request::Take => out.extend_from_slice(b"take"),
        Request::Deliver { job, findings } => push_deliver(out, *job, findings),
        Request::GiveBack { job } => push_numbers(out, b"giveback", &[u64::from(*job)]),
        Request::Outcome { call, ok } => push_outcome(out, *call, *ok),
    }
}

#[tactic(auto, using(crate::proofs::WritingLemmas::keeps, crate::proofs::WritingLemmas::two_fields))]
fn push_deliver(out: &mut Vec<u8>, job: u32, findings: &Spans) -> Result<(), AllocError>
    ensures ok { OnOk result (out.new.items
        ≡ out.old.items ++ request_spelling (Request.Deliver job findings.now)) }
    ensures err { OnErr result (Keeps out.old.items out.new.items) }
{
    out.extend_from_slice(b"deliver")?;
    push_number(out, u64::from(job))?;
    push_spans(out, findings)
}

#[tactic(auto, using(crate::proofs::WritingLemmas::keeps, crate::proofs::WritingLemmas::two_fields))]
fn push_outcome(out: &mut Vec<u8>, call: OutsideCall, ok: bool) -> Result<(), AllocError>
    ensures ok { OnOk result (out.new.items
        ≡ out.old.items ++ request_spelling (Request.Outcome call ok)) }
    ensures err { OnErr result (Keeps out.old.items out.new.items) }
{
    out.extend_from_slice(b"outcome ")?;
    out.extend_from_slice(match call {
        OutsideCall::Append => b"append".as_slice(),
        OutsideCall::Sync => b"sync".as_slice(),
        OutsideCall::Save => b"save".as_slice(),
    })?;
    push_succeeds(out, ok)
}

/// Appends the spelling of a reply.
fn push_reply(out: &mut Vec<u8>, reply: &Reply) -> Result<(), AllocError>
    ensures ok { OnOk result (out.new.items ≡ out.old.items ++ reply_spelling reply.now) }
    ensures err { OnErr result (Keeps out.old.items out.new.items) }
{
    match reply {
        Reply::Edited {
            steps,
            revision,
            depth,
        } => push_numbers(out, b"edited", &[*steps, *revision, u64::from(*depth)]),
        Reply::Cut {
            steps,
            revision,
            depth,
        } => push_numbers(out, b"cut", &[*steps, *revision, u64::from(*depth)]),
        Reply::Depth { depth } => push_numbers(out, b"depth", &[u64::from(*depth)]),
        Reply::Range { id, span } => push_range(out, *id, span),
        Reply::Dropped { id } => push_numbers(out, b"dropped", &[*id]),
        Reply::Locked { revision } => push_numbers(out, b"locked", &[*revision]),
        Reply::Unlocked { revision } => push_numbers(out, b"unlocked", &[*revision]),
        Reply::Landed { span } => push_landed(out, span),
        Reply::Found { spans } => push_found(out, spans),
        Reply::Posted { job } => push_numbers(out, b"posted", &[u64::from(*job)]),
        Reply::Asked => out.extend_from_slice(b"asked"),
        Reply::Took { job, revision } => push_numbers(out, b"took", &[u64::from(*job), *revision]),
        Reply::Delivered { job, first, count } => {
            push_numbers(out, b"delivered", &[u64::from(*job), *first, *count])
        }
        Reply::Returned { job } => push_numbers(out, b"returned", &[u64::from(*job)]),
        Reply::Noted => out.extend_from_slice(b"noted"),
        Reply::Closed => out.extend_from_slice(b"closed"),
        Reply::Refused(refusal) => push_refused(out, refusal),
    }
}

#[tactic(auto, using(crate::proofs::WritingLemmas::keeps, crate::proofs::WritingLemmas::two_fields))]
fn push_range(out: &mut Vec<u8>, id: u64, span: &Option<Span>) -> Result<(), AllocError>
    ensures ok { OnOk result (out.new.items
        ≡ out.old.items ++ reply_spelling (Reply.Range id span.now)) }
    ensures err { OnErr result (Keeps out.old.items out.new.items) }
{
    out.extend_from_slice(b"range")?;
    push_number(out, id)?;
    push_span_or_invalid(out, span)
}

#[tactic(auto, using(crate::proofs::WritingLemmas::keeps, crate::proofs::WritingLemmas::one_field))]
fn push_landed(out: &mut Vec<u8>, span: &Option<Span>) -> Result<(), AllocError>
    ensures ok { OnOk result (out.new.items
        ≡ out.old.items ++ reply_spelling (Reply.Landed span.now)) }
    ensures err { OnErr result (Keeps out.old.items out.new.items) }
{
    out.extend_from_slice(b"landed")?;
    push_span_or_invalid(out, span)
}

#[tactic(auto, using(crate::proofs::WritingLemmas::keeps, crate::proofs::WritingLemmas::one_field))]
fn push_found(out: &mut Vec<u8>, spans: &Spans) -> Result<(), AllocError>
    ensures ok { OnOk result (out.new.items
        ≡ out.old.items ++ reply_spelling (Reply.Found spans.now)) }
    ensures err { OnErr result (Keeps out.old.items out.new.items) }
{
    out.extend_from_slice(b"found")?;
    push_spans(out, spans)
}

#[tactic(auto, using(crate::proofs::WritingLemmas::keeps))]
fn push_refused(out: &mut Vec<u8>, refusal: &Refusal) -> Result<(), AllocError>
    ensures ok { OnOk result (out.new.items
        ≡ out.old.items ++ reply_spelling (Reply.Refused refusal.now)) }
    ensures err { OnErr result (Keeps out.old.items out.new.items) }
{
    out.extend_from_slice(b"refused ")?;
    push_refusal(out, refusal)
}

/// Appends the spelling of a refusal.
fn push_refusal(out: &mut Vec<u8>, refusal: &Refusal) -> Result<(), AllocError>
    ensures ok { OnOk result (out.new.items ≡ out.old.items ++ refusal_spelling refusal.now) }
    ensures err { OnErr result (Keeps out.old.items out.new.items) }
{
    match refusal {
        Refusal::Misfit(misfit) => push_misfit(out, misfit),
        Refusal::NotOpen => out.extend_from_slice(b"notopen"),
        Refusal::StillOpen { depth } => push_numbers(out, b"stillopen", &[u64::from(*depth)]),
        Refusal::Nothing => out.extend_from_slice(b"nothing"),
        Refusal::RevisionsFull { revision } => push_numbers(out, b"revisionsfull", &[*revision]),
        Refusal::NoRange { id } => push_numbers(out, b"norange", &[*id]),
        Refusal::NoFold { id } => push_numbers(out, b"nofold", &[*id]),
        Refusal::Fold(refused) => push_fold_refused(out, refused),
        Refusal::NoMatch => out.extend_from_slice(b"nomatch"),
        Refusal::NotLocked { revision, oldest } => push_notlocked(out, *revision, *oldest),
        Refusal::NotOwned { revision } => push_numbers(out, b"notowned", &[*revision]),
        Refusal::NoJob { closed } => push_nojob(out, *closed),
        Refusal::NotTaken { job } => push_numbers(out, b"nottaken", &[u64::from(*job)]),
        Refusal::Closed => out.extend_from_slice(b"closed"),
    }
}

fn push_misfit(out: &mut Vec<u8>, misfit: &Misfit) -> Result<(), AllocError>
    ensures ok { OnOk result (out.new.items
        ≡ out.old.items ++ refusal_spelling (Refusal.Misfit misfit.now)) }
    ensures err { OnErr result (Keeps out.old.items out.new.items) }
{
    match misfit {
        Misfit::NoLine { line } => push_numbers(out, b"noline", &[u64::from(*line)]),
        Misfit::NoColumn { line, column } => push_at(out, b"nocolumn", *line, *column),
        Misfit::SplitsPair { line, column } => push_at(out, b"splitspair", *line, *column),
        Misfit::FirstLine => out.extend_from_slice(b"firstline"),
        Misfit::TooLarge { size } => push_numbers(out, b"toolarge", &[*size]),
    }
}

fn push_fold_refused(out: &mut Vec<u8>, refused: &FoldRefused) -> Result<(), AllocError>
    ensures ok { OnOk result (out.new.items
        ≡ out.old.items ++ refusal_spelling (Refusal.Fold refused.now)) }
    ensures err { OnErr result (Keeps out.old.items out.new.items) }
{
    match refused {
        FoldRefused::OutOfText => out.extend_from_slice(b"outoftext"),
        FoldRefused::EmptySpan => out.extend_from_slice(b"emptyspan"),
        FoldRefused::Crosses { id } => push_numbers(out, b"crosses", &[*id]),
    }
}

#[tactic(auto, using(crate::proofs::WritingLemmas::keeps, crate::proofs::WritingLemmas::two_fields))]
fn push_notlocked(out: &mut Vec<u8>, revision: u64, oldest: Option<u64>) -> Result<(), AllocError>
    ensures ok { OnOk result (out.new.items
        ≡ out.old.items ++ refusal_spelling (Refusal.NotLocked revision oldest)) }
    ensures err { OnErr result (Keeps out.old.items out.new.items) }
{
    out.extend_from_slice(b"notlocked")?;
    push_number(out, revision)?;
    push_number_or_none(out, oldest)
}

#[tactic(auto, using(crate::proofs::WritingLemmas::keeps, crate::proofs::WritingLemmas::one_field))]
fn push_nojob(out: &mut Vec<u8>, closed: bool) -> Result<(), AllocError>
    ensures ok { OnOk result (out.new.items
        ≡ out.old.items ++ refusal_spelling (Refusal.NoJob closed)) }
    ensures err { OnErr result (Keeps out.old.items out.new.items) }
{
    out.extend_from_slice(b"nojob")?;
    push_closes(out, closed)
}

/// Appends a word and a place.
#[tactic(auto, using(crate::proofs::WritingLemmas::keeps, crate::proofs::WritingLemmas::one_field))]
fn push_at(out: &mut Vec<u8>, word: &[u8], line: u32, column: u64) -> Result<(), AllocError>
    ensures ok { OnOk result (out.new.items
        ≡ out.old.items ++ (word.now ++ (spell_place (at line column) ++ []))) }
    ensures err { OnErr result (Keeps out.old.items out.new.items) }
{
    out.extend_from_slice(word)?;
    push_place(out, Place { line, column })
}

/// Appends a word and numbers, a space before each.
fn push_numbers(out: &mut Vec<u8>, word: &[u8], numbers: &[u64]) -> Result<(), AllocError>
    ensures ok { OnOk result (out.new.items
        ≡ out.old.items ++ (word.now ++ flat_map spell_number numbers.now)) }
    ensures err { OnErr result (Keeps out.old.items out.new.items) }
{
    out.extend_from_slice(word)?;
    for number in numbers {
        push_number(out, *number)?;
    }
    Ok(())
}
