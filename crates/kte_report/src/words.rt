//! What the words of an event's line make.
ghost use Rattle.std.specs.Prelude.{◌≡◌};
ghost use Rattle.kte_script.specs.declared.limits.Limits.TheVariants.{Journal};
ghost use Rattle.kte_script.specs.Table.{row_in};
ghost use Rattle.kte_script.specs.Reading.{Moves, row_at, row_or_fault, front_at};
ghost use Rattle.kte_report.specs.EventTable.{deliver_row, call_rows, nocolumn_row, splitspair_row, notlocked_row, range_refusal_rows, other_refusal_rows, refusal_rows, edited_row, cut_row, range_row, took_row, delivered_row, other_reply_rows, reply_rows};
ghost use Rattle.kte_report.specs.EventReading.{request_at, reply_at, equals_at, event_at};

use kte_core::{Event, OutsideCall, Refusal, Reply, Request};
use kte_fold::FoldRefused;
use kte_place::Place;
use kte_script::words::Words;
use kte_script::{Limits, ReadError};
use kte_text::Misfit;
use std::alloc::Global;

/// Takes an event.
#[tactic(auto, unfolding(crate::specs::EventReading::event_at))]
pub(crate) fn take_event(alloc: Global, words: &mut Words) -> Result<Event, ReadError>
    ensures { Moves result words.new.rest.now (event_at words.old.rest.now) }
{
    let seat = words.short(Limits::Journal)?;
    let request = take_request(alloc, words)?;
    take_equals(words)?;
    let reply = take_reply(alloc, words)?;
    Ok(Event {
        seat,
        request,
        reply,
    })
}

/// Takes `=`.
#[tactic(auto, unfolding(crate::specs::EventReading::equals_at))]
fn take_equals(words: &mut Words) -> Result<(), ReadError>
    ensures { Moves result words.new.rest.now (equals_at words.old.rest.now) }
{
    let (word, left) = words.word();
    if word == b"=".as_slice() {
        Ok(())
    } else {
        Err(ReadError::Misfit { left })
    }
}

/// Takes a request.
#[tactic(auto, unfolding(crate::specs::EventReading::request_at, kte_script::specs::Reading::row_at))]
fn take_request(alloc: Global, words: &mut Words) -> Result<Request, ReadError>
    ensures { Moves result words.new.rest.now (request_at words.old.rest.now) }
{
    let start = words.rest;
    let (word, _) = words.word();
    if word == b"outcome".as_slice() {
        take_outcome(words)
    } else if word == b"close".as_slice() {
        Ok(Request::Close)
    } else if word == b"take".as_slice() {
        Ok(Request::Take)
    } else if word == b"deliver".as_slice() {
        take_deliver(alloc, words)
    } else if word == b"giveback".as_slice() {
        let job = words.short(Limits::Journal)?;
        Ok(Request::GiveBack { job })
    } else {
        words.rest = start;
        let command = words.command(alloc, Limits::Journal)?;
        Ok(Request::Cmd(command))
    }
}

#[tactic(auto, unfolding(kte_script::specs::Reading::row_at))]
fn take_deliver(alloc: Global, words: &mut Words) -> Result<Request, ReadError>
    ensures { Moves result words.new.rest.now (row_at Journal deliver_row words.old.rest.now) }
{
    let job = words.short(Limits::Journal)?;
    let findings = words.spans(alloc, Limits::Journal)?;
    Ok(Request::Deliver { job, findings })
}

/// Takes the words after `outcome`.
#[tactic(auto, unfolding(kte_script::specs::Reading::front_at, kte_script::specs::Reading::row_at))]
fn take_outcome(words: &mut Words) -> Result<Request, ReadError>
    ensures { Moves result words.new.rest.now (front_at Journal call_rows words.old.rest.now) }
{
    let (word, left) = words.word();
    let call = if word == b"append".as_slice() {
        OutsideCall::Append
    } else if word == b"sync".as_slice() {
        OutsideCall::Sync
    } else if word == b"save".as_slice() {
        OutsideCall::Save
    } else {
        return Err(ReadError::Misfit { left });
    };
    let ok = words.succeeds()?;
    Ok(Request::Outcome { call, ok })
}

/// Takes a reply.
#[tactic(auto, unfolding(crate::specs::EventReading::reply_at, kte_script::specs::Reading::front_at))]
fn take_reply(alloc: Global, words: &mut Words) -> Result<Reply, ReadError>
    ensures { Moves result words.new.rest.now (reply_at words.old.rest.now) }
{
    let (word, left) = words.word();
    if word == b"refused".as_slice() {
        let refusal = take_refusal(words)?;
        Ok(Reply::Refused(refusal))
    } else {
        take_reply_of(alloc, words, word, left)
    }
}

/// Takes the fields of the reply that a word names. From that word on `left` bytes are left.
#[tactic(auto, unfolding(kte_script::specs::Reading::row_at))]
fn take_reply_of(
    alloc: Global,
    words: &mut Words,
    word: &[u8],
    left: usize,
) -> Result<Reply, ReadError>
    ensures { Moves result words.new.rest.now
        (row_or_fault Journal (row_in reply_rows word.now) left words.old.rest.now) }
{
    if word == b"edited".as_slice() {
        take_edited(words)
    } else if word == b"cut".as_slice() {
        take_cut(words)
    } else if word == b"depth".as_slice() {
        let depth = words.short(Limits::Journal)?;
        Ok(Reply::Depth { depth })
    } else if word == b"range".as_slice() {
        take_range(words)
    } else if word == b"dropped".as_slice() {
        let id = words.long(Limits::Journal)?;
        Ok(Reply::Dropped { id })
    } else if word == b"locked".as_slice() {
        let revision = words.long(Limits::Journal)?;
        Ok(Reply::Locked { revision })
    } else if word == b"unlocked".as_slice() {
        let revision = words.long(Limits::Journal)?;
        Ok(Reply::Unlocked { revision })
    } else if word == b"landed".as_slice() {
        let span = words.span_or_invalid(Limits::Journal)?;
        Ok(Reply::Landed { span })
    } else if word == b"found".as_slice() {
        let spans = words.spans(alloc, Limits::Journal)?;
        Ok(Reply::Found { spans })
    } else {
        take_other_reply(words, word, left)
    }
}

/// The same for the replies about jobs, outcomes and the close of the session.
#[tactic(auto, unfolding(kte_script::specs::Reading::row_at))]
fn take_other_reply(words: &mut Words, word: &[u8], left: usize) -> Result<Reply, ReadError>
    ensures { Moves result words.new.rest.now
        (row_or_fault Journal (row_in other_reply_rows word.now) left words.old.rest.now) }
{
    if word == b"posted".as_slice() {
        let job = words.short(Limits::Journal)?;
        Ok(Reply::Posted { job })
    } else if word == b"asked".as_slice() {
        Ok(Reply::Asked)
    } else if word == b"took".as_slice() {
        take_took(words)
    } else if word == b"delivered".as_slice() {
        take_delivered(words)
    } else if word == b"returned".as_slice() {
        let job = words.short(Limits::Journal)?;
        Ok(Reply::Returned { job })
    } else if word == b"noted".as_slice() {
        Ok(Reply::Noted)
    } else if word == b"closed".as_slice() {
        Ok(Reply::Closed)
    } else {
        Err(ReadError::Misfit { left })
    }
}

#[tactic(auto, unfolding(kte_script::specs::Reading::row_at))]
fn take_edited(words: &mut Words) -> Result<Reply, ReadError>
    ensures { Moves result words.new.rest.now (row_at Journal edited_row words.old.rest.now) }
{
    let steps = words.long(Limits::Journal)?;
    let revision = words.long(Limits::Journal)?;
    let depth = words.short(Limits::Journal)?;
    Ok(Reply::Edited {
        steps,
        revision,
        depth,
    })
}

#[tactic(auto, unfolding(kte_script::specs::Reading::row_at))]
fn take_cut(words: &mut Words) -> Result<Reply, ReadError>
    ensures { Moves result words.new.rest.now (row_at Journal cut_row words.old.rest.now) }
{
    let steps = words.long(Limits::Journal)?;
    let revision = words.long(Limits::Journal)?;
    let depth = words.short(Limits::Journal)?;
    Ok(Reply::Cut {
        steps,
        revision,
        depth,
    })
}

#[tactic(auto, unfolding(kte_script::specs::Reading::row_at))]
fn take_range(words: &mut Words) -> Result<Reply, ReadError>
    ensures { Moves result words.new.rest.now (row_at Journal range_row words.old.rest.now) }
{
    let id = words.long(Limits::Journal)?;
    let span = words.span_or_invalid(Limits::Journal)?;
    Ok(Reply::Range { id, span })
}

#[tactic(auto, unfolding(kte_script::specs::Reading::row_at))]
fn take_took(words: &mut Words) -> Result<Reply, ReadError>
    ensures { Moves result words.new.rest.now (row_at Journal took_row words.old.rest.now) }
{
    let job = words.short(Limits::Journal)?;
    let revision = words.long(Limits::Journal)?;
    Ok(Reply::Took { job, revision })
}

#[tactic(auto, unfolding(kte_script::specs::Reading::row_at))]
fn take_delivered(words: &mut Words) -> Result<Reply, ReadError>
    ensures { Moves result words.new.rest.now (row_at Journal delivered_row words.old.rest.now) }
{
    let job = words.short(Limits::Journal)?;
    let first = words.long(Limits::Journal)?;
    let count = words.long(Limits::Journal)?;
    Ok(Reply::Delivered { job, first, count })
}

/// Takes a refusal.
#[tactic(auto, unfolding(kte_script::specs::Reading::front_at))]
fn take_refusal(words: &mut Words) -> Result<Refusal, ReadError>
    ensures { Moves result words.new.rest.now (front_at Journal refusal_rows words.old.rest.now) }
{
    let (word, left) = words.word();
    take_refusal_of(words, word, left)
}

/// Takes the fields of the refusal that a word names. From that word on `left` bytes are left.
#[tactic(auto, unfolding(kte_script::specs::Reading::row_at))]
fn take_refusal_of(words: &mut Words, word: &[u8], left: usize) -> Result<Refusal, ReadError>
    ensures { Moves result words.new.rest.now
        (row_or_fault Journal (row_in refusal_rows word.now) left words.old.rest.now) }
{
    if word == b"noline".as_slice() {
        let line = words.line(Limits::Journal)?;
        Ok(Refusal::Misfit(Misfit::NoLine { line }))
    } else if word == b"nocolumn".as_slice() {
        take_nocolumn(words)
    } else if word == b"splitspair".as_slice() {
        take_splitspair(words)
    } else if word == b"firstline".as_slice() {
        Ok(Refusal::Misfit(Misfit::FirstLine))
    } else if word == b"toolarge".as_slice() {
        let size = words.long(Limits::Journal)?;
        Ok(Refusal::Misfit(Misfit::TooLarge { size }))
    } else {
        take_other_refusal(words, word, left)
    }
}

#[tactic(auto, unfolding(kte_script::specs::Reading::row_at))]
fn take_nocolumn(words: &mut Words) -> Result<Refusal, ReadError>
    ensures { Moves result words.new.rest.now (row_at Journal nocolumn_row words.old.rest.now) }
{
    let Place { line, column } = words.place(Limits::Journal)?;
    Ok(Refusal::Misfit(Misfit::NoColumn { line, column }))
}

#[tactic(auto, unfolding(kte_script::specs::Reading::row_at))]
fn take_splitspair(words: &mut Words) -> Result<Refusal, ReadError>
    ensures { Moves result words.new.rest.now (row_at Journal splitspair_row words.old.rest.now) }
{
    let Place { line, column } = words.place(Limits::Journal)?;
    Ok(Refusal::Misfit(Misfit::SplitsPair { line, column }))
}

/// Takes the fields of the refusal that a word names, if it is no misfit. From that word on `left`
/// bytes are left.
#[tactic(auto, unfolding(kte_script::specs::Reading::row_at))]
fn take_other_refusal(words: &mut Words, word: &[u8], left: usize) -> Result<Refusal, ReadError>
    ensures { Moves result words.new.rest.now
        (row_or_fault Journal (row_in other_refusal_rows word.now) left words.old.rest.now) }
{
    if word == b"notopen".as_slice() {
        Ok(Refusal::NotOpen)
    } else if word == b"stillopen".as_slice() {
        let depth = words.short(Limits::Journal)?;
        Ok(Refusal::StillOpen { depth })
    } else if word == b"nothing".as_slice() {
        Ok(Refusal::Nothing)
    } else if word == b"revisionsfull".as_slice() {
        let revision = words.long(Limits::Journal)?;
        Ok(Refusal::RevisionsFull { revision })
    } else if word == b"notlocked".as_slice() {
        take_notlocked(words)
    } else if word == b"notowned".as_slice() {
        let revision = words.long(Limits::Journal)?;
        Ok(Refusal::NotOwned { revision })
    } else if word == b"nojob".as_slice() {
        let closed = words.closes()?;
        Ok(Refusal::NoJob { closed })
    } else if word == b"nottaken".as_slice() {
        let job = words.short(Limits::Journal)?;
        Ok(Refusal::NotTaken { job })
    } else if word == b"closed".as_slice() {
        Ok(Refusal::Closed)
    } else {
        take_range_refusal(words, word, left)
    }
}

/// The same for the refusals about ranges, folds and searches.
#[tactic(auto, unfolding(kte_script::specs::Reading::row_at))]
fn take_range_refusal(words: &mut Words, word: &[u8], left: usize) -> Result<Refusal, ReadError>
    ensures { Moves result words.new.rest.now
        (row_or_fault Journal (row_in range_refusal_rows word.now) left words.old.rest.now) }
{
    if word == b"norange".as_slice() {
        let id = words.long(Limits::Journal)?;
        Ok(Refusal::NoRange { id })
    } else if word == b"nofold".as_slice() {
        let id = words.long(Limits::Journal)?;
        Ok(Refusal::NoFold { id })
    } else if word == b"outoftext".as_slice() {
        Ok(Refusal::Fold(FoldRefused::OutOfText))
    } else if word == b"emptyspan".as_slice() {
        Ok(Refusal::Fold(FoldRefused::EmptySpan))
    } else if word == b"crosses".as_slice() {
        let id = words.long(Limits::Journal)?;
        Ok(Refusal::Fold(FoldRefused::Crosses { id }))
    } else if word == b"nomatch".as_slice() {
        Ok(Refusal::NoMatch)
    } else {
        Err(ReadError::Misfit { left })
    }
}

#[tactic(auto, unfolding(kte_script::specs::Reading::row_at))]
fn take_notlocked(words: &mut Words) -> Result<Refusal, ReadError>
    ensures { Moves result words.new.rest.now (row_at Journal notlocked_row words.old.rest.now) }
{
    let revision = words.long(Limits::Journal)?;
    let oldest = words.long_or_none(Limits::Journal)?;
    Ok(Refusal::NotLocked { revision, oldest })
}
