//! Reading a journal.
ghost use Rattle.std.specs.Prelude.{◌≡◌, ℕ, ◌<◌, ◌^◌, true, [], ◌∷◌, ◌++◌, length, IfOk, IfErr, IfSome, IfNone, MatchOption};
ghost use Rattle.std.specs.List.{position};
ghost use Rattle.kte_core.specs.declared.event.Event.{Event};
ghost use Rattle.kte_report.specs.Lines.{is_end, is_in_line};
ghost use Rattle.kte_report.specs.Events.{event_text, IsHeld};
ghost use Rattle.kte_report.specs.Journal.{head, journal_text, AreHeld, IsBadJournal, HasEvent, HasNoEvent, Names};

use crate::fault::JournalFault;
use crate::spelling::{push_event, push_head};
use crate::words::take_event;
use kte_core::{Event, Journal};
use kte_script::words::Words;
use kte_script::{Limits, ReadError};
use std::alloc::{AllocError, Global};

/// Reads a journal from its text, as [`write_journal`](crate::write_journal) returns it. Fails with
/// the first line that no journal has there, or if out of memory.
pub fn read_journal(alloc: Global, bytes: &[u8]) -> Result<Journal, JournalFault>
    ensures text { IfOk result (λ journal. bytes.now ≡ journal_text journal.events) }
    ensures held { IfOk result (λ journal. AreHeld journal.events) }
    ensures bad { IfErr result (λ fault. Names fault (IsBadJournal bytes.now)) }
{
    prove!(bytes.len() < usize::MAX);
    let Some((first, rest)) = split_line(bytes) else {
        return Err(JournalFault::Bad { line: 1 });
    };
    let mut spelled = Vec::new(alloc);
    let Some(count) = read_head(first, &mut spelled)? else {
        return Err(JournalFault::Bad { line: 1 });
    };
    let mut journal = Journal::new(alloc);
    let mut rest = rest;
    'events: for n in 0..count {
        rest = read_line(alloc, n + 2, rest, &mut journal, &mut spelled)?;
    }
    if rest.is_empty() {
        Ok(journal)
    } else {
        Err(JournalFault::Bad { line: count + 2 })
    }
}

/// Reads the line of this number, from 1, at the front of `rest`, and adds its event to the
/// journal. Returns the bytes after the line's end.
fn read_line<'a>(
    alloc: Global,
    number: u64,
    rest: &'a [u8],
    journal: &mut Journal,
    spelled: &mut Vec<u8>,
) -> Result<&'a [u8], JournalFault>
    ensures event { IfOk result (λ after. (event : Event) × HasEvent rest.now event after.now
        × (journal.new.events ≡ journal.old.events ++ event ∷ [])) }
    ensures bad { IfErr result (λ fault. Names fault (λ line.
        (line ≡ number) × HasNoEvent rest.now)) }
{
    let Some((line, after)) = split_line(rest) else {
        return Err(JournalFault::Bad { line: number });
    };
    let Some(event) = read_event(alloc, line, spelled)? else {
        return Err(JournalFault::Bad { line: number });
    };
    journal.push(event)?;
    Ok(after)
}

/// Returns the first line, without its LF, and the bytes after it; `None` if there is no LF.
fn split_line(bytes: &[u8]) -> Option<(&[u8], &[u8])>
    ensures { MatchOption result (is_in_line bytes.now ≡ true) (λ parts.
        (bytes.now ≡ parts.0.now ++ 10 ∷ parts.1.now) × (is_in_line parts.0.now ≡ true)) }
{
    let end = first_end(bytes)?;
    let (line, _) = bytes.split_at(end);
    let (_, after) = bytes.split_at(end + 1);
    Some((line, after))
}

/// Returns the place of the first LF.
fn first_end(bytes: &[u8]) -> Option<usize>
    ensures first { result ≡ position is_end bytes.now }
    ensures within { IfSome result (λ end. end < length bytes.now) }
{
    bytes.iter().position(|byte| *byte == b'\n')
}

/// Returns the number of events that the first line tells, if it is one. `spelled` is used for
/// spelling it again.
fn read_head(line: &[u8], spelled: &mut Vec<u8>) -> Result<Option<u64>, AllocError>
    ensures some { IfOk result (λ found. IfSome found (λ count.
        (count < 2 ^ 64) × (line.now ≡ head count))) }
    ensures none { IfOk result (λ found. IfNone found
        ((count : ℕ) → count < 2 ^ 64 → ¬ (line.now ≡ head count))) }
{
    let mut words = Words { rest: line };
    let _ = words.word();
    let count = match words.long(Limits::Journal) {
        Ok(count) => count,
        Err(ReadError::Misfit { .. }) => return Ok(None),
        Err(ReadError::NoMemory) => return Err(AllocError),
    };
    spelled.clear();
    push_head(spelled, count)?;
    if spelled.as_slice() == line {
        Ok(Some(count))
    } else {
        Ok(None)
    }
}

/// Returns the event of a line, if it is one's. `spelled` is used for spelling it again.
fn read_event(
    alloc: Global,
    line: &[u8],
    spelled: &mut Vec<u8>,
) -> Result<Option<Event>, AllocError>
    ensures some { IfOk result (λ found. IfSome found (λ event.
        IsHeld event × (event_text event ≡ line.now))) }
    ensures none { IfOk result (λ found. IfNone found
        ((event : Event) → IsHeld event → ¬ (event_text event ≡ line.now))) }
{
    let mut words = Words { rest: line };
    let event = match take_event(alloc, &mut words) {
        Ok(event) => event,
        Err(ReadError::Misfit { .. }) => return Ok(None),
        Err(ReadError::NoMemory) => return Err(AllocError),
    };
    spelled.clear();
    push_event(spelled, &event)?;
    if spelled.as_slice() == line {
        Ok(Some(event))
    } else {
        Ok(None)
    }
}
