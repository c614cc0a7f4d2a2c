//! The text of a journal.
ghost use Rattle.std.specs.Prelude.{◌≡◌, [], ◌∷◌, ◌++◌, IfOk, OnOk, OnErr};
ghost use Rattle.kte_script.specs.Spelled.{Keeps};
ghost use Rattle.kte_report.specs.Events.{event_text};
ghost use Rattle.kte_report.specs.Journal.{head, journal_text};

use crate::spelling::{push_event, push_head};
use kte_core::{Event, Journal};
use std::alloc::{AllocError, Global};

/// Returns the text of a journal: `journal` and the number of events, and then the line of each.
/// Each line ends by LF. Fails if out of memory.
pub fn write_journal(alloc: Global, journal: &Journal) -> Result<Vec<u8>, AllocError>
    ensures { IfOk result (λ bytes. bytes.items ≡ journal_text journal.now.events) }
{
    let mut bytes = Vec::new(alloc);
    push_journal(journal, &mut bytes)?;
    Ok(bytes)
}

/// Appends the text of a journal, as [`write_journal`] returns it. If out of memory, `out` is
/// unchanged.
pub fn push_journal(journal: &Journal, out: &mut Vec<u8>) -> Result<(), AllocError>
    ensures ok { OnOk result (out.new.items ≡ out.old.items ++ journal_text journal.now.events) }
    ensures err { OnErr result (out.new.items ≡ out.old.items) }
{
    let start = out.len();
    let pushed = push_lines(journal, out);
    if pushed.is_err() {
        out.truncate(start);
    }
    pushed
}

/// Appends the lines of a journal.
fn push_lines(journal: &Journal, out: &mut Vec<u8>) -> Result<(), AllocError>
    ensures ok { OnOk result (out.new.items ≡ out.old.items ++ journal_text journal.now.events) }
    ensures err { OnErr result (Keeps out.old.items out.new.items) }
{
    push_first_line(out, journal.len())?;
    for n in 0..journal.len() {
        push_line(out, journal.get(n))?;
    }
    Ok(())
}

/// Appends the first line, with its end.
#[tactic(auto, using(crate::proofs::WritingLemmas::keeps, crate::proofs::WritingLemmas::two_parts))]
fn push_first_line(out: &mut Vec<u8>, count: u64) -> Result<(), AllocError>
    ensures ok { OnOk result (out.new.items ≡ out.old.items ++ (head count ++ 10 ∷ [])) }
    ensures err { OnErr result (Keeps out.old.items out.new.items) }
{
    push_head(out, count)?;
    out.push(b'\n')?;
    Ok(())
}

/// Appends the line of an event, with its end.
#[tactic(auto, using(crate::proofs::WritingLemmas::keeps, crate::proofs::WritingLemmas::two_parts))]
fn push_line(out: &mut Vec<u8>, event: &Event) -> Result<(), AllocError>
    ensures ok { OnOk result (out.new.items ≡ out.old.items ++ (event_text event.now ++ 10 ∷ [])) }
    ensures err { OnErr result (Keeps out.old.items out.new.items) }
{
    push_event(out, event)?;
    out.push(b'\n')?;
    Ok(())
}
