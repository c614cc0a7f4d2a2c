//! The canonical spelling of a command.
ghost use Rattle.std.specs.Prelude.{◌≡◌, ◌↔◌, ℕ, List, ◌++◌, Some, IfOk, OnOk, OnErr, IsTrue};
ghost use Rattle.kte_edit.specs.declared.change.Change.TheVariants as Change;
ghost use Rattle.kte_command.specs.declared.command.Command.TheVariants.{Edit, MakeRange, SetRange, DropRange, ShowRange, Unlock, Land, Fold, Unfold, Find, FindBack, All, Check};
ghost use Rattle.kte_command.specs.declared.command.Command.{Command};
ghost use Rattle.kte_script.specs.Limits.{BeginsWith};
ghost use Rattle.kte_script.specs.Table.{spelling};
ghost use Rattle.kte_script.specs.Spelled.{Keeps};

use crate::fault::ReadError;
use crate::limits::Limits;
use crate::push::{
    push_empty, push_expand, push_number, push_place, push_query, push_rule, push_span, push_text,
};
use crate::words::Words;
use kte_command::Command;
use kte_edit::Change;
use kte_find::Rule;
use kte_place::{Empty, Expand, Place, Span};
use kte_search::Query;
use kte_text::Text;
use std::alloc::{AllocError, Global};

/// Appends the canonical spelling of a command: its word and its fields with one space between
/// them, numbers without zeros in front, the start of a span first. If out of memory, `out` is
/// unchanged.
pub fn spell(command: &Command, out: &mut Vec<u8>) -> Result<(), AllocError>
    ensures ok { OnOk result (out.new.items ≡ out.old.items ++ spelling command.now) }
    ensures err { OnErr result (out.new.items ≡ out.old.items) }
{
    let start = out.len();
    let spelled = push_command(out, command);
    if spelled.is_err() {
        out.truncate(start);
    }
    spelled
}

/// Returns the command whose canonical spelling and a space the bytes begin with, and the length of
/// the spelling, without the space; `None` if there is none. Fails if out of memory.
pub fn read_spelling(alloc: Global, bytes: &[u8]) -> Result<Option<(Command, u64)>, AllocError>
    ensures { IfOk result (λ found. (command : Command) (size : ℕ)
        → (found ≡ Some (command, size)) ↔ BeginsWith bytes.now command size) }
{
    let mut words = Words { rest: bytes };
    let command = match words.command(alloc, Limits::Journal) {
        Ok(command) => command,
        Err(ReadError::Misfit { .. }) => return Ok(None),
        Err(ReadError::NoMemory) => return Err(AllocError),
    };
    let mut spelled = Vec::new(alloc);
    spell(&command, &mut spelled)?;
    let size = spelled.len();
    spelled.push(b' ')?;
    if begins(bytes, &spelled) {
        Ok(Some((command, size as u64)))
    } else {
        Ok(None)
    }
}

/// Whether the bytes begin with `front`.
fn begins(bytes: &[u8], front: &[u8]) -> bool
    ensures { IsTrue result ↔ ((rest : List ℕ) × (bytes.now ≡ front.now ++ rest)) }
{
    bytes.starts_with(front)
}

fn push_command(out: &mut Vec<u8>, command: &Command) -> Result<(), AllocError>
    ensures ok { OnOk result (out.new.items ≡ out.old.items ++ spelling command.now) }
    ensures err { OnErr result (Keeps out.old.items out.new.items) }
{
    match command {
        Command::Edit { change } => push_change(out, change),
        Command::Begin => out.extend_from_slice(b"begin"),
        Command::End => out.extend_from_slice(b"end"),
        Command::Undo => out.extend_from_slice(b"undo"),
        Command::Redo => out.extend_from_slice(b"redo"),
        Command::MakeRange {
            span,
            expand,
            empty,
        } => push_range(out, span, *expand, *empty),
        Command::SetRange { id, span } => push_setrange(out, *id, span),
        Command::DropRange { id } => push_droprange(out, *id),
        Command::ShowRange { id } => push_where(out, *id),
        Command::Lock => out.extend_from_slice(b"lock"),
        Command::Unlock { revision } => push_unlock(out, *revision),
        Command::Land {
            revision,
            span,
            expand,
            empty,
        } => push_land(out, *revision, span, *expand, *empty),
        Command::Fold { span } => push_fold(out, span),
        Command::Unfold { id } => push_unfold(out, *id),
        Command::Find { from, query } => push_find(out, *from, query),
        Command::FindBack { before, query } => push_findback(out, *before, query),
        Command::All { query } => push_all(out, query),
        Command::Check { rule } => push_check(out, rule),
        Command::Sync => out.extend_from_slice(b"sync"),
        Command::Save => out.extend_from_slice(b"save"),
    }
}

fn push_change(out: &mut Vec<u8>, change: &Change) -> Result<(), AllocError>
    ensures ok { OnOk result (out.new.items ≡ out.old.items ++ spelling (Edit change.now)) }
    ensures err { OnErr result (Keeps out.old.items out.new.items) }
{
    match change {
        Change::Wrap { at } => push_wrap(out, *at),
        Change::Unwrap { line } => push_unwrap(out, *line),
        Change::Insert { at, text } => push_insert(out, *at, text),
        Change::Remove { span } => push_remove(out, span),
        Change::Replace { span, text } => push_replace(out, span, text),
    }
}

#[tactic(auto, using(crate::proofs::SpellingLemmas::two_fields, crate::proofs::SpellingLemmas::keeps))]
fn push_insert(out: &mut Vec<u8>, at: Place, text: &Text) -> Result<(), AllocError>
    ensures ok { OnOk result (out.new.items
        ≡ out.old.items ++ spelling (Edit (Change.Insert at text.now))) }
    ensures err { OnErr result (Keeps out.old.items out.new.items) }
{
    out.extend_from_slice(b"insert")?;
    push_place(out, at)?;
    push_text(out, text)
}

#[tactic(auto, using(crate::proofs::SpellingLemmas::one_field, crate::proofs::SpellingLemmas::keeps))]
fn push_wrap(out: &mut Vec<u8>, at: Place) -> Result<(), AllocError>
    ensures ok { OnOk result (out.new.items
        ≡ out.old.items ++ spelling (Edit (Change.Wrap at))) }
    ensures err { OnErr result (Keeps out.old.items out.new.items) }
{
    out.extend_from_slice(b"wrap")?;
    push_place(out, at)
}

#[tactic(auto, using(crate::proofs::SpellingLemmas::one_field, crate::proofs::SpellingLemmas::keeps))]
fn push_unwrap(out: &mut Vec<u8>, line: u32) -> Result<(), AllocError>
    ensures ok { OnOk result (out.new.items
        ≡ out.old.items ++ spelling (Edit (Change.Unwrap line))) }
    ensures err { OnErr result (Keeps out.old.items out.new.items) }
{
    out.extend_from_slice(b"unwrap")?;
    push_number(out, u64::from(line))
}

#[tactic(auto, using(crate::proofs::SpellingLemmas::one_field, crate::proofs::SpellingLemmas::keeps))]
fn push_remove(out: &mut Vec<u8>, span: &Span) -> Result<(), AllocError>
    ensures ok { OnOk result (out.new.items
        ≡ out.old.items ++ spelling (Edit (Change.Remove span.now))) }
    ensures err { OnErr result (Keeps out.old.items out.new.items) }
{
    out.extend_from_slice(b"remove")?;
    push_span(out, span)
}

#[tactic(auto, using(crate::proofs::SpellingLemmas::two_fields, crate::proofs::SpellingLemmas::keeps))]
fn push_replace(out: &mut Vec<u8>, span: &Span, text: &Text) -> Result<(), AllocError>
    ensures ok { OnOk result (out.new.items
        ≡ out.old.items ++ spelling (Edit (Change.Replace span.now text.now))) }
    ensures err { OnErr result (Keeps out.old.items out.new.items) }
{
    out.extend_from_slice(b"replace")?;
    push_span(out, span)?;
    push_text(out, text)
}

#[tactic(auto, using(crate::proofs::SpellingLemmas::three_fields, crate::proofs::SpellingLemmas::keeps, crate::proofs::SpellingLemmas::keeps_three))]
fn push_range(
    out: &mut Vec<u8>,
    span: &Span,
    expand: Expand,
    empty: Empty,
) -> Result<(), AllocError>
    ensures ok { OnOk result (out.new.items
        ≡ out.old.items ++ spelling (MakeRange span.now expand empty)) }
    ensures err { OnErr result (Keeps out.old.items out.new.items) }
{
    out.extend_from_slice(b"range")?;
    push_span(out, span)?;
    push_expand(out, expand)?;
    push_empty(out, empty)
}

#[tactic(auto, using(crate::proofs::SpellingLemmas::two_fields, crate::proofs::SpellingLemmas::keeps))]
fn push_setrange(out: &mut Vec<u8>, id: u64, span: &Span) -> Result<(), AllocError>
    ensures ok { OnOk result (out.new.items ≡ out.old.items ++ spelling (SetRange id span.now)) }
    ensures err { OnErr result (Keeps out.old.items out.new.items) }
{
    out.extend_from_slice(b"setrange")?;
    push_number(out, id)?;
    push_span(out, span)
}

#[tactic(auto, using(crate::proofs::SpellingLemmas::one_field, crate::proofs::SpellingLemmas::keeps))]
fn push_droprange(out: &mut Vec<u8>, id: u64) -> Result<(), AllocError>
    ensures ok { OnOk result (out.new.items ≡ out.old.items ++ spelling (DropRange id)) }
    ensures err { OnErr result (Keeps out.old.items out.new.items) }
{
    out.extend_from_slice(b"droprange")?;
    push_number(out, id)
}

#[tactic(auto, using(crate::proofs::SpellingLemmas::one_field, crate::proofs::SpellingLemmas::keeps))]
fn push_where(out: &mut Vec<u8>, id: u64) -> Result<(), AllocError>
    ensures ok { OnOk result (out.new.items ≡ out.old.items ++ spelling (ShowRange id)) }
    ensures err { OnErr result (Keeps out.old.items out.new.items) }
{
    out.extend_from_slice(b"where")?;
    push_number(out, id)
}

#[tactic(auto, using(crate::proofs::SpellingLemmas::one_field, crate::proofs::SpellingLemmas::keeps))]
fn push_unlock(out: &mut Vec<u8>, revision: u64) -> Result<(), AllocError>
    ensures ok { OnOk result (out.new.items ≡ out.old.items ++ spelling (Unlock revision)) }
    ensures err { OnErr result (Keeps out.old.items out.new.items) }
{
    out.extend_from_slice(b"unlock")?;
    push_number(out, revision)
}

#[tactic(auto, using(crate::proofs::SpellingLemmas::four_fields, crate::proofs::SpellingLemmas::keeps, crate::proofs::SpellingLemmas::keeps_three))]
fn push_land(
    out: &mut Vec<u8>,
    revision: u64,
    span: &Span,
    expand: Expand,
    empty: Empty,
) -> Result<(), AllocError>
    ensures ok { OnOk result (out.new.items
        ≡ out.old.items ++ spelling (Land revision span.now expand empty)) }
    ensures err { OnErr result (Keeps out.old.items out.new.items) }
{
    out.extend_from_slice(b"land")?;
    push_number(out, revision)?;
    push_span(out, span)?;
    push_expand(out, expand)?;
    push_empty(out, empty)
}

#[tactic(auto, using(crate::proofs::SpellingLemmas::one_field, crate::proofs::SpellingLemmas::keeps))]
fn push_fold(out: &mut Vec<u8>, span: &Span) -> Result<(), AllocError>
    ensures ok { OnOk result (out.new.items ≡ out.old.items ++ spelling (Fold span.now)) }
    ensures err { OnErr result (Keeps out.old.items out.new.items) }
{
    out.extend_from_slice(b"fold")?;
    push_span(out, span)
}

#[tactic(auto, using(crate::proofs::SpellingLemmas::one_field, crate::proofs::SpellingLemmas::keeps))]
fn push_unfold(out: &mut Vec<u8>, id: u64) -> Result<(), AllocError>
    ensures ok { OnOk result (out.new.items ≡ out.old.items ++ spelling (Unfold id)) }
    ensures err { OnErr result (Keeps out.old.items out.new.items) }
{
    out.extend_from_slice(b"unfold")?;
    push_number(out, id)
}

#[tactic(auto, using(crate::proofs::SpellingLemmas::two_fields, crate::proofs::SpellingLemmas::keeps))]
fn push_find(out: &mut Vec<u8>, from: Place, query: &Query) -> Result<(), AllocError>
    ensures ok { OnOk result (out.new.items ≡ out.old.items ++ spelling (Find from query.now)) }
    ensures err { OnErr result (Keeps out.old.items out.new.items) }
{
    out.extend_from_slice(b"find")?;
    push_place(out, from)?;
    push_query(out, query)
}

#[tactic(auto, using(crate::proofs::SpellingLemmas::two_fields, crate::proofs::SpellingLemmas::keeps))]
fn push_findback(out: &mut Vec<u8>, before: Place, query: &Query) -> Result<(), AllocError>
    ensures ok { OnOk result (out.new.items
        ≡ out.old.items ++ spelling (FindBack before query.now)) }
    ensures err { OnErr result (Keeps out.old.items out.new.items) }
{
    out.extend_from_slice(b"findback")?;
    push_place(out, before)?;
    push_query(out, query)
}

#[tactic(auto, using(crate::proofs::SpellingLemmas::one_field, crate::proofs::SpellingLemmas::keeps))]
fn push_all(out: &mut Vec<u8>, query: &Query) -> Result<(), AllocError>
    ensures ok { OnOk result (out.new.items ≡ out.old.items ++ spelling (All query.now)) }
    ensures err { OnErr result (Keeps out.old.items out.new.items) }
{
    out.extend_from_slice(b"all")?;
    push_query(out, query)
}

#[tactic(auto, using(crate::proofs::SpellingLemmas::one_field, crate::proofs::SpellingLemmas::keeps))]
fn push_check(out: &mut Vec<u8>, rule: &Rule) -> Result<(), AllocError>
    ensures ok { OnOk result (out.new.items ≡ out.old.items ++ spelling (Check rule.now)) }
    ensures err { OnErr result (Keeps out.old.items out.new.items) }
{
    out.extend_from_slice(b"check")?;
    push_rule(out, rule)
}
