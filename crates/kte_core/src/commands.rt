ghost use Rattle.std.specs.Prelude.{◌≡◌, ◌≢◌, ◌-◌, ◌^◌, ◌<◌, [], length, IfOk, IsOk, OnErr};
ghost use Rattle.kte_command.specs.Commands.{InRange};
ghost use Rattle.kte_core.specs.Groups.{GroupsFit};
ghost use Rattle.kte_core.specs.React.{react_command};
ghost use Rattle.kte_core.specs.Shown.{AreFoldsOf, IsOf, IsSearch, Meets};
ghost use Rattle.kte_core.specs.declared.reply.Refusal.TheVariants.{RevisionsFull, StillOpen};
ghost use Rattle.kte_core.specs.declared.reply.Reply.TheVariants.{Asked, Refused};

use crate::edits::Direction;
use crate::event::Step;
use crate::reply::{Refusal, Reply};
use crate::{edits, folds, jobs, ranges, revisions, searches};
use kte_command::Command;
use kte_doc::Doc;
use kte_fold::Folds;
use kte_jobs::Jobs;
use kte_text::Batch;
use kte_undo::Undo;
use std::alloc::{AllocError, Global};

/// Carries out a command of a session that is not closed. A command that is refused does not
/// allocate, unless it would lead past the last revision.
pub(crate) fn carry_out(
    alloc: Global,
    doc: &mut Doc,
    undo: &mut Undo,
    jobs: &mut Jobs,
    folds: &mut Folds,
    command: &Command,
) -> Result<Step, AllocError>
    requires allowed { InRange command.now }
    requires depth { undo.old.edits.depth < 2 ^ 32 - 1 }
    requires jobs { length jobs.old < 2 ^ 32 - 1 }
    requires ranges { doc.old.next < 2 ^ 63 }
    requires fit { GroupsFit undo.old.edits doc.old.text }
    requires folds { AreFoldsOf doc.old folds.old }
    ensures meets { IfOk result (λ step. (state : _) → IsOf state doc.old
        → undo.old.edits ≡ state.editing.edits → jobs.old ≡ state.jobs
        → Meets state command.now step doc.new undo.new.edits jobs.new) }
    ensures refused { (state refusal : _) → IsOf state doc.old
        → undo.old.edits ≡ state.editing.edits
        → (react_command state command.now).reply ≡ Refused refusal
        → ((revision : _) → refusal ≢ RevisionsFull revision) → IsOk result }
    ensures searched { IsSearch command.now → (doc.new ≡ doc.old) × (undo.new ≡ undo.old)
        × (jobs.new ≡ jobs.old) × (folds.new ≡ folds.old) }
    ensures fit { (state : _) → IsOf state doc.old → GroupsFit undo.new.edits doc.new.text }
    ensures folds { (state : _) → IsOf state doc.old → AreFoldsOf doc.new folds.new }
    ensures err { OnErr result (doc.new ≡ doc.old) }
    ensures err_edits { OnErr result (undo.new.edits ≡ undo.old.edits) }
    ensures err_jobs { OnErr result (jobs.new ≡ jobs.old) }
{
    let reply = match command {
        Command::Edit { change } => return edits::change(alloc, doc, undo, change),
        Command::Undo => return edits::go(alloc, doc, undo, Direction::Back),
        Command::Redo => return edits::go(alloc, doc, undo, Direction::Forth),
        Command::Begin => edits::begin(undo),
        Command::End => edits::end(undo),
        Command::MakeRange {
            span,
            expand,
            empty,
        } => ranges::make(doc, *span, *expand, *empty)?,
        Command::SetRange { id, span } => ranges::set(doc, *id, *span)?,
        Command::DropRange { id } => ranges::take_away(doc, *id),
        Command::ShowRange { id } => ranges::show(doc, *id),
        Command::Lock => revisions::lock(doc)?,
        Command::Unlock { revision } => revisions::unlock(doc, *revision),
        Command::Land {
            revision,
            span,
            expand,
            empty,
        } => revisions::land(doc, *revision, *span, *expand, *empty),
        Command::Fold { span } => folds::make(doc, folds, *span)?,
        Command::Unfold { id } => folds::remove(doc, folds, *id),
        Command::Find { from, query } => searches::find(alloc, doc, *from, query)?,
        Command::FindBack { before, query } => searches::find_back(alloc, doc, *before, query)?,
        Command::All { query } => searches::all(alloc, doc, query)?,
        Command::Check { rule } => jobs::post(alloc, jobs, rule)?,
        Command::Sync | Command::Save => ask_outside(undo),
    };
    Ok(replied(alloc, reply))
}

/// Asks for what is to be done outside of the core, unless a transaction is open.
fn ask_outside(undo: &Undo) -> Reply
    ensures shut { undo.now.edits.depth ≡ 0 → result ≡ Asked }
    ensures still_open { 0 < undo.now.edits.depth
        → result ≡ Refused (StillOpen undo.now.edits.depth) }
{
    match undo.depth() {
        0 => Reply::Asked,
        depth => Reply::Refused(Refusal::StillOpen { depth }),
    }
}

/// Returns the step of a reply for which no primitive was made.
pub(crate) fn replied(alloc: Global, reply: Reply) -> Step
    ensures reply { result.reply ≡ reply }
    ensures made { result.made ≡ [] }
{
    Step {
        reply,
        made: Batch::new(alloc),
    }
}
