ghost use Rattle.std.specs.Prelude.{◌≡◌, ◌≢◌, ◌+◌, ◌-◌, ◌^◌, ◌<◌, ◌≤◌, true, length, IfOk, IsOk, OnErr};
ghost use Rattle.kte_command.specs.Commands.{InRange};
ghost use Rattle.kte_core.specs.Groups.{GroupsFit};
ghost use Rattle.kte_core.specs.Jobs.{AreLocked};
ghost use Rattle.kte_core.specs.React.{react, react_command};
ghost use Rattle.kte_core.specs.Requests.{IsAllowed, ranges_of};
ghost use Rattle.kte_core.specs.Kept.{is_kept, kept_after};
ghost use Rattle.kte_core.specs.Shown.{Answers, AreFoldsOf, Gives, IsSearch, Shows};
ghost use Rattle.kte_core.specs.declared.reply.Refusal.TheVariants.{RevisionsFull};
ghost use Rattle.kte_core.specs.declared.reply.Reply.TheVariants.{Refused};
ghost use Rattle.kte_core.specs.declared.request.Request.TheVariants.{Cmd, Close};

use crate::commands::{carry_out, replied};
use crate::event::Step;
use crate::jobs;
use crate::reply::{Refusal, Reply};
use crate::request::Request;
use kte_command::Command;
use kte_doc::Doc;
use kte_fold::Folds;
use kte_jobs::Jobs;
use kte_undo::Undo;
use std::alloc::{AllocError, Global};

/// What a core holds of the present state.
#[derive(Drop)]
pub(crate) struct Present {
    pub(crate) doc: Doc,
    pub(crate) undo: Undo,
    pub(crate) jobs: Jobs,
    pub(crate) folds: Folds,
    pub(crate) is_closed: bool,
}

impl Present {
    /// Returns whether there is always room for the event of this request: it is the first close of
    /// the session, or the return of a job by the seat that has taken it.
    pub(crate) fn keeps_room(&self, seat: u32, request: &Request) -> bool
        ensures { result ≡ is_kept self.now.is_closed self.now.jobs seat request.now }
    {
        match request {
            Request::Close => !self.is_closed,
            Request::GiveBack { job } => jobs::taken_at(&self.jobs, seat, *job).is_some(),
            _ => false,
        }
    }
}

/// Returns for how many events room is to be kept after this reply: a job that is taken may be
/// returned.
pub(crate) fn kept_after(kept: u64, reply: &Reply) -> u64
    requires { kept < 2 ^ 64 - 1 }
    ensures { result ≡ kept_after kept reply.now }
{
    match reply {
        Reply::Took { .. } => kept + 1,
        Reply::Delivered { .. } | Reply::Returned { .. } | Reply::Closed => kept.saturating_sub(1),
        _ => kept,
    }
}

/// Carries out a request of a seat. A request that is refused does not allocate, unless it would
/// lead past the last revision; nor do the first close and the return of a job.
pub(crate) fn answer(
    alloc: Global,
    present: &mut Present,
    seat: u32,
    request: &Request,
) -> Result<Step, AllocError>
    requires allowed { IsAllowed seat request.now }
    requires depth { present.old.undo.edits.depth < 2 ^ 32 - 1 }
    requires jobs { length present.old.jobs < 2 ^ 32 - 1 }
    requires ranges { present.old.doc.next + ranges_of request.now ≤ 2 ^ 63 }
    requires fit { GroupsFit present.old.undo.edits present.old.doc.text }
    requires folds { AreFoldsOf present.old.doc present.old.folds }
    requires locked { AreLocked present.old.jobs present.old.doc.locks }
    ensures answers { IfOk result (λ step. (state : _) → Shows state present.old
        → Answers state seat request.now step present.new) }
    ensures refused { (state refusal : _) → Shows state present.old
        → (react state seat request.now).reply ≡ Refused refusal
        → ((revision : _) → refusal ≢ RevisionsFull revision) → IsOk result }
    ensures searched { (command : _) → request.now ≡ Cmd command → IsSearch command
        → present.new ≡ present.old }
    ensures kept { is_kept present.old.is_closed present.old.jobs seat request.now ≡ true
        → IsOk result }
    ensures fit { (state : _) → Shows state present.old
        → GroupsFit present.new.undo.edits present.new.doc.text }
    ensures folds { (state : _) → Shows state present.old
        → AreFoldsOf present.new.doc present.new.folds }
    ensures err { OnErr result (present.new
        ≡ record present.old { undo = present.new.undo; folds = present.new.folds }) }
    ensures err_edits { OnErr result (present.new.undo.edits ≡ present.old.undo.edits) }
{
    let reply = match request {
        Request::Cmd(command) => return answer_command(alloc, present, command),
        Request::Close => close(present),
        Request::Take => jobs::take(present, seat)?,
        Request::Deliver { job, findings } => jobs::deliver(alloc, present, seat, *job, findings)?,
        Request::GiveBack { job } => jobs::give_back(present, seat, *job),
        Request::Outcome { .. } => Reply::Noted,
    };
    Ok(replied(alloc, reply))
}

/// Carries out a command, unless the session is closed.
fn answer_command(
    alloc: Global,
    present: &mut Present,
    command: &Command,
) -> Result<Step, AllocError>
    requires allowed { InRange command.now }
    requires depth { present.old.undo.edits.depth < 2 ^ 32 - 1 }
    requires jobs { length present.old.jobs < 2 ^ 32 - 1 }
    requires ranges { present.old.doc.next < 2 ^ 63 }
    requires fit { GroupsFit present.old.undo.edits present.old.doc.text }
    requires folds { AreFoldsOf present.old.doc present.old.folds }
    ensures answers { IfOk result (λ step. (state seat : _) → Shows state present.old
        → Answers state seat (Cmd command.now) step present.new) }
    ensures closed { present.old.is_closed ≡ true → IsOk result }
    ensures searched { IsSearch command.now → present.new ≡ present.old }
    ensures refused { (state refusal : _) → Shows state present.old
        → (react_command state command.now).reply ≡ Refused refusal
        → ((revision : _) → refusal ≢ RevisionsFull revision) → IsOk result }
    ensures fit { (state : _) → Shows state present.old
        → GroupsFit present.new.undo.edits present.new.doc.text }
    ensures folds { (state : _) → Shows state present.old
        → AreFoldsOf present.new.doc present.new.folds }
    ensures err { OnErr result (present.new
        ≡ record present.old { undo = present.new.undo; folds = present.new.folds }) }
    ensures err_edits { OnErr result (present.new.undo.edits ≡ present.old.undo.edits) }
{
    if present.is_closed {
        return Ok(replied(alloc, Reply::Refused(Refusal::Closed)));
    }
    carry_out(
        alloc,
        &mut present.doc,
        &mut present.undo,
        &mut present.jobs,
        &mut present.folds,
        command,
    )
}

/// Closes the session, if it is not closed.
fn close(present: &mut Present) -> Reply
    ensures gives { (state seat : _) → Shows state present.old
        → Gives (react state seat Close) result present.new }
    ensures rest { present.new ≡ record present.old { is_closed = true } }
{
    if present.is_closed {
        return Reply::Refused(Refusal::Closed);
    }
    present.is_closed = true;
    Reply::Closed
}
