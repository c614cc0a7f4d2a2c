ghost use Rattle.std.specs.Prelude.{◌≡◌, ◌+◌, ◌-◌, ◌^◌, ◌<◌, ◌≤◌, true, [], ◌∷◌, ◌++◌, length, All, None, IfOk, IsErrOf, IsFalse, IsOk, OnOk, OnErr};
ghost use Rattle.kte_place.specs.Ends.{SpanIsInReach};
ghost use Rattle.kte_history.specs.declared.lock.Owner.TheVariants as owner;
ghost use Rattle.kte_history.specs.Locks.{has_lock, unlocked};
ghost use Rattle.kte_history.specs.Revisions.{can_land};
ghost use Rattle.kte_doc.specs.Documents.{KeepsTrail, history_of};
ghost use Rattle.kte_doc.specs.declared.fault.MakeFault.TheVariants.{NotLocked};
ghost use Rattle.kte_find.specs.Rule.{HasWord};
ghost use Rattle.kte_jobs.specs.Jobs.{least_waiting};
ghost use Rattle.kte_jobs.specs.declared.job.JobState.TheVariants.{Waiting};
ghost use Rattle.kte_core.specs.Jobs.{AreLocked, taken_at};
ghost use Rattle.kte_core.specs.React.{react};
ghost use Rattle.kte_core.specs.Shown.{Gives, MakesFindings, Shows};
ghost use Rattle.kte_core.specs.declared.reply.Reply.TheVariants.{Posted};
ghost use Rattle.kte_core.specs.declared.request.Request.TheVariants as request;

use crate::present::Present;
use crate::reply::{Refusal, Reply};
use kte_doc::{Doc, MakeFault};
use kte_find::Rule;
use kte_history::Owner;
use kte_jobs::{JobState, Jobs};
use kte_place::{Empty, Expand, Spans};
use kte_ranges::RangeKind;
use std::alloc::{AllocError, Global};

/// Posts a job of a copy of the rule: the request, which is kept, has the rule too.
pub(crate) fn post(alloc: Global, jobs: &mut Jobs, rule: &Rule) -> Result<Reply, AllocError>
    requires word { HasWord rule.now }
    requires number { length jobs.old < 2 ^ 32 - 1 }
    ensures reply { IfOk result (λ reply. reply ≡ Posted (length jobs.old + 1)) }
    ensures ok { OnOk result (jobs.new
        ≡ jobs.old ++ (record { rule = rule.now; state = Waiting }) ∷ []) }
    ensures err { OnErr result (jobs.new ≡ jobs.old) }
{
    let rule = rule.copy(alloc)?;
    let job = jobs.post(rule)?;
    Ok(Reply::Posted { job })
}

/// Returns the revision at which the seat has taken the job, if it works on it.
pub(crate) fn taken_at(jobs: &Jobs, seat: u32, job: u32) -> Option<u64>
    ensures { result ≡ taken_at jobs.now seat job }
{
    match jobs.state(job) {
        Some(
            JobState::Taken {
                seat: holder,
                revision,
            },
        ) if holder == seat => Some(revision),
        _ => None,
    }
}

/// Takes the least job that waits for the seat, and locks the present revision for the job.
pub(crate) fn take(present: &mut Present, seat: u32) -> Result<Reply, AllocError>
    ensures gives { IfOk result (λ reply. (state : _) → Shows state present.old
        → Gives (react state seat request.Take) reply present.new) }
    ensures refused { least_waiting present.old.jobs ≡ None → IsOk result }
    ensures undo { present.new.undo ≡ present.old.undo }
    ensures text { present.new.doc.text ≡ present.old.doc.text }
    ensures err { OnErr result (present.new ≡ present.old) }
{
    let Some(job) = present.jobs.waiting() else {
        let closed = present.is_closed;
        return Ok(Reply::Refused(Refusal::NoJob { closed }));
    };
    let revision = present.doc.lock(Owner::Job { job })?;
    present.jobs.take(job, seat, revision);
    Ok(Reply::Took { job, revision })
}

/// Makes a range of each finding, which is a span of the text at the revision at which the seat has
/// taken the job. Then the job is done.
pub(crate) fn deliver(
    alloc: Global,
    present: &mut Present,
    seat: u32,
    job: u32,
    findings: &Spans,
) -> Result<Reply, AllocError>
    requires spans { All SpanIsInReach findings.now }
    requires numbers { present.old.doc.next + length findings.now ≤ 2 ^ 63 }
    requires locked { AreLocked present.old.jobs present.old.doc.locks }
    ensures gives { IfOk result (λ reply. (state : _) → Shows state present.old
        → Gives (react state seat (request.Deliver job findings.now)) reply present.new) }
    ensures refused { taken_at present.old.jobs seat job ≡ None → IsOk result }
    ensures undo { present.new.undo ≡ present.old.undo }
    ensures text { present.new.doc.text ≡ present.old.doc.text }
    ensures err { OnErr result (present.new ≡ present.old) }
{
    let Some(revision) = taken_at(&present.jobs, seat, job) else {
        return Ok(Reply::Refused(Refusal::NotTaken { job }));
    };
    let first = match make_ranges(alloc, &mut present.doc, job, revision, findings) {
        Ok(first) => first,
        Err(MakeFault::NoMemory) => return Err(AllocError),
        // The job's own lock keeps the revision.
        Err(MakeFault::NotLocked { .. }) => unreachable!(),
    };
    release(&mut present.doc, job, revision);
    present.jobs.finish(job);
    let count = findings.len();
    Ok(Reply::Delivered { job, first, count })
}

/// Makes a range of each finding of a job, which is a span of the text at a revision, and returns
/// the number of the first.
fn make_ranges(
    alloc: Global,
    doc: &mut Doc,
    job: u32,
    revision: u64,
    findings: &Spans,
) -> Result<u64, MakeFault>
    requires spans { All SpanIsInReach findings.now }
    requires numbers { doc.old.next + length findings.now ≤ 2 ^ 63 }
    ensures first { IfOk result (λ first. first ≡ doc.old.next) }
    ensures made { OnOk result (MakesFindings job revision findings.now doc.old doc.new) }
    ensures not_locked { (refused oldest : _) → IsErrOf result (NotLocked refused oldest)
        → IsFalse (can_land (history_of doc.old) revision) }
    ensures err { OnErr result (doc.new ≡ doc.old) }
{
    let expand = Expand {
        left: false,
        right: false,
    };
    let kind = RangeKind::Job { job };
    doc.make_at(alloc, revision, findings, expand, Empty::Void, kind)
}

/// Gives a job back that the seat has taken, so that it waits again. This does not allocate.
pub(crate) fn give_back(present: &mut Present, seat: u32, job: u32) -> Reply
    requires { AreLocked present.old.jobs present.old.doc.locks }
    ensures gives { (state : _) → Shows state present.old
        → Gives (react state seat (request.GiveBack job)) result present.new }
    ensures undo { present.new.undo ≡ present.old.undo }
    ensures text { present.new.doc.text ≡ present.old.doc.text }
{
    let Some(revision) = taken_at(&present.jobs, seat, job) else {
        return Reply::Refused(Refusal::NotTaken { job });
    };
    release(&mut present.doc, job, revision);
    present.jobs.give_back(job);
    Reply::Returned { job }
}

/// Removes a job's lock on a revision.
fn release(doc: &mut Doc, job: u32, revision: u64)
    requires { has_lock doc.old.locks (owner.Job job) revision ≡ true }
    ensures released { doc.new ≡ record doc.old {
      locks = unlocked doc.old.locks (owner.Job job) revision;
      kept = doc.new.kept;
    } }
    ensures trail { KeepsTrail doc.old doc.new }
{
    let Ok(()) = doc.unlock(Owner::Job { job }, revision) else {
        unreachable!()
    };
}
