ghost use Rattle.std.specs.Prelude.{◌≡◌, ◌+◌, ◌≤◌, length, All, None, Some, IsOk, IfOk, OnOk, OnErr};
ghost use Rattle.kte_place.specs.Ends.{SpanIsInReach};
ghost use Rattle.kte_find.specs.Findings.{AreFindings};
ghost use Rattle.kte_find.specs.declared.rule.Rule.{Rule};
ghost use Rattle.kte_find.specs.declared.found.TheConstants.{MAX_FINDINGS};
ghost use Rattle.kte_jobs.specs.Jobs.{least_waiting, rule_of};
ghost use Rattle.kte_core.specs.Editing.{revision_of, text_of};
ghost use Rattle.kte_core.specs.Jobs.{taken_at};
ghost use Rattle.kte_core.specs.JobsInWords.{count_waiting};
ghost use Rattle.kte_core.specs.Replay.{present};
ghost use Rattle.kte_desk.specs.Serving.{CanDrain, DeliversFound, Drains, HasRoom, IsIdle, NoneTaken, Serves};

use kte_core::{Core, Request};
use kte_find::Checker;
use kte_place::Spans;
use kte_text::{Lines, Text};
use std::alloc::{AllocError, Global};

/// Takes each job that waits, the least first, and delivers what its rule finds. If out of memory,
/// the job that was taken is given back.
///
/// The text is copied once, if a job waits: no job changes it.
pub fn drain<K: Checker>(alloc: Global, core: &mut Core, checker: &K) -> Result<(), AllocError>
    requires { CanDrain (present core.old) }
    ensures ok { OnOk result (IsIdle (present core.old) → Drains core.old core.new) }
    ensures err { OnErr result (NoneTaken (present core.old) → NoneTaken (present core.new)) }
    // Where no job waits no memory is needed.
    ensures idle { least_waiting (present core.old).jobs ≡ None → IsOk result }
{
    if core.waiting().is_none() {
        return Ok(());
    }
    let text = core.copy_text(alloc)?;
    serve_all(alloc, core, checker, &text)
}

/// Takes each job that waits, the least first, and delivers what its rule finds in the text, which
/// is the present one. If out of memory, the job that was taken is given back.
fn serve_all<K: Checker>(
    alloc: Global,
    core: &mut Core,
    checker: &K,
    text: &Text,
) -> Result<(), AllocError>
    requires can { CanDrain (present core.old) }
    requires text { text.now ≡ text_of (present core.old).editing }
    ensures ok { OnOk result (IsIdle (present core.old) → Drains core.old core.new) }
    ensures err { OnErr result (NoneTaken (present core.old) → NoneTaken (present core.new)) }
{
    while let Some(job) = core.waiting() {
        serve(alloc, core, checker, text, job)?;
    }
    Ok(())
}

/// Takes a job, which is the least that waits, and delivers what its rule finds in the text, which
/// is the present one. If out of memory, the job is given back.
fn serve<K: Checker>(
    alloc: Global,
    core: &mut Core,
    checker: &K,
    text: &Text,
    job: u32,
) -> Result<(), AllocError>
    requires text { text.now ≡ text_of (present core.old).editing }
    requires can { CanDrain (present core.old) }
    requires least { least_waiting (present core.old).jobs ≡ Some job }
    ensures ok { OnOk result (IsIdle (present core.old) → Serves core.old core.new) }
    ensures idle { OnOk result (IsIdle (present core.old) → IsIdle (present core.new)) }
    ensures none { OnOk result (NoneTaken (present core.old) → NoneTaken (present core.new)) }
    ensures can { OnOk result (CanDrain (present core.new)) }
    ensures text { OnOk result
        (text_of (present core.new).editing ≡ text_of (present core.old).editing) }
    ensures fewer { OnOk result
        (count_waiting (present core.new) + 1 ≡ count_waiting (present core.old)) }
    ensures err { OnErr result (NoneTaken (present core.old) → NoneTaken (present core.new)) }
{
    core.step(alloc, 0, Request::Take)?;
    match deliver(alloc, core, checker, text, job) {
        Ok(()) => Ok(()),
        Err(fail) => {
            // There is always room for this event.
            let _ = core.step(alloc, 0, Request::GiveBack { job });
            Err(fail)
        }
    }
}

/// Delivers what the rule of a job finds in the present text. The editor has taken the job at the
/// present revision. After an error nothing has changed.
fn deliver<K: Checker>(
    alloc: Global,
    core: &mut Core,
    checker: &K,
    text: &Text,
    job: u32,
) -> Result<(), AllocError>
    requires text { text.now ≡ text_of (present core.old).editing }
    requires taken { taken_at (present core.old).jobs 0 job
        ≡ Some (revision_of (present core.old).editing) }
    requires room { HasRoom (present core.old) MAX_FINDINGS }
    ensures ok { OnOk result (DeliversFound job core.old core.new) }
    ensures err { OnErr result (core.new ≡ core.old) }
{
    let findings = find(alloc, core, checker, text, job)?;
    core.step(alloc, 0, Request::Deliver { job, findings })?;
    Ok(())
}

/// Returns what the rule of a job finds in a text.
fn find<K: Checker>(
    alloc: Global,
    core: &Core,
    checker: &K,
    text: &Text,
    job: u32,
) -> Result<Spans, AllocError>
    ensures found { (rule : Rule) → rule_of (present core.now).jobs job ≡ Some rule
        → IfOk result (λ findings. AreFindings rule text.now findings) }
    ensures reach { IfOk result (λ findings. All SpanIsInReach findings) }
    ensures few { IfOk result (λ findings. length findings ≤ MAX_FINDINGS) }
{
    // A text is small, so each place in it is in reach.
    let _lines = text.lines();
    match core.rule(job) {
        Some(rule) => checker.check(alloc, rule, text),
        None => Ok(Spans::new(alloc)),
    }
}
