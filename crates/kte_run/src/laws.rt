//! What follows from the definitions alone. Each function does nothing: its contract is the
//! law.
ghost use Rattle.std.specs.Prelude.{◌≡◌, ◌<◌, ℕ, List, length};
ghost use Rattle.kte_text.specs.declared.loading.Loaded.{Loaded};
ghost use Rattle.kte_command.specs.declared.command.Command.{Command};
ghost use Rattle.kte_core.specs.Replay.{Legal, beginning};
ghost use Rattle.kte_core.specs.declared.event.Event.{Event};
ghost use Rattle.kte_run.specs.Checked.{CheckersDid, EditorDid, IsHistoryOf};
ghost use Rattle.kte_run.specs.Run.{CallsStay, Outer, Outputs, OutputsWell};
ghost use Rattle.kte_desk.specs.Schedule.{NoneFailed, Schedule};

use crate::status::Status;

/// Without workers, a script has at most one history in a loaded text in which no call outside
/// fails.
pub fn one_history()
    ensures { (loaded : Loaded) (limit : ℕ) (commands : List Command) (one other : List Event)
        → Schedule commands 0 (beginning loaded limit) one → NoneFailed one
        → Schedule commands 0 (beginning loaded limit) other → NoneFailed other → one ≡ other }
{}

/// There is one output for a script and a file by histories without checkers in which no call
/// outside failed, and so by runs without checkers in which none of the disk's appends, syncs,
/// replacements and resets did.
pub fn output_is_unique()
    ensures well { (script file a b : _)
        → OutputsWell script file a → OutputsWell script file b → a ≡ b }
    ensures calm { (script file a b : _) (one other : Status)
        (before after other_before other_after : Outer)
        → Outputs 0 script file one before after a → CallsStay before.faults after.faults
        → Outputs 0 script file other other_before other_after b
        → CallsStay other_before.faults other_after.faults → a ≡ b }
{}

/// A history of an editor and checkers, all of which are done, is one that a run with so many
/// workers may have. Each of them tells only what its own pass has seen and made: the editor left
/// the jobs to the others and asked for the commands in order, and each checker has seen the
/// session closed with no job that waits, and works on none. So every job is done, by a checker.
///
/// Passes of any type have seen events and made events.
pub fn checked_history<P>()
    ensures { (seen own : P → List Event) (commands : List Command) (loaded : Loaded) (limit : ℕ)
        (events editor_seen editor_own : List Event) (checkers : List P)
        → Legal (beginning loaded limit) events
        → IsHistoryOf seen own events editor_seen editor_own checkers
        → EditorDid commands (beginning loaded limit) editor_seen editor_own
        → CheckersDid seen own (beginning loaded limit) checkers → 0 < length checkers
        → Schedule commands (length checkers) (beginning loaded limit) events }
{}
