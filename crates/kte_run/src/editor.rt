ghost use Rattle.std.specs.Prelude.{◌≡◌, ◌≢◌, ◌⊎◌, ◌↔◌, ℕ, Bool, true, false, List, [], ◌∷◌, ◌++◌, Option, None, Some, All, IsOk, IfOk, IfSome, IsSome, IsTrue, OnOk, OnErr, length};
ghost use Rattle.std.specs.List.{AllByRecursion};
ghost use Rattle.kte_text.specs.Primitives.{FitInTurn};
ghost use Rattle.kte_text.specs.declared.primitive.Primitive.{Primitive};
ghost use Rattle.kte_causes.specs.Faults.{Rose};
ghost use Rattle.kte_swap.specs.Swap.{HasRecord};
ghost use Rattle.kte_swap.specs.Guards.{FitAfter, IsFileOf, Stands};
ghost use Rattle.kte_command.specs.Commands.{InRange};
ghost use Rattle.kte_core.specs.State.{State};
ghost use Rattle.kte_core.specs.React.{cut_at};
ghost use Rattle.kte_core.specs.Replay.{IsAnswered, after_event, came_of};
ghost use Rattle.kte_core.specs.Requests.{IsAllowed};
ghost use Rattle.kte_core.specs.declared.reply.Reply.TheVariants.{Asked};
ghost use Rattle.kte_core.specs.declared.request.OutsideCall.TheVariants as call;
ghost use Rattle.kte_desk.specs.Serving.{own};
ghost use Rattle.kte_run.specs.Editor.{Part, IsAt, IsOwn, IsTold, Follows, asked, call_after, call_of, current_after, current_before, depth_told, finished_after, finished_by, is_lost, lost_with, next_of};
ghost use Rattle.kte_run.specs.Calls.{CountsTold, Leaves, SavedWith, file_told, is_saved, owed_by, told_of, transactions_told};
ghost use Rattle.kte_desk.specs.Schedule.{Due};

use crate::status::Status;
use kte_causes::Disk;
use kte_command::Command;
use kte_core::{OutsideCall, Reply, Request, Step};
use kte_swap::{SaveFault, Swap, SwapFault, SwapState};
use kte_text::Batch;
use std::alloc::{AllocError, Global};
use std::marker::Model;
use std::mem;
use std::vec::IntoIter;

/// The editor's part in a run: it tells which request comes next, from a script and the replies so
/// far, and makes the calls of the disk that follow a reply. None of its calls waits.
///
/// The requests are the commands of the script, an end for each transaction that they leave open,
/// and the close; after a call of the disk that is told comes its outcome. Each transaction is
/// appended to the swap file when it is finished. Once memory has run out, only the close is left.
#[derive(Drop)]
pub(crate) struct Editor {
    commands: IntoIter<Command>,
    depth: u32,
    is_closed: bool,
    has_failed: bool,
    // The call outside that the last command asks for.
    asking: Option<OutsideCall>,
    // What came of the last call outside, which the core has not heard of yet.
    owed: Option<Told>,
    // The primitives of the open transaction, which go to the swap file when it is finished.
    current: Batch,
    swap: Swap,
    // Whether a replacement of the saved file failed.
    replace_failed: bool,
}

/// What came of a call outside, and is to be told.
#[derive(Clone, Copy, Debug, PartialEq, Eq)]
pub(crate) struct Told {
    /// Which call it was.
    pub(crate) call: OutsideCall,
    /// Whether it went well.
    pub(crate) ok: bool,
}

impl Model for Editor {
    ghost use Rattle.std.specs.Prelude.{All};
    ghost use Rattle.std.specs.List.{AllByRecursion};
    ghost use Rattle.std.specs.Vec.Iter.{into_iter_items};
    ghost use Rattle.kte_command.specs.Commands.{InRange};
    ghost use Rattle.kte_swap.specs.Swap.{HasRecord};
    ghost use Rattle.kte_run.specs.Editor.{Part};

    ghost Value = { Part };

    ghost view = { λ editor. record {
      commands = into_iter_items editor.commands;
      depth = editor.depth;
      closed = editor.is_closed;
      failed = editor.has_failed;
      asking = editor.asking;
      owed = editor.owed;
      current = editor.current;
      swap = editor.swap;
      replace_failed = editor.replace_failed;
    } };

    ghost invariant = { λ editor. All InRange (into_iter_items editor.commands)
        × AllByRecursion HasRecord editor.current };
}

impl Editor {
    /// Creates the part of a script of these commands, with the writer of an empty swap file.
    pub(crate) fn new(alloc: Global, commands: Vec<Command>, swap: Swap) -> Editor
        requires in_range { All InRange commands.items }
        ensures { result ≡ record {
          commands = commands.items;
          depth = 0;
          closed = false;
          failed = false;
          asking = None;
          owed = None;
          current = [];
          swap = swap;
          replace_failed = false;
        } }
    {
        Editor {
            commands: commands.into_iter(),
            depth: 0,
            is_closed: false,
            has_failed: false,
            asking: None,
            owed: None,
            current: Batch::new(alloc),
            swap,
            replace_failed: false,
        }
    }

    /// Returns the next request of the editor; `None` after the close, once everything is told.
    pub(crate) fn next(&mut self) -> Option<Request>
        ensures next { result ≡ next_of self.old }
        ensures asked { self.new ≡ asked self.old }
        ensures allowed { IfSome result (λ request. IsAllowed 0 request) }
        ensures own { IfSome result (λ request. IsOwn request) }
    {
        self.asking = None;
        if let Some(told) = self.owed.take() {
            return Some(Request::Outcome {
                call: told.call,
                ok: told.ok,
            });
        }
        if self.is_closed {
            return None;
        }
        if !self.has_failed {
            if let Some(command) = self.commands.next() {
                self.asking = call_of(&command);
                return Some(Request::Cmd(command));
            }
            if self.depth > 0 {
                return Some(Request::Cmd(Command::End));
            }
        }
        self.is_closed = true;
        Some(Request::Close)
    }

    /// Returns whether the reply to the last request calls for a save, which needs the saved form
    /// of the text.
    pub(crate) fn is_saving(&self, reply: &Reply) -> bool
        ensures { IsTrue result ↔ (call_after reply.now self.now.asking ≡ call.Save) }
    {
        call_after(reply, self.asking) == OutsideCall::Save
    }

    /// Hears what came of the request that was returned last, and makes the call of the disk that
    /// it calls for: a sync, a save of these bytes, or the append of a transaction that is
    /// finished. Fails if memory ran out here, or between two primitives before.
    pub(crate) fn answered<D: Disk>(
        &mut self,
        alloc: Global,
        step: Step,
        form: &[u8],
        disk: &mut D,
    ) -> Result<(), AllocError>
        requires { AllByRecursion HasRecord step.made }
        // What changes: the depth, the open primitives, what is told, the swap, and whether a
        // replacement failed.
        ensures rest { OnOk result (self.new ≡ record self.old {
          depth = depth_told step.reply self.old.depth;
          current = current_after (call_after step.reply self.old.asking)
              (depth_told step.reply self.old.depth) (current_before step.made self.old);
          owed = self.new.owed;
          swap = self.new.swap;
          replace_failed = self.new.replace_failed;
        }) }
        ensures whole { IsOk result → cut_at step.reply ≡ None }
        ensures err { OnErr result ((self.new.failed ≡ true) × (self.new.owed ≡ self.old.owed)
            × (self.new.closed ≡ self.old.closed)) }
        ensures told { OnOk result (IsTold (call_after step.reply self.old.asking)
            (is_lost self.old.swap.state) (finished_after step.reply step.made self.old)
            self.new.owed) }
        ensures lost { OnOk result (is_lost self.new.swap.state
            ≡ lost_with (is_lost self.old.swap.state) self.new.owed) }

        // By any reply that the core may give, the requests that are left are those after this one,
        // where the primitives so far fit the loaded text.
        ensures follows { (before : Part) (state : State) (lost : Bool) (due : Due) (request : _)
            → self.old ≡ asked before → next_of before ≡ Some request → IsAt state lost due before
            → IsAnswered state (own request step.reply)
            → step.made ≡ (came_of state (own request step.reply)).made
            → FitInTurn (after_event state (own request step.reply)).editing.trail
            state.editing.loaded.text
            → OnOk result (Follows state lost due (own request step.reply) before self.new) }

        // What the disk counts, and what it holds.
        ensures faults { CountsTold (told_of result self.new.owed) (is_lost self.old.swap.state)
            self.old.replace_failed self.new.replace_failed (D.faults disk.old)
            (D.faults disk.new) }
        ensures stands { (text after : List (List ℕ)) (ts : List (List Primitive))
            → Stands self.old.swap text ts (D.moments disk.old)
            → FitAfter self.old.swap.state (finished_after step.reply step.made self.old) ts text
            → (call_after step.reply self.old.asking ≡ call.Save → IsFileOf form.now after)
            → OnOk result (Stands self.new.swap (file_told self.new.owed text after)
            (transactions_told self.new.owed (finished_after step.reply step.made self.old) ts)
            (D.moments disk.new)) }
        ensures saves { OnOk result (SavedWith (is_saved self.new.owed)
            (is_lost self.new.swap.state) form.now (D.moments disk.old) (D.moments disk.new)) }
        ensures tells { IfSome (D.moments disk.old) (λ _. IsSome (D.moments disk.new)) }
    {
        match self.hear(alloc, step, form, disk) {
            Ok(owed) => {
                self.owed = owed;
                Ok(())
            }
            Err(fail) => {
                self.has_failed = true;
                Err(fail)
            }
        }
    }

    /// Hears that memory ran out: only the close is left.
    pub(crate) fn fail(&mut self)
        ensures { self.new ≡ record self.old { failed = true } }
    {
        self.has_failed = true;
    }

    /// Returns whether memory ran out.
    pub(crate) fn has_failed(&self) -> bool
        ensures { result ≡ self.now.failed }
    {
        self.has_failed
    }

    /// Returns how a run ends whose output was written.
    pub(crate) fn ending(&self) -> Status
        ensures failed { self.now.replace_failed ≡ true → result ≡ Status.DiskFault }
        ensures lost { self.now.replace_failed ≡ false → is_lost self.now.swap.state ≡ true
            → result ≡ Status.SwapLost }
        ensures ok { self.now.replace_failed ≡ false → is_lost self.now.swap.state ≡ false
            → result ≡ Status.Ok }
    {
        if self.replace_failed {
            return Status::DiskFault;
        }
        match self.swap.state() {
            SwapState::Lost => Status::SwapLost,
            SwapState::Guarded => Status::Ok,
        }
    }

    /// Takes what a reply tells, and makes the call of the disk that it calls for. Returns what is
    /// to be told of it.
    fn hear<D: Disk>(
        &mut self,
        alloc: Global,
        step: Step,
        form: &[u8],
        disk: &mut D,
    ) -> Result<Option<Told>, AllocError>
        requires { AllByRecursion HasRecord step.made }
        ensures kept { self.new ≡ record self.old {
          depth = self.new.depth;
          current = self.new.current;
          swap = self.new.swap;
          replace_failed = self.new.replace_failed;
        } }
        ensures whole { IsOk result → cut_at step.reply ≡ None }
        ensures depth { OnOk result (self.new.depth ≡ depth_told step.reply self.old.depth) }
        ensures current { OnOk result (self.new.current
            ≡ current_after (call_after step.reply self.old.asking)
            (depth_told step.reply self.old.depth) (current_before step.made self.old)) }
        ensures leaves { IfOk result (λ owed. Leaves (call_after step.reply self.old.asking)
            (finished_after step.reply step.made self.old) form.now self.old.swap self.new.swap
            (D.moments disk.old) (D.moments disk.new) owed) }
        ensures faults { CountsTold (owed_by result) (is_lost self.old.swap.state)
            self.old.replace_failed self.new.replace_failed (D.faults disk.old)
            (D.faults disk.new) }
        ensures tells { IfSome (D.moments disk.old) (λ _. IsSome (D.moments disk.new)) }
    {
        let Step { reply, made } = step;
        if let Reply::Cut { .. } = reply {
            return Err(AllocError);
        }
        self.depth = depth_after(&reply, self.depth);
        note(alloc, &mut self.current, made)?;
        match call_after(&reply, self.asking) {
            OutsideCall::Append => self.finish(alloc, disk),
            OutsideCall::Sync => self.sync(disk),
            OutsideCall::Save => self.save(form, disk),
        }
    }

    /// Appends the open transaction to the swap file, if it is finished and has primitives. Only a
    /// failure is told.
    fn finish<D: Disk>(&mut self, alloc: Global, disk: &mut D) -> Result<Option<Told>, AllocError>
        ensures kept { self.new ≡ record self.old {
          current = self.new.current;
          swap = self.new.swap;
        } }
        ensures current { OnOk result (self.new.current
            ≡ current_after call.Append self.old.depth self.old.current) }
        ensures leaves { (form : List ℕ) → IfOk result (λ owed. Leaves call.Append
            (finished_by call.Append self.old.depth self.old.current) form self.old.swap
            self.new.swap (D.moments disk.old) (D.moments disk.new) owed) }
        ensures faults { CountsTold (owed_by result) (is_lost self.old.swap.state)
            self.old.replace_failed self.new.replace_failed (D.faults disk.old)
            (D.faults disk.new) }
        ensures tells { IfSome (D.moments disk.old) (λ _. IsSome (D.moments disk.new)) }
    {
        if self.depth != 0 {
            return Ok(None);
        }
        let transaction = mem::replace(&mut self.current, Batch::new(alloc));
        match self.swap.finish(disk, &transaction) {
            Ok(_) => Ok(None),
            Err(SwapFault::Failed) => Ok(Some(Told {
                call: OutsideCall::Append,
                ok: false,
            })),
            Err(_) => Err(AllocError),
        }
    }

    /// Makes the swap file safe from a crash.
    fn sync<D: Disk>(&mut self, disk: &mut D) -> Result<Option<Told>, AllocError>
        ensures kept { self.new ≡ record self.old { swap = self.new.swap } }
        ensures leaves { (form : List ℕ) → IfOk result (λ owed. Leaves call.Sync [] form
            self.old.swap self.new.swap (D.moments disk.old) (D.moments disk.new) owed) }
        ensures faults { CountsTold (owed_by result) (is_lost self.old.swap.state)
            self.old.replace_failed self.new.replace_failed (D.faults disk.old)
            (D.faults disk.new) }
        ensures tells { IfSome (D.moments disk.old) (λ _. IsSome (D.moments disk.new)) }
    {
        match self.swap.sync(disk) {
            Ok(()) => Ok(Some(Told {
                call: OutsideCall::Sync,
                ok: true,
            })),
            Err(SwapFault::NoMemory) => Err(AllocError),
            Err(_) => Ok(Some(Told {
                call: OutsideCall::Sync,
                ok: false,
            })),
        }
    }

    /// Gives the saved file these bytes.
    fn save<D: Disk>(&mut self, form: &[u8], disk: &mut D) -> Result<Option<Told>, AllocError>
        ensures kept { self.new ≡ record self.old {
          swap = self.new.swap;
          replace_failed = self.new.replace_failed;
        } }
        ensures leaves { IfOk result (λ owed. Leaves call.Save [] form.now self.old.swap
            self.new.swap (D.moments disk.old) (D.moments disk.new) owed) }
        ensures faults { CountsTold (owed_by result) (is_lost self.old.swap.state)
            self.old.replace_failed self.new.replace_failed (D.faults disk.old)
            (D.faults disk.new) }
        ensures tells { IfSome (D.moments disk.old) (λ _. IsSome (D.moments disk.new)) }
    {
        match self.swap.save(disk, form) {
            Ok(()) => Ok(Some(Told {
                call: OutsideCall::Save,
                ok: true,
            })),
            Err(SaveFault::NoMemory) => Err(AllocError),
            Err(SaveFault::Replace) => {
                self.replace_failed = true;
                Ok(Some(Told {
                    call: OutsideCall::Save,
                    ok: false,
                }))
            }
            Err(_) => Ok(Some(Told {
                call: OutsideCall::Save,
                ok: false,
            })),
        }
    }
}

/// Adds primitives to those of the open transaction. If out of memory, only the first ones may be
/// added.
fn note(alloc: Global, current: &mut Batch, made: Batch) -> Result<(), AllocError>
    requires current { AllByRecursion HasRecord current.old }
    requires made { AllByRecursion HasRecord made }
    ensures ok { OnOk result (current.new ≡ current.old ++ made) }
    ensures records { AllByRecursion HasRecord current.new }
{
    if current.is_empty() {
        *current = made;
        return Ok(());
    }
    for n in 0..made.len() {
        let primitive = made.get(n).copy(alloc)?;
        current.push(primitive)?;
    }
    Ok(())
}

/// Returns the call outside that follows a reply, where this one was asked for.
fn call_after(reply: &Reply, asking: Option<OutsideCall>) -> OutsideCall
    ensures { result ≡ call_after reply.now asking }
{
    match (reply, asking) {
        (Reply::Asked, Some(call)) => call,
        _ => OutsideCall::Append,
    }
}

/// Returns the call outside that a command asks for.
fn call_of(command: &Command) -> Option<OutsideCall>
    ensures { result ≡ call_of command.now }
{
    match command {
        Command::Sync => Some(OutsideCall::Sync),
        Command::Save => Some(OutsideCall::Save),
        _ => None,
    }
}

/// Returns how many transactions are open after a reply, of as many before it.
fn depth_after(reply: &Reply, depth: u32) -> u32
    ensures { result ≡ depth_told reply.now depth }
{
    match *reply {
        Reply::Edited { depth, .. } | Reply::Depth { depth } => depth,
        _ => depth,
    }
}
