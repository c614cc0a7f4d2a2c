ghost use Rattle.std.specs.Prelude.{◌≡◌, ℕ, ◌≤◌, ◌<◌, ◌^◌, ◌-◌, true, false, [], length, map, All, Some, IsSome, IfSome, IfOk, vec_capacity};
ghost use Rattle.kte_pool.specs.Done.{EachDone};
ghost use Rattle.kte_desk.specs.Passes.{IsCheckerOf, work_of};
ghost use Rattle.kte_run.specs.Alone.{CanBegin, CarriesOut, GoesOn};
ghost use Rattle.kte_run.specs.Beside.{CanEdit, EditsWith};
ghost use Rattle.kte_run.specs.CheckerActs.{CheckerActs};
ghost use Rattle.kte_run.specs.Crew.{is_done, pass_of};
ghost use Rattle.kte_run.specs.Run.{outer};

use crate::beside::act;
use crate::checkers::CheckerActor;
use crate::editor::Editor;
use crate::status::Status;
use kte_causes::Disk;
use kte_command::Command;
use kte_core::Core;
use kte_desk::{CheckerPass, Desk, EditorPass};
use kte_find::Checker;
use kte_pool::run_each;
use kte_swap::Swap;
use std::alloc::{AllocError, Global};
use std::sync::Wait;
use std::thread::{Threads, join_mut};

/// Carries out the commands of a script in a session without events, beside so many checkers, which
/// do the jobs. The swap is that of an empty swap file. Returns how the run ends if its output is
/// written.
pub(crate) fn carry_out_beside<R: Threads + Wait + Sync, D: Disk + Send, K: Checker + Sync>(
    rt: &R,
    alloc: Global,
    core: Core,
    workers: u32,
    commands: Vec<Command>,
    swap: Swap,
    disk: &mut D,
    checker: &K,
) -> Result<(Core, Status), AllocError>
    requires some { 1 ≤ workers }
    requires few { workers < 2 ^ 32 - 1 }
    requires fresh { core.events ≡ [] }
    requires can { CanBegin commands.items swap }
    ensures carried { IfOk result (λ done. CarriesOut workers commands.items swap done.1 core
        done.0 (outer (D.moments disk.old) (D.faults disk.old))
        (outer (D.moments disk.new) (D.faults disk.new))) }
    ensures goes_on { GoesOn (outer (D.moments disk.old) (D.faults disk.old))
        (outer (D.moments disk.new) (D.faults disk.new)) }
{
    let Ok((desk, pass, passes)) = Desk::start(alloc, core, workers) else {
        return Err(AllocError);
    };
    let room = Vec::with_capacity(alloc, passes.len())?;
    let back = Vec::with_capacity(alloc, passes.len())?;
    let mut checkers = outfitted(alloc, &desk, checker, passes, room);
    let mut pass = Some(pass);
    let mut editor = Editor::new(alloc, commands, swap);
    let ending = act_all(
        rt,
        alloc,
        &desk,
        &mut pass,
        &mut editor,
        disk,
        checkers.as_mut_slice(),
    );
    let (are_done, passes) = gathered(checkers, back);
    let core = desk.close(pass.unwrap(), passes);
    match ending {
        Some(ending) if are_done => Ok((core, ending)),
        _ => Err(AllocError),
    }
}

/// Lets the editor and the checkers act, beside one another. Returns how the run ends, unless memory
/// ran out.
fn act_all<'a, R: Threads + Wait + Sync, D: Disk + Send, K: Checker + Sync>(
    rt: &R,
    alloc: Global,
    desk: &'a Desk,
    pass: &mut Option<EditorPass>,
    editor: &mut Editor,
    disk: &mut D,
    checkers: &mut [CheckerActor<'a, K>],
) -> Option<Status>
    requires can { IfSome pass.old (λ pass. CanEdit desk.now pass editor.old) }
    ensures editor { IfSome pass.old (λ before. EditsWith editor.old before pass.new result
        (outer (D.moments disk.old) (D.faults disk.old))
        (outer (D.moments disk.new) (D.faults disk.new))) }
    ensures checkers { EachDone CheckerActs checkers.old checkers.new }
{
    let (ending, ()) = join_mut(
        rt,
        &mut ||
            requires { IfSome pass.now (λ pass. CanEdit desk.now pass editor.now) }
            ensures { IfSome pass.entry.now (λ before. EditsWith editor.entry.now before
                pass.exit.now result
                (outer (D.moments disk.entry.now) (D.faults disk.entry.now))
                (outer (D.moments disk.exit.now) (D.faults disk.exit.now))) }
        { act(rt, alloc, desk, pass, editor, disk) },
        &mut || run_each(rt, checkers),
    );
    ending
}

/// Makes a checker of each pass.
fn outfitted<'a, K: Checker>(
    alloc: Global,
    desk: &'a Desk,
    checker: &'a K,
    passes: Vec<CheckerPass>,
    room: Vec<CheckerActor<'a, K>>,
) -> Vec<CheckerActor<'a, K>>
    requires own { All (IsCheckerOf desk.now) passes.items }
    requires free { All (λ pass. work_of pass ≡ None) passes.items }
    requires room { (room.items ≡ []) × (length passes.items ≤ vec_capacity room) }
    ensures { map pass_of result.items ≡ map Some passes.items }
{
    let mut checkers = room;
    for pass in passes {
        checkers.push_reserved(CheckerActor {
            alloc,
            desk,
            checker,
            pass: Some(pass),
            is_done: false,
        });
    }
    checkers
}

/// Returns whether all checkers are done, and their passes.
fn gathered<'a, K: Checker>(
    checkers: Vec<CheckerActor<'a, K>>,
    room: Vec<CheckerPass>,
) -> (bool, Vec<CheckerPass>)
    requires there { All (λ checker. IsSome (pass_of checker)) checkers.items }
    requires room { (room.items ≡ []) × (length checkers.items ≤ vec_capacity room) }
    ensures passes { map Some result.1.items ≡ map pass_of checkers.entry.items }
    ensures done { result.0 ≡ true
        → All (λ checker. is_done checker ≡ true) checkers.entry.items }
{
    let mut are_done = true;
    let mut passes = room;
    for checker in checkers {
        let CheckerActor { pass, is_done, .. } = checker;
        passes.push_reserved(pass.unwrap());
        are_done = are_done && is_done;
    }
    (are_done, passes)
}
