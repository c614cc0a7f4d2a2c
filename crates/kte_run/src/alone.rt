ghost use Rattle.std.specs.Prelude.{◌≡◌, true, [], All, IfOk, OnOk};
ghost use Rattle.kte_text.specs.Primitives.{HasLine};
ghost use Rattle.kte_core.specs.Editing.{saved_form};
ghost use Rattle.kte_core.specs.Replay.{beginning, present};
ghost use Rattle.kte_desk.specs.Schedule.{Schedule};
ghost use Rattle.kte_run.specs.Alone.{Asks, CanBegin, GoesOn, TellsDisk};
ghost use Rattle.kte_run.specs.Run.{outer};

use crate::editor::Editor;
use crate::status::Status;
use kte_causes::Disk;
use kte_command::Command;
use kte_core::Core;
use kte_desk::{drain, made_fits};
use kte_find::Checker;
use kte_swap::Swap;
use kte_text::Batch;
use std::alloc::{AllocError, Global};

/// Carries out the commands of a script in a session without events, closes it, and does the jobs.
/// The swap is that of an empty swap file. Returns how the run ends if its output is written.
pub(crate) fn carry_out<D: Disk, K: Checker>(
    alloc: Global,
    core: &mut Core,
    commands: Vec<Command>,
    swap: Swap,
    disk: &mut D,
    checker: &K,
) -> Result<Status, AllocError>
    requires fresh { core.old.events ≡ [] }
    requires can { CanBegin commands.items swap }
    ensures schedule { OnOk result (Schedule commands.items 0
        (beginning core.old.loaded core.old.limit) core.new.events) }
    ensures begun { OnOk result (core.new ≡ record core.old { events = core.new.events }) }
    ensures tells { IfOk result (λ ending. TellsDisk ending
        (beginning core.old.loaded core.old.limit) core.new.events swap
        (outer (D.moments disk.old) (D.faults disk.old))
        (outer (D.moments disk.new) (D.faults disk.new))) }
    ensures goes_on { GoesOn (outer (D.moments disk.old) (D.faults disk.old))
        (outer (D.moments disk.new) (D.faults disk.new)) }
{
    let ending = ask_all(alloc, core, commands, swap, disk)?;
    drain(alloc, core, checker)?;
    Ok(ending)
}

/// Makes the requests of the editor, and the calls of the disk that follow. The close is the last
/// request. Returns how the run ends if its output is written.
fn ask_all<D: Disk>(
    alloc: Global,
    core: &mut Core,
    commands: Vec<Command>,
    swap: Swap,
    disk: &mut D,
) -> Result<Status, AllocError>
    requires fresh { core.old.events ≡ [] }
    requires can { CanBegin commands.items swap }
    ensures ok { OnOk result (Asks commands.items core.old core.new) }
    ensures tells { IfOk result (λ ending. TellsDisk ending
        (beginning core.old.loaded core.old.limit) core.new.events swap
        (outer (D.moments disk.old) (D.faults disk.old))
        (outer (D.moments disk.new) (D.faults disk.new))) }
    ensures goes_on { GoesOn (outer (D.moments disk.old) (D.faults disk.old))
        (outer (D.moments disk.new) (D.faults disk.new)) }
{
    let mut editor = Editor::new(alloc, commands, swap);
    made_fits(core);
    while let Some(request) = editor.next() {
        let step = core.step(alloc, 0, request)?;
        made_fits(core);
        inserts_lines(&step.made);
        let form = saved_form(alloc, core, editor.is_saving(&step.reply))?;
        editor.answered(alloc, step, &form, disk)?;
    }
    Ok(editor.ending())
}

/// Called for its contract alone: each insertion is one of a line.
pub(crate) fn inserts_lines(made: &Batch)
    ensures { All HasLine made.now }
{
    for n in 0..made.len() {
        let _is_empty = made.get(n).is_empty();
    }
}

/// Returns the bytes that a save writes, if one is to be made.
fn saved_form(alloc: Global, core: &Core, is_saving: bool) -> Result<Vec<u8>, AllocError>
    ensures { is_saving ≡ true
        → IfOk result (λ bytes. bytes.items ≡ saved_form (present core.now).editing) }
{
    if is_saving {
        return core.saved_form(alloc);
    }
    Ok(Vec::new(alloc))
}
