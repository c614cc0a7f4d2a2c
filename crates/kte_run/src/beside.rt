ghost use Rattle.std.specs.Prelude.{◌≡◌, true, false, length, IfOk, IfSome, IsSome};
ghost use Rattle.kte_core.specs.Editing.{saved_form};
ghost use Rattle.kte_desk.specs.Calls.{AddsNone, Turns};
ghost use Rattle.kte_desk.specs.Passes.{IsEditorOf, editor_known};
ghost use Rattle.kte_desk.specs.Seen.{SeesState};
ghost use Rattle.kte_run.specs.Alone.{GoesOn};
ghost use Rattle.kte_run.specs.Beside.{CanEdit, EditsTo, EditsWith, HasRequests, IsLater, Knows};
ghost use Rattle.kte_run.specs.Run.{outer};

use crate::alone::inserts_lines;
use crate::editor::Editor;
use crate::status::Status;
use kte_causes::Disk;
use kte_desk::{Desk, EditorPass};
use std::alloc::{AllocError, Global};
use std::sync::Wait;

/// Makes the requests of the editor at a desk, and the calls of the disk that follow. The close is
/// the last request; once memory has run out, it is the only one, and nothing more is written.
///
/// Returns how the run ends if its output is written.
pub(crate) fn ask_beside<R: Wait, D: Disk>(
    rt: &R,
    alloc: Global,
    desk: &Desk,
    pass: EditorPass,
    editor: &mut Editor,
    disk: &mut D,
) -> (Result<Status, AllocError>, EditorPass)
    requires own { IsEditorOf desk.now pass }
    requires origin { IsSome (editor_known pass).origin }
    requires few { HasRequests (length (editor_known pass).own) editor.old }
    requires knows { ∥ Knows (editor_known pass) editor.old ∥₁ }
    ensures own { IsEditorOf desk.now result.1 }
    ensures later { IsLater (editor_known pass) (editor_known result.1) }
    ensures few { HasRequests (length (editor_known result.1).own) editor.new }
    ensures knows { ∥ Knows (editor_known result.1) editor.new ∥₁ }
    ensures edits { IfOk result.0 (λ ending. EditsTo editor.old (editor_known pass) ending
        (editor_known result.1) (outer (D.moments disk.old) (D.faults disk.old))
        (outer (D.moments disk.new) (D.faults disk.new))) }
    ensures goes_on { GoesOn (outer (D.moments disk.old) (D.faults disk.old))
        (outer (D.moments disk.new) (D.faults disk.new)) }
{
    let mut pass = pass;
    while let Some(request) = editor.next() {
        let (answer, later) = desk.command(rt, alloc, pass, request);
        pass = later;
        let Ok(step) = answer else {
            editor.fail();
            continue;
        };
        // The primitives of the open transaction may be incomplete, so nothing more is written.
        if editor.has_failed() {
            continue;
        }
        inserts_lines(&step.made);
        let (form, later) = saved_form(rt, alloc, desk, pass, editor.is_saving(&step.reply));
        pass = later;
        let Ok(form) = form else {
            editor.fail();
            continue;
        };
        // The editor remembers a failure.
        let _ = editor.answered(alloc, step, &form, disk);
    }
    if editor.has_failed() {
        return (Err(AllocError), pass);
    }
    (Ok(editor.ending()), pass)
}

/// Does the editor's part with the pass that is there, and puts it back. Returns how the run ends if
/// its output is written, unless memory ran out.
pub(crate) fn act<R: Wait, D: Disk>(
    rt: &R,
    alloc: Global,
    desk: &Desk,
    pass: &mut Option<EditorPass>,
    editor: &mut Editor,
    disk: &mut D,
) -> Option<Status>
    requires can { IfSome pass.old (λ pass. CanEdit desk.now pass editor.old) }
    ensures { IfSome pass.old (λ before. EditsWith editor.old before pass.new result
        (outer (D.moments disk.old) (D.faults disk.old))
        (outer (D.moments disk.new) (D.faults disk.new))) }
{
    let Some(taken) = pass.take() else {
        return None;
    };
    let (ending, later) = ask_beside(rt, alloc, desk, taken, editor, disk);
    *pass = Some(later);
    ending.ok()
}

/// Returns the bytes that a save writes, if one is to be made.
fn saved_form<R: Wait>(
    rt: &R,
    alloc: Global,
    desk: &Desk,
    pass: EditorPass,
    is_saving: bool,
) -> (Result<Vec<u8>, AllocError>, EditorPass)
    requires own { IsEditorOf desk.now pass }
    ensures own { IsEditorOf desk.now result.1 }
    ensures turns { is_saving ≡ true → Turns (editor_known pass) (editor_known result.1) }
    ensures none { is_saving ≡ true → AddsNone (editor_known pass) (editor_known result.1) }
    ensures bytes { is_saving ≡ true → IfOk result.0 (λ bytes.
        SeesState (editor_known result.1) (λ state. bytes.items ≡ saved_form state.editing)) }
    ensures same { is_saving ≡ false → editor_known result.1 ≡ editor_known pass }
{
    if is_saving {
        return desk.saved_form(rt, alloc, pass);
    }
    (Ok(Vec::new(alloc)), pass)
}
