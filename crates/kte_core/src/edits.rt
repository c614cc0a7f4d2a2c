ghost use Rattle.std.specs.Prelude.{◌≡◌, ℕ, ◌+◌, ◌^◌, ◌<◌, ◌≤◌, ◌↔◌, None, Some, Err, [], ◌∷◌, false, length, take, IfOk, IsOk, IsErr, IsOkAnd, OnOk, OnErr, All};
ghost use Rattle.kte_text.specs.Texts.{IsText};
ghost use Rattle.kte_text.specs.Primitives.{FitInTurn, HasLine, is_empty, misfit};
ghost use Rattle.kte_edit.specs.Steps.{change_misfit};
ghost use Rattle.kte_undo.specs.Steps.{cut_by, old_of, step, steps_along};
ghost use Rattle.kte_undo.specs.Groups.{begun, ended, last_of, noted};
ghost use Rattle.kte_undo.specs.declared.groups.UndoFault.TheVariants as UndoFault;
ghost use Rattle.kte_command.specs.declared.command.Command.TheVariants as command;
ghost use Rattle.kte_core.specs.Editing.{noted_all, noted_change};
ghost use Rattle.kte_core.specs.Groups.{GroupsFit, HasRoom, command_of, gone, group_steps, groups_to};
ghost use Rattle.kte_core.specs.Shown.{IsAfter, IsOf, IsRefused, KeepsFolds, Meets};
ghost use Rattle.kte_core.specs.declared.reply.Reply.TheVariants as reply;
ghost use Rattle.kte_core.specs.declared.reply.Refusal.TheVariants as Refusal;

use crate::event::Step;
use crate::reply::{Refusal, Reply};
use kte_buffer::laws::cursors_in_list;
use kte_doc::Doc;
use kte_edit::{Change, StepsFault, steps};
use kte_history::RevisionsFull;
use kte_place::Entry;
use kte_text::{Batch, Lines, Primitive};
use kte_undo::{NotOpen, Undo, UndoFault};
use std::alloc::{AllocError, Global};

/// Makes the primitives of a change, which is judged whole before any of them. Outside of a
/// transaction they are one.
pub(crate) fn change(
    alloc: Global,
    doc: &mut Doc,
    undo: &mut Undo,
    change: &Change,
) -> Result<Step, AllocError>
    requires { GroupsFit undo.old.edits doc.old.text }
    ensures meets { IfOk result (λ step. (state : _) → IsOf state doc.old
        → undo.old.edits ≡ state.editing.edits
        → Meets state (command.Edit change.now) step doc.new undo.new.edits state.jobs) }
    ensures misfits { (misfit : _) → change_misfit change.now doc.old.text ≡ Some misfit
        → IsOk result }
    ensures fit { GroupsFit undo.new.edits doc.new.text }
    ensures folds { KeepsFolds doc.old doc.new }
    ensures err { OnErr result (doc.new ≡ doc.old) }
    ensures err_edits { OnErr result (undo.new.edits ≡ undo.old.edits) }
{
    let made = match steps(alloc, doc, change) {
        Ok(made) => made,
        Err(StepsFault::Misfit(misfit)) => return Ok(refused(alloc, Refusal::Misfit(misfit))),
        Err(StepsFault::NoMemory) => return Err(AllocError),
    };
    if let Err(RevisionsFull { revision }) = doc.room(made.len()) {
        return Ok(refused(alloc, Refusal::RevisionsFull { revision }));
    }
    let done = apply_change(alloc, doc, undo, &made);
    told(doc, undo, made, done)
}

/// Where the last group goes: back, as it is undone, or forth, as it is redone.
#[derive(Clone, Copy)]
pub(crate) enum Direction {
    /// The last group that may be undone is undone.
    Back,
    /// The last group that may be redone is redone.
    Forth,
}

/// Undoes the last group that may be undone, or redoes the last one that may be redone.
pub(crate) fn go(
    alloc: Global,
    doc: &mut Doc,
    undo: &mut Undo,
    direction: Direction,
) -> Result<Step, AllocError>
    requires { GroupsFit undo.old.edits doc.old.text }
    ensures meets { IfOk result (λ step. (state : _) → IsOf state doc.old
        → undo.old.edits ≡ state.editing.edits
        → Meets state (command_of direction) step doc.new undo.new.edits state.jobs) }
    ensures still_open { 0 < undo.old.edits.depth → IsOk result }
    ensures nothing { groups_to direction undo.old.edits ≡ [] → IsOk result }
    ensures fit { GroupsFit undo.new.edits doc.new.text }
    ensures folds { KeepsFolds doc.old doc.new }
    ensures err { OnErr result (doc.new ≡ doc.old) }
    ensures err_edits { OnErr result (undo.new.edits ≡ undo.old.edits) }
{
    let made = match last_group(undo, direction) {
        Ok(made) => made,
        Err(fault) => return no_group(alloc, fault),
    };
    if let Err(RevisionsFull { revision }) = doc.room(made.len()) {
        return Ok(refused(alloc, Refusal::RevisionsFull { revision }));
    }
    let done = apply_all(doc, &made);
    if done > 0 {
        went(undo, direction, done);
    }
    told(doc, undo, made, done)
}

/// Returns the primitives that undo or redo the last group, and makes room for one `went`. Fails if
/// a transaction is open, and then if there is no such group. The groups are unchanged.
fn last_group(undo: &mut Undo, direction: Direction) -> Result<Batch, UndoFault>
    ensures still_open { (depth : _) → (result ≡ Err (UndoFault.StillOpen depth))
        ↔ ((depth ≡ undo.old.edits.depth) × (0 < depth)) }
    ensures nothing { (result ≡ Err UndoFault.Nothing)
        ↔ ((undo.old.edits.depth ≡ 0) × (groups_to direction undo.old.edits ≡ [])) }
    ensures steps { IfOk result (λ batch. batch ≡ group_steps direction undo.old.edits) }
    ensures room { OnOk result (HasRoom direction undo.new) }
    ensures edits { undo.new.edits ≡ undo.old.edits }
{
    match direction {
        Direction::Back => undo.back(),
        Direction::Forth => undo.forth(),
    }
}

/// Moves `done` steps of the last group, those that were undone or redone, to the groups of the other
/// direction. Takes no memory.
fn went(undo: &mut Undo, direction: Direction, done: u64)
    requires shut { undo.old.edits.depth ≡ 0 }
    requires some { 0 < length (groups_to direction undo.old.edits) }
    requires one { 0 < done }
    requires done { done ≤ length (last_of (groups_to direction undo.old.edits)) }
    requires room { HasRoom direction undo.old }
    ensures { undo.new.edits ≡ gone direction done undo.old.edits }
{
    match direction {
        Direction::Back => undo.went_back(done),
        Direction::Forth => undo.went_forth(done),
    }
}

/// Opens a transaction, in the one that is open, if any.
pub(crate) fn begin(undo: &mut Undo) -> Reply
    requires { undo.old.edits.depth + 1 < 2 ^ 32 }
    ensures reply { result ≡ reply.Depth undo.new.edits.depth }
    ensures begun { undo.new.edits ≡ begun undo.old.edits }
{
    Reply::Depth {
        depth: undo.begin(),
    }
}

/// Closes the innermost transaction, if one is open.
pub(crate) fn end(undo: &mut Undo) -> Reply
    ensures not_open { undo.old.edits.depth ≡ 0
        → (result ≡ reply.Refused Refusal.NotOpen) × (undo.new.edits ≡ undo.old.edits) }
    ensures ended { 0 < undo.old.edits.depth
        → (result ≡ reply.Depth undo.new.edits.depth)
        × (undo.new.edits ≡ ended undo.old.edits) }
{
    match undo.end() {
        Ok(depth) => Reply::Depth { depth },
        Err(NotOpen) => Reply::Refused(Refusal::NotOpen),
    }
}

/// Returns the step that refuses an undo or a redo. Fails if out of memory.
fn no_group(alloc: Global, fault: UndoFault) -> Result<Step, AllocError>
    ensures still_open { (depth : _) → fault ≡ UndoFault.StillOpen depth
        → IsOkAnd result (IsRefused (Refusal.StillOpen depth)) }
    ensures nothing { fault ≡ UndoFault.Nothing → IsOkAnd result (IsRefused Refusal.Nothing) }
    ensures memory { IsErr result ↔ (fault ≡ UndoFault.NoMemory) }
{
    match fault {
        UndoFault::StillOpen { depth } => Ok(refused(alloc, Refusal::StillOpen { depth })),
        UndoFault::Nothing => Ok(refused(alloc, Refusal::Nothing)),
        UndoFault::NoMemory => Err(AllocError),
    }
}

/// Returns the step of a request that is refused.
fn refused(alloc: Global, refusal: Refusal) -> Step
    ensures { IsRefused refusal result }
{
    Step {
        reply: Reply::Refused(refusal),
        made: Batch::new(alloc),
    }
}

/// Returns the step of a request of whose primitives so many are made, the first ones. Fails if
/// none is, although the request calls for some.
fn told(doc: &Doc, undo: &Undo, primitives: Batch, done: u64) -> Result<Step, AllocError>
    requires { done ≤ length primitives }
    ensures made { IfOk result (λ step. step.made ≡ take done primitives) }
    ensures whole { done ≡ length primitives → IsOkAnd result (λ step. step.reply
        ≡ reply.Edited done doc.now.revision undo.now.edits.depth) }
    ensures part { 0 < done → done < length primitives → IsOkAnd result (λ step. step.reply
        ≡ reply.Cut done doc.now.revision undo.now.edits.depth) }
    ensures none { OnErr result ((done ≡ 0) × (0 < length primitives)) }
    ensures some { IfOk result (λ step. done < length primitives → 0 < done) }
{
    let (steps, revision, depth) = (done, doc.revision(), undo.depth());
    if done == primitives.len() {
        let reply = Reply::Edited {
            steps,
            revision,
            depth,
        };
        return Ok(Step {
            reply,
            made: primitives,
        });
    }
    if done == 0 {
        return Err(AllocError);
    }
    let mut made = primitives;
    made.truncate(done);
    let reply = Reply::Cut {
        steps,
        revision,
        depth,
    };
    Ok(Step { reply, made })
}

/// Applies the primitives of a change one after another until memory runs out, and returns how many
/// were applied. Outside of a transaction those are one.
fn apply_change(alloc: Global, doc: &mut Doc, undo: &mut Undo, primitives: &Batch) -> u64
    requires fit { FitInTurn primitives.now doc.old.text }
    requires room { doc.old.revision + length primitives.now ≤ doc.old.limit }
    ensures count { result ≤ length primitives.now }
    ensures after { IsAfter (take result primitives.now) doc.old doc.new }
    ensures lines { All HasLine (take result primitives.now) }
    ensures noted { undo.new.edits
        ≡ noted_change (steps_along (take result primitives.now) doc.old.text) undo.old.edits }
    ensures none { result ≡ 0 → doc.new ≡ doc.old }
{
    let is_alone = undo.depth() == 0;
    if is_alone {
        undo.begin();
    }
    let done = apply_noted(alloc, doc, undo, primitives);
    if is_alone {
        let _ = undo.end();
    }
    done
}

/// Applies primitives one after another until memory runs out, and adds them to the open group.
/// Returns how many were applied.
fn apply_noted(alloc: Global, doc: &mut Doc, undo: &mut Undo, primitives: &Batch) -> u64
    requires fit { FitInTurn primitives.now doc.old.text }
    requires room { doc.old.revision + length primitives.now ≤ doc.old.limit }
    requires open { 0 < undo.old.edits.depth }
    ensures count { result ≤ length primitives.now }
    ensures after { IsAfter (take result primitives.now) doc.old doc.new }
    ensures lines { All HasLine (take result primitives.now) }
    ensures noted { undo.new.edits
        ≡ noted_all (steps_along (take result primitives.now) doc.old.text) undo.old.edits }
    ensures none { result ≡ 0 → doc.new ≡ doc.old }
{
    let mut done = 0;
    while done < primitives.len() {
        if apply_and_note(alloc, doc, undo, primitives.get(done)).is_err() {
            return done;
        }
        done += 1;
    }
    done
}

/// Applies a primitive that fits, and adds it to the open group. Fails if out of memory; nothing is
/// changed then.
fn apply_and_note(
    alloc: Global,
    doc: &mut Doc,
    undo: &mut Undo,
    primitive: &Primitive,
) -> Result<(), AllocError>
    requires fits { misfit primitive.now doc.old.text ≡ None }
    requires some { is_empty primitive.now ≡ false }
    requires room { doc.old.revision < doc.old.limit }
    requires open { 0 < undo.old.edits.depth }
    ensures after { OnOk result (IsAfter (primitive.now ∷ []) doc.old doc.new) }
    ensures line { HasLine primitive.now }
    ensures noted { OnOk result (undo.new.edits ≡ noted
        (step primitive.now (cut_by primitive.now doc.old.text) (old_of primitive.now doc.old.text))
        undo.old.edits) }
    ensures err { OnErr result (doc.new ≡ doc.old) }
    ensures err_edits { OnErr result (undo.new.edits ≡ undo.old.edits) }
{
    // Called for its contract alone: the text of an insertion is a line.
    let _is_empty = primitive.is_empty();
    let cut = cut_units(alloc, doc, primitive)?;
    undo.reserve(primitive, &cut)?;
    let entry = apply(doc, primitive)?;
    undo.note(primitive, &cut, entry.old);
    Ok(())
}

/// Returns the units that a removal takes from the text, and none for another primitive. Fails if
/// out of memory.
fn cut_units(alloc: Global, doc: &Doc, primitive: &Primitive) -> Result<Vec<u16>, AllocError>
    requires { misfit primitive.now doc.now.text ≡ None }
    ensures cut { IfOk result (λ cut. cut.items ≡ cut_by primitive.now doc.now.text) }
    ensures is_text { IsText doc.now.text }
{
    // Called for its contract alone, which bounds the last column of a removal.
    let _lines = doc.lines();
    match primitive {
        Primitive::Remove {
            line,
            column,
            length,
        } => {
            let units = doc.line(*line);
            Vec::from_slice(
                alloc,
                &units[*column as usize..(*column + *length) as usize],
            )
        }
        _ => Ok(Vec::new(alloc)),
    }
}

/// Applies primitives one after another until memory runs out. Returns how many were applied.
fn apply_all(doc: &mut Doc, primitives: &Batch) -> u64
    requires fit { FitInTurn primitives.now doc.old.text }
    requires room { doc.old.revision + length primitives.now ≤ doc.old.limit }
    ensures count { result ≤ length primitives.now }
    ensures after { IsAfter (take result primitives.now) doc.old doc.new }
    ensures none { result ≡ 0 → doc.new ≡ doc.old }
{
    let mut done = 0;
    while done < primitives.len() {
        if apply(doc, primitives.get(done)).is_err() {
            return done;
        }
        done += 1;
    }
    done
}

/// Applies a primitive that fits, and returns its entry: of an Unwrap it has the length of the line
/// to which another was joined. Fails if out of memory; nothing is changed then.
fn apply(doc: &mut Doc, primitive: &Primitive) -> Result<Entry, AllocError>
    requires fits { misfit primitive.now doc.old.text ≡ None }
    requires some { is_empty primitive.now ≡ false }
    requires room { doc.old.revision < doc.old.limit }
    ensures old { IfOk result (λ entry. (cut : _) → step primitive.now cut entry.old
        ≡ step primitive.now cut (old_of primitive.now doc.old.text)) }
    ensures after { OnOk result (IsAfter (primitive.now ∷ []) doc.old doc.new) }
    ensures err { OnErr result (doc.new ≡ doc.old) }
{
    // Called for its contract alone, which bounds the last column of a removal.
    let _lines = doc.lines();
    // Called for its contract alone: a place in the text is carried to one in the text after it.
    cursors_in_list();
    doc.primitive(primitive).map_err(|_| AllocError)
}
