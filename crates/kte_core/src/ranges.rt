ghost use Rattle.std.specs.Prelude.{◌≡◌, ◌^◌, ◌<◌, None, Some, length, IfOk, IsOk, OnErr};
ghost use Rattle.std.specs.FinMap.{get, remove};
ghost use Rattle.kte_place.specs.Span.{made};
ghost use Rattle.kte_place.specs.Ends.{SpanIsInReach};
ghost use Rattle.kte_command.specs.declared.command.Command.TheVariants.{MakeRange, SetRange, DropRange, ShowRange};
ghost use Rattle.kte_doc.specs.Documents.{KeepsTrail};
ghost use Rattle.kte_core.specs.React.{react_command};
ghost use Rattle.kte_core.specs.Folds.{no_fold};
ghost use Rattle.kte_core.specs.Shown.{IsOf, KeepsFolds, Replies, is_standing_fold, told_of};
ghost use Rattle.kte_core.specs.declared.reply.Reply.TheVariants as reply;
ghost use Rattle.kte_core.specs.declared.reply.Refusal.TheVariants as Refusal;

use crate::reply::{Refusal, Reply};
use kte_doc::{Doc, SetFault};
use kte_place::{Empty, Expand, Span};
use kte_ranges::{NoRange, RangeKind};
use std::alloc::AllocError;

/// Makes a range, and returns where it stands.
pub(crate) fn make(
    doc: &mut Doc,
    span: Span,
    expand: Expand,
    empty: Empty,
) -> Result<Reply, AllocError>
    requires span { SpanIsInReach span }
    requires number { doc.old.next < 2 ^ 63 }
    ensures replies { IfOk result (λ reply. (state : _) → IsOf state doc.old
        → Replies (react_command state (MakeRange span expand empty)) reply doc.new) }
    ensures folds { (state : _) → IsOf state doc.old → KeepsFolds doc.old doc.new }
    ensures err { OnErr result (doc.new ≡ doc.old) }
{
    let id = doc.make_range(span, expand, empty, RangeKind::User)?;
    Ok(stands(doc, id))
}

/// Sets a range to another span, and returns where it stands. Neither a missing number, a fold's
/// among them, nor a range that becomes invalid takes memory.
pub(crate) fn set(doc: &mut Doc, id: u64, span: Span) -> Result<Reply, AllocError>
    requires { SpanIsInReach span }
    ensures replies { IfOk result (λ reply. (state : _) → IsOf state doc.old
        → Replies (react_command state (SetRange id span)) reply doc.new) }
    ensures folds { KeepsFolds doc.old doc.new }
    ensures refused { (state : _) → IsOf state doc.old → no_fold (get state.ranges id) ≡ None
        → IsOk result }
    ensures invalid { (range : _) → get doc.old.ranges id ≡ Some range
        → made (length doc.old.text) span range.empty ≡ None → IsOk result }
    ensures err { OnErr result (doc.new ≡ doc.old) }
{
    if is_fold(doc, id) {
        return Ok(Reply::Refused(Refusal::NoRange { id }));
    }
    match doc.set_range(id, span) {
        Ok(()) => Ok(stands(doc, id)),
        Err(SetFault::NoRange { id }) => Ok(Reply::Refused(Refusal::NoRange { id })),
        Err(SetFault::NoMemory) => Err(AllocError),
    }
}

/// Removes a range.
pub(crate) fn take_away(doc: &mut Doc, id: u64) -> Reply
    ensures replies { (state : _) → IsOf state doc.old
        → Replies (react_command state (DropRange id)) result doc.new }
    ensures folds { KeepsFolds doc.old doc.new }
{
    if is_fold(doc, id) {
        return Reply::Refused(Refusal::NoRange { id });
    }
    drop_any(doc, id)
}

/// Removes the range of a number, whether it is a fold or not.
pub(crate) fn drop_any(doc: &mut Doc, id: u64) -> Reply
    ensures none { get doc.old.ranges id ≡ None
        → (result ≡ reply.Refused (Refusal.NoRange id)) × (doc.new ≡ doc.old) }
    ensures dropped { (range : _) → get doc.old.ranges id ≡ Some range
        → (result ≡ reply.Dropped id)
        × (doc.new ≡ record doc.old { ranges = remove doc.old.ranges id }) }
    ensures trail { KeepsTrail doc.old doc.new }
{
    match doc.drop_range(id) {
        Ok(()) => Reply::Dropped { id },
        Err(NoRange { id }) => Reply::Refused(Refusal::NoRange { id }),
    }
}

/// Returns where a range stands.
pub(crate) fn show(doc: &Doc, id: u64) -> Reply
    ensures { (state : _) → IsOf state doc.now
        → Replies (react_command state (ShowRange id)) result doc.now }
{
    if is_fold(doc, id) {
        return Reply::Refused(Refusal::NoRange { id });
    }
    stands(doc, id)
}

/// Returns where the range of a number stands, whether it is a fold or not.
pub(crate) fn stands(doc: &Doc, id: u64) -> Reply
    ensures { result ≡ told_of id (get doc.now.ranges id) }
{
    match doc.range(id) {
        Ok(span) => Reply::Range { id, span },
        Err(NoRange { id }) => Reply::Refused(Refusal::NoRange { id }),
    }
}

/// Returns whether the range of a number is a fold.
fn is_fold(doc: &Doc, id: u64) -> bool
    ensures { result ≡ is_standing_fold (get doc.now.ranges id) }
{
    match doc.info(id) {
        Some(info) => matches!(info.kind, RangeKind::Fold),
        None => false,
    }
}
