ghost use Rattle.std.specs.Prelude.{◌≡◌, ◌^◌, ◌<◌, Some, IfOk, IsOk, OnErr, false};
ghost use Rattle.kte_place.specs.Ends.{SpanIsInReach};
ghost use Rattle.kte_doc.specs.Standings.{spans_of};
ghost use Rattle.kte_fold.specs.Folds.{is_fold, refusal};
ghost use Rattle.kte_command.specs.declared.command.Command.TheVariants as command;
ghost use Rattle.kte_core.specs.React.{react_command};
ghost use Rattle.kte_core.specs.Shown.{AreFoldsOf, IsOf, Replies};

use crate::ranges;
use crate::reply::{Refusal, Reply};
use kte_doc::Doc;
use kte_fold::{Folds, NoFold};
use kte_place::{Empty, Expand, Span};
use kte_ranges::RangeKind;
use std::alloc::AllocError;

/// Makes a fold, and returns where it stands. A span that may not be folded does not allocate.
pub(crate) fn make(doc: &mut Doc, folds: &mut Folds, span: Span) -> Result<Reply, AllocError>
    requires span { SpanIsInReach span }
    requires number { doc.old.next < 2 ^ 63 }
    requires folds { AreFoldsOf doc.old folds.old }
    ensures replies { IfOk result (λ reply. (state : _) → IsOf state doc.old
        → Replies (react_command state (command.Fold span)) reply doc.new) }
    ensures refused { (cause : _)
        → refusal doc.old.text (spans_of doc.old.ranges) folds.old.numbers span ≡ Some cause
        → IsOk result }
    ensures folds { (state : _) → IsOf state doc.old → AreFoldsOf doc.new folds.new }
    ensures err { OnErr result (doc.new ≡ doc.old) }
{
    if let Err(cause) = folds.allow(&*doc, &*doc, span) {
        return Ok(Reply::Refused(Refusal::Fold(cause)));
    }
    folds.reserve()?;
    // Called for its contract alone: no range has the next number.
    let _next = doc.next_id();
    let expand = Expand {
        left: false,
        right: false,
    };
    let id = doc.make_range(span, expand, Empty::Void, RangeKind::Fold)?;
    folds.add(&*doc, id);
    Ok(ranges::stands(doc, id))
}

/// Removes a fold, and its range with it.
pub(crate) fn remove(doc: &mut Doc, folds: &mut Folds, id: u64) -> Reply
    requires { AreFoldsOf doc.old folds.old }
    ensures replies { (state : _) → IsOf state doc.old
        → Replies (react_command state (command.Unfold id)) result doc.new }
    ensures no_fold { is_fold folds.old.numbers id ≡ false → doc.new ≡ doc.old }
    ensures folds { AreFoldsOf doc.new folds.new }
{
    match folds.remove(id) {
        Ok(()) => ranges::drop_any(doc, id),
        Err(NoFold { id }) => Reply::Refused(Refusal::NoFold { id }),
    }
}
