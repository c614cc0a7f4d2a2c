ghost use Rattle.std.specs.Prelude.{◌≡◌, IfOk, OnErr};
ghost use Rattle.kte_place.specs.Ends.{SpanIsInReach};
ghost use Rattle.kte_command.specs.declared.command.Command.TheVariants.{Lock, Unlock, Land};
ghost use Rattle.kte_core.specs.React.{react_command};
ghost use Rattle.kte_core.specs.Shown.{IsOf, KeepsFolds, Replies};

use crate::reply::{Refusal, Reply};
use kte_doc::Doc;
use kte_history::{NotLocked, NotOwned, Owner};
use kte_place::{Empty, Expand, Span};
use std::alloc::AllocError;

/// Locks the present revision for the editor.
pub(crate) fn lock(doc: &mut Doc) -> Result<Reply, AllocError>
    ensures replies { IfOk result (λ reply. (state : _) → IsOf state doc.old
        → Replies (react_command state Lock) reply doc.new) }
    ensures folds { KeepsFolds doc.old doc.new }
    ensures err { OnErr result (doc.new ≡ doc.old) }
{
    let revision = doc.lock(Owner::Editor)?;
    Ok(Reply::Locked { revision })
}

/// Removes one of the editor's locks.
pub(crate) fn unlock(doc: &mut Doc, revision: u64) -> Reply
    ensures replies { (state : _) → IsOf state doc.old
        → Replies (react_command state (Unlock revision)) result doc.new }
    ensures folds { KeepsFolds doc.old doc.new }
{
    match doc.unlock(Owner::Editor, revision) {
        Ok(()) => Reply::Unlocked { revision },
        Err(NotOwned { revision }) => Reply::Refused(Refusal::NotOwned { revision }),
    }
}

/// Returns where a span of the text at a revision is now.
pub(crate) fn land(doc: &Doc, revision: u64, span: Span, expand: Expand, empty: Empty) -> Reply
    requires { SpanIsInReach span }
    ensures { (state : _) → IsOf state doc.now
        → Replies (react_command state (Land revision span expand empty)) result doc.now }
{
    match doc.land(revision, span, expand, empty) {
        Ok(span) => Reply::Landed { span },
        Err(NotLocked { revision, oldest }) => {
            Reply::Refused(Refusal::NotLocked { revision, oldest })
        }
    }
}
