//! What follows from the reaction alone. Each function does nothing: its contract is the law.
ghost use Rattle.std.specs.Prelude.{◌≡◌, [], ◌++◌, length, All};
ghost use Rattle.kte_text.specs.Texts.{IsText};
ghost use Rattle.kte_text.specs.Primitives.{FitInTurn};
ghost use Rattle.kte_undo.specs.Steps.{redo_of};
ghost use Rattle.kte_undo.specs.Groups.{last_of};
ghost use Rattle.kte_command.specs.declared.command.Command.TheVariants.{Undo, Redo};
ghost use Rattle.kte_core.specs.Editing.{revision_of, text_of};
ghost use Rattle.kte_core.specs.Groups.{GroupsFit, Leads};
ghost use Rattle.kte_core.specs.React.{react, react_cut};
ghost use Rattle.kte_core.specs.Replay.{beginning, Answered, primitives_in, replay, transactions};
ghost use Rattle.kte_core.specs.Requests.{IsWhole};
ghost use Rattle.kte_core.specs.declared.reply.Reply.TheVariants.{Cut, Edited, Refused};
ghost use Rattle.kte_core.specs.declared.request.Request.TheVariants.{Cmd};

/// A request that is refused leaves the state as it was, and makes no primitive.
pub fn refused_changes_nothing()
    ensures state { (state seat request refusal : _)
        → (react state seat request).reply ≡ Refused refusal
        → (react state seat request).after ≡ state }
    ensures made { (state seat request refusal : _)
        → (react state seat request).reply ≡ Refused refusal
        → (react state seat request).made ≡ [] }
{}

/// The reply to a change, an undo or a redo has the revision after it, and as many steps as
/// primitives were made; so has the reply that memory ran out.
pub fn edited_counts()
    ensures revision { (state seat request steps revision depth : _)
        → (react state seat request).reply ≡ Edited steps revision depth
        → revision ≡ revision_of (react state seat request).after.editing }
    ensures steps { (state seat request steps revision depth : _)
        → (react state seat request).reply ≡ Edited steps revision depth
        → steps ≡ length (react state seat request).made }
    ensures cut_revision { (state seat request n steps revision depth : _)
        → (react_cut state seat request n).reply ≡ Cut steps revision depth
        → revision ≡ revision_of (react_cut state seat request n).after.editing }
    ensures cut_steps { (state seat request n steps revision depth : _)
        → (react_cut state seat request n).reply ≡ Cut steps revision depth
        → steps ≡ length (react_cut state seat request n).made }
{}

/// An undo leads to the text before its group, and a redo to the text after it. In every session
/// the groups lead from text to text, so there are such texts.
pub fn groups_lead_from_text_to_text()
    ensures undo { (state seat from steps revision depth : _)
        → Leads (last_of state.editing.edits.undo) from (text_of state.editing)
        → (react state seat (Cmd Undo)).reply ≡ Edited steps revision depth
        → text_of (react state seat (Cmd Undo)).after.editing ≡ from }
    ensures redo { (state seat to steps revision depth : _)
        → Leads (last_of state.editing.edits.redo) (text_of state.editing) to
        → (react state seat (Cmd Redo)).reply ≡ Edited steps revision depth
        → text_of (react state seat (Cmd Redo)).after.editing ≡ to }
    ensures fit { (loaded limit events : _) → IsText loaded.text
        → All (λ event. IsWhole event.request) events → Answered (beginning loaded limit) events
        → GroupsFit (replay (beginning loaded limit) events).editing.edits
        (text_of (replay (beginning loaded limit) events).editing) }
{}

/// In every session the primitives made are those of the finished transactions, one after another,
/// and then those of the open one. They fit the loaded text in turn.
pub fn transactions_are_the_trail()
    ensures trail { (loaded limit events : _) → IsText loaded.text
        → All (λ event. IsWhole event.request) events → Answered (beginning loaded limit) events
        → (replay (beginning loaded limit) events).editing.trail
        ≡ primitives_in (transactions (beginning loaded limit) events)
        ++ redo_of (replay (beginning loaded limit) events).editing.edits.current }
    ensures fit { (loaded limit events : _) → IsText loaded.text
        → All (λ event. IsWhole event.request) events → Answered (beginning loaded limit) events
        → FitInTurn (replay (beginning loaded limit) events).editing.trail loaded.text }
{}
