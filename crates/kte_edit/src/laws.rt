//! What holds of all changes. No function does anything: its contract is the law.
ghost use Rattle.std.specs.Prelude.{◌≡◌, ℕ, List, None};
ghost use Rattle.kte_text.specs.Texts.{IsText};
ghost use Rattle.kte_text.specs.Flat.{flatten};
ghost use Rattle.kte_text.specs.Primitives.{FitInTurn, after_all};
ghost use Rattle.kte_edit.specs.Steps.{IsChange, change_misfit, steps_of};
ghost use Rattle.kte_edit.specs.Parts.{part_of, put_by, replaced};
ghost use Rattle.kte_edit.specs.declared.change.Change.{Change};

/// The primitives of a change that fits a text fit it one after another, and leave a text.
pub fn steps_fit_in_turn()
    ensures fit { (change : Change) (text : List (List ℕ)) → IsText text → IsChange change
        → change_misfit change text ≡ None → FitInTurn (steps_of change text) text }
    ensures text { (change : Change) (text : List (List ℕ)) → IsText text → IsChange change
        → change_misfit change text ≡ None → IsText (after_all (steps_of change text) text) }
{}

/// A change that fits a text replaces one part of it: in the text as one list of units, with a line
/// end between each two lines, the units of the part are taken out and others put in.
pub fn changes_replace_one_part()
    ensures { (change : Change) (text : List (List ℕ)) → IsText text → IsChange change
        → change_misfit change text ≡ None
        → flatten (after_all (steps_of change text) text)
        ≡ replaced text (part_of change text) (put_by change) }
{}
