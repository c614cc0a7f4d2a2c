//! What holds of all steps and groups. No function does anything: its contract is the law.
ghost use Rattle.std.specs.Prelude.{◌≡◌, ℕ, List, ◌++◌, All};
ghost use Rattle.kte_text.specs.Texts.{IsText};
ghost use Rattle.kte_text.specs.Primitives.{FitInTurn, FitsText, HasLine, after, after_all};
ghost use Rattle.kte_text.specs.declared.primitive.Primitive.{Primitive};
ghost use Rattle.kte_undo.specs.Steps.{back_of, cut_by, forth_of, inverse, old_of, redo_of, step, steps_along, undo_of};

/// The inverse of a primitive that fits a text fits the text after it, and leads back. It is the
/// inverse of the primitive's step, which keeps no text.
pub fn inverses_lead_back()
    ensures fits { (p : Primitive) (text : List (List ℕ)) → IsText text → HasLine p
        → FitsText p text → FitsText (inverse p text) (after p text) }
    ensures back { (p : Primitive) (text : List (List ℕ)) → FitsText p text
        → after (inverse p text) (after p text) ≡ text }
    ensures kept { (p : Primitive) (text : List (List ℕ)) → FitsText p text
        → (back_of (step p (cut_by p text) (old_of p text)) ≡ inverse p text)
        × (forth_of (step p (cut_by p text) (old_of p text)) ≡ p) }
{}

/// The steps of primitives that fit in turn. Those that undo them fit in turn the text after them
/// and lead back to the text before them; those that redo them are the primitives again.
pub fn groups_are_undone_and_redone()
    ensures undo { (ps : List Primitive) (text : List (List ℕ)) → IsText text → All HasLine ps
        → FitInTurn ps text
        → FitInTurn (undo_of (steps_along ps text)) (after_all ps text) }
    ensures back { (ps : List Primitive) (text : List (List ℕ)) → IsText text → All HasLine ps
        → FitInTurn ps text
        → after_all (undo_of (steps_along ps text)) (after_all ps text) ≡ text }
    ensures redo { (ps : List Primitive) (text : List (List ℕ)) → IsText text → All HasLine ps
        → FitInTurn ps text → redo_of (steps_along ps text) ≡ ps }
{}

/// The steps of some primitives and then of others are those of all, the later ones from the text
/// after the first ones; what undoes them undoes the later ones first.
pub fn groups_are_cut()
    ensures steps { (ps qs : List Primitive) (text : List (List ℕ))
        → steps_along (ps ++ qs) text ≡ steps_along ps text ++ steps_along qs (after_all ps text) }
    ensures undo { (ps qs : List Primitive) (text : List (List ℕ))
        → undo_of (steps_along (ps ++ qs) text)
        ≡ undo_of (steps_along qs (after_all ps text)) ++ undo_of (steps_along ps text) }
{}
