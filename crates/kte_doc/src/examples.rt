//! Worked examples of the definitions, proved by computation. Each function does nothing: its
//! contract is the examples.
ghost use Rattle.std.specs.Prelude.{◌≡◌, [], ◌∷◌, true, false, Some, None};
ghost use Rattle.kte_text.specs.declared.primitive.Primitive.TheVariants.{Wrap, Unwrap};
ghost use Rattle.kte_place.specs.declared.span.Empty.TheVariants.{Allow, Void};
ghost use Rattle.kte_place.specs.Entry.{insertion};
ghost use Rattle.kte_place.specs.Examples.{span, expand};
ghost use Rattle.kte_buffer.specs.Examples.{abc_de};
ghost use Rattle.kte_doc.specs.Trail.{entries_of, text_at, stand};
ghost use Rattle.kte_doc.specs.Examples.{xabx, both_sides, gone_and_back, origin, round_ab, made_of_ab};

/// The entries of a trail are those of its primitives, each in the text before it.
pub fn trails()
    ensures entries { entries_of both_sides xabx ≡ insertion 0 3 1 4 ∷ insertion 0 1 1 5 ∷ [] }
    ensures between { text_at xabx both_sides 1 ≡ (120 ∷ 97 ∷ 98 ∷ 82 ∷ 120 ∷ []) ∷ [] }
{}

/// A range takes in what comes at a side to which it expands.
pub fn expanding()
    ensures neither { round_ab (expand false false) 0 ≡ Some (span 0 2 0 4) }
    ensures left { round_ab (expand true false) 0 ≡ Some (span 0 1 0 4) }
    ensures right { round_ab (expand false true) 0 ≡ Some (span 0 2 0 5) }
    ensures both { round_ab (expand true true) 0 ≡ Some (span 0 1 0 5) }
{}

/// A range is carried over what came after its origin's revision alone.
pub fn later_origins()
    ensures between { round_ab (expand false true) 1 ≡ Some (span 0 2 0 4) }
    ensures now { round_ab (expand false true) 2 ≡ Some (span 0 1 0 3) }
{}

/// A range whose start is beyond the line that its end's line is joined to.
pub fn crossing()
    ensures empty { stand abc_de (Unwrap 1 ∷ []) (expand false false) Allow
        (origin 0 (span 0 10 1 2)) ≡ Some (span 0 10 0 10) }
    ensures invalid { stand abc_de (Unwrap 1 ∷ []) (expand false false) Void
        (origin 0 (span 0 10 1 2)) ≡ None }
{}

/// A range is settled after each primitive, and an invalid one does not come back.
pub fn staying_invalid()
    ensures emptied { stand xabx gone_and_back (expand true true) Void (origin 0 (span 0 1 0 3))
        ≡ None }
    ensures allowed { stand xabx gone_and_back (expand true true) Allow (origin 0 (span 0 1 0 3))
        ≡ Some (span 0 1 0 2) }
    ensures past { stand abc_de (Wrap 0 0 ∷ []) (expand true true) Allow
        (origin 0 (span 1 0 2 0)) ≡ None }
{}

/// Ranges that are made of spans of the text at a locked revision land, and have rising numbers.
pub fn batches()
    ensures first { made_of_ab 0 3 ≡ Some (Some (span 0 2 0 4)) }
    ensures void { made_of_ab 0 4 ≡ Some None }
    ensures past { made_of_ab 0 5 ≡ None }
    ensures now { made_of_ab 1 3 ≡ Some (Some (span 0 1 0 3)) }
{}
