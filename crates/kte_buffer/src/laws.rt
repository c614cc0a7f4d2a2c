//! Laws of the entries of primitives, and of the places of a text. Each function does nothing: its
//! contract is the laws, for every text and every primitive that fits it.
ghost use Rattle.std.specs.Prelude.{◌≡◌, ◌<◌, List, ℕ, length, All};
ghost use Rattle.kte_text.specs.Texts.{IsText};
ghost use Rattle.kte_text.specs.Primitives.{FitsText, after};
ghost use Rattle.kte_text.specs.declared.primitive.Primitive.{Primitive};
ghost use Rattle.kte_place.specs.Entry.{EntryFits, lines_after};
ghost use Rattle.kte_place.specs.Laws.{IsWithin};
ghost use Rattle.kte_buffer.specs.Entries.{entry, touched};
ghost use Rattle.kte_buffer.specs.Laws.{IsOrderOfOffsets, IsKnownByOffset, HasPlace, StaysInside, CarriesOffsets, KeepsNext, KeepsLast};

/// Places can be carried over an entry. Its line is a line of the text, it tells how many lines
/// there are after it, and the lines that it touched are among those.
pub fn entries()
    ensures carries { (p : Primitive) (text : List (List ℕ)) → IsText text → FitsText p text
        → EntryFits (entry p text) }
    ensures within { (p : Primitive) (text : List (List ℕ)) → FitsText p text
        → IsWithin (length text) (entry p text) }
    ensures lines { (p : Primitive) (text : List (List ℕ)) → FitsText p text
        → lines_after (entry p text).kind (length text) ≡ length (after p text) }
    ensures touched { (p : Primitive) (text : List (List ℕ)) → FitsText p text
        → All (λ line. line < length (after p text)) (touched (entry p text)) }
{}

/// The places of a text and the offsets in its list of units have one order, and correspond one to
/// one.
pub fn offsets()
    ensures order { IsOrderOfOffsets }
    ensures known { IsKnownByOffset }
    ensures place { HasPlace }
{}

/// What carrying means in the list of units of a text. A cursor in the text stays in it, and its
/// offset is shifted as the primitive replaces units of the list. So a cursor that moves stays
/// before the same unit, and one that stays does so after the same unit.
pub fn cursors_in_list()
    ensures inside { StaysInside }
    ensures shifted { CarriesOffsets }
    ensures next { KeepsNext }
    ensures last { KeepsLast }
{}
