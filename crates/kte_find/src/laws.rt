//! Laws of pairs of brackets and of findings. Each function does nothing: its contract is the law,
//! for every text.
ghost use Rattle.std.specs.Prelude.{◌≡◌, ◌<◌, ◌≤◌, List, ℕ, length};
ghost use Rattle.kte_place.specs.Ends.{Ends};
ghost use Rattle.kte_text.specs.Texts.{line_at};
ghost use Rattle.kte_find.specs.declared.rule.Rule.{Rule};
ghost use Rattle.kte_find.specs.Rule.{HasWord};
ghost use Rattle.kte_find.specs.Brackets.{Placed, placed, ArePair};
ghost use Rattle.kte_find.specs.Findings.{IsFinding, AreFindings};

/// A bracket of a text is in at most one pair: an opening one is closed by one bracket only, and a
/// closing one closes one bracket only.
pub fn one_pair()
    ensures closing { (text : List (List ℕ)) (opening one other : Placed)
        → ArePair (placed text) opening one → ArePair (placed text) opening other → one ≡ other }
    ensures opening { (text : List (List ℕ)) (one other closing : Placed)
        → ArePair (placed text) one closing → ArePair (placed text) other closing → one ≡ other }
{}

/// The findings of a rule in a text are one list.
pub fn one_list()
    ensures { (rule : Rule) (text : List (List ℕ)) (one other : List Ends)
        → AreFindings rule text one → AreFindings rule text other → one ≡ other }
{}

/// A finding lies in one line of the text, and is not empty.
pub fn in_one_line()
    ensures there { (rule : Rule) (text : List (List ℕ)) (span : Ends)
        → IsFinding rule text span → span.start.line < length text }
    ensures same { (rule : Rule) (text : List (List ℕ)) (span : Ends)
        → IsFinding rule text span → span.end.line ≡ span.start.line }
    ensures some { (rule : Rule) (text : List (List ℕ)) (span : Ends)
        → HasWord rule → IsFinding rule text span → span.start.column < span.end.column }
    ensures within { (rule : Rule) (text : List (List ℕ)) (span : Ends)
        → IsFinding rule text span
        → span.end.column ≤ length (line_at text span.start.line) }
{}
