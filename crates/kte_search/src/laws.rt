//! Laws of the matches of a query. Each function does nothing: its contract is the law, for every
//! query and text.
ghost use Rattle.std.specs.Prelude.{◌≡◌, ◌<◌, ℕ, List, None, Some, length};
ghost use Rattle.kte_place.specs.declared.place.Place.{Place};
ghost use Rattle.kte_place.specs.Ends.{Ends};
ghost use Rattle.kte_search.specs.declared.query.Query.{Query};
ghost use Rattle.kte_search.specs.Found.{all_matches, first_match, last_match};
ghost use Rattle.kte_search.specs.Matches.{AreAll, HasNoneFrom, HasNoneTo, IsFirst, IsLast};

/// There is at most one first match from a place on, and at most one last match before it.
pub fn one_match()
    ensures first { (q : Query) (text : List (List ℕ)) (from : Place) (s t : Ends)
        → IsFirst q text from s → IsFirst q text from t → s ≡ t }
    ensures last { (q : Query) (text : List (List ℕ)) (before : Place) (s t : Ends)
        → IsLast q text before s → IsLast q text before t → s ≡ t }
{}

/// A query and a text have one list of matches from left to right.
pub fn one_list()
    ensures { (q : Query) (text : List (List ℕ)) (a b : List Ends)
        → AreAll q text a → AreAll q text b → a ≡ b }
{}

/// What is picked from the list of all matches is what a search is to find.
pub fn picked_from_all()
    ensures first { (q : Query) (text : List (List ℕ)) (from : Place) (s : Ends)
        → 0 < length q.pattern → first_match q text from ≡ Some s → IsFirst q text from s }
    ensures none_from { (q : Query) (text : List (List ℕ)) (from : Place)
        → 0 < length q.pattern → first_match q text from ≡ None → HasNoneFrom q text from }
    ensures last { (q : Query) (text : List (List ℕ)) (before : Place) (s : Ends)
        → 0 < length q.pattern → last_match q text before ≡ Some s → IsLast q text before s }
    ensures none_to { (q : Query) (text : List (List ℕ)) (before : Place)
        → 0 < length q.pattern → last_match q text before ≡ None → HasNoneTo q text before }
    ensures all { (q : Query) (text : List (List ℕ)) → 0 < length q.pattern
        → AreAll q text (all_matches q text) }
{}
