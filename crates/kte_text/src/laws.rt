//! What holds of all lines, texts, primitives and files. No function does anything: its contract is
//! the law.
ghost use Rattle.std.specs.Prelude.{◌≡◌, ℕ, ◌<◌, ◌≤◌, ◌+◌, List, ◌++◌, length, take, drop, Bool, true, None};
ghost use Rattle.kte_text.specs.Units.{IsLine, IsBoundary, utf8_of};
ghost use Rattle.kte_text.specs.Texts.{IsText, line_at, size_of};
ghost use Rattle.kte_text.specs.Primitives.{HasLine, FitsText, after, after_all, FitInTurn, is_empty, misfit};
ghost use Rattle.kte_text.specs.Flat.{flatten, splice_at, taken_by, given, spliced};
ghost use Rattle.kte_text.specs.Files.{Loads};
ghost use Rattle.kte_text.specs.Saving.{bytes_of, loaded_eol, writes_mark};
ghost use Rattle.kte_text.specs.declared.TheConstants.{MAX_FILE_LENGTH};
ghost use Rattle.kte_text.specs.declared.loading.Eol.{Eol};
ghost use Rattle.kte_text.specs.declared.loading.Loaded.{Loaded};
ghost use Rattle.kte_text.specs.declared.primitive.Primitive.{Primitive};
ghost use Rattle.kte_text.specs.declared.primitive.Primitive.TheVariants.{Wrap, Unwrap, Insert, Remove};

/// A line cut at a boundary is two lines.
pub fn cut_lines_are_lines()
    ensures front { (units : List ℕ) (column : ℕ) → IsLine units → IsBoundary units column
        → IsLine (take column units) }
    ensures back { (units : List ℕ) (column : ℕ) → IsLine units → IsBoundary units column
        → IsLine (drop column units) }
{}

/// Two lines joined are a line; so are a line with another inserted at a boundary, and a line
/// without its units between two boundaries.
pub fn joined_lines_are_lines()
    ensures joined { (xs ys : List ℕ) → IsLine xs → IsLine ys → IsLine (xs ++ ys) }
    ensures inserted { (units : List ℕ) (column : ℕ) (added : List ℕ)
        → IsLine units → IsBoundary units column → IsLine added
        → IsLine (take column units ++ added ++ drop column units) }
    ensures removed { (units : List ℕ) (first last : ℕ)
        → IsLine units → IsBoundary units first → IsBoundary units last
        → IsLine (take first units ++ drop last units) }
{}

/// The number of lines after each primitive whose line is there.
pub fn lengths_after()
    ensures wrap { (line column : ℕ) (text : List (List ℕ)) → line < length text
        → length (after (Wrap line column) text) ≡ length text + 1 }
    ensures unwrap { (line : ℕ) (text : List (List ℕ)) → 0 < line → line < length text
        → length (after (Unwrap line) text) + 1 ≡ length text }
    ensures insert { (line column : ℕ) (units : List ℕ) (text : List (List ℕ))
        → length (after (Insert line column units) text) ≡ length text }
    ensures remove { (line column units : ℕ) (text : List (List ℕ))
        → length (after (Remove line column units) text) ≡ length text }
{}

/// The size after each primitive whose line is there and whose columns are within it.
pub fn sizes_after()
    ensures wrap { (line column : ℕ) (text : List (List ℕ)) → line < length text
        → column ≤ length (line_at text line)
        → size_of (after (Wrap line column) text) ≡ size_of text + 1 }
    ensures unwrap { (line : ℕ) (text : List (List ℕ)) → 0 < line → line < length text
        → size_of (after (Unwrap line) text) + 1 ≡ size_of text }
    ensures insert { (line column : ℕ) (units : List ℕ) (text : List (List ℕ)) → line < length text
        → size_of (after (Insert line column units) text) ≡ size_of text + length units }
    ensures remove { (line column units : ℕ) (text : List (List ℕ)) → line < length text
        → column + units ≤ length (line_at text line)
        → size_of (after (Remove line column units) text) + units ≡ size_of text }
{}

/// A primitive has no misfit exactly where it fits in plain terms: its line is there, it cuts it at
/// boundaries, a line that is joined has one before it, and there is room.
pub fn what_fits()
    ensures none_fits { (p : Primitive) (text : List (List ℕ)) → misfit p text ≡ None
        → FitsText p text }
    ensures fits_none { (p : Primitive) (text : List (List ℕ)) → IsText text → FitsText p text
        → misfit p text ≡ None }
{}

/// A text is a text after each primitive that fits it.
pub fn texts_stay_texts()
    ensures { (p : Primitive) (text : List (List ℕ))
        → IsText text → HasLine p → misfit p text ≡ None
        → IsText (after p text) }
{}

/// An insertion or a removal of nothing leaves the text unchanged.
pub fn empty_primitives_change_nothing()
    ensures { (p : Primitive) (text : List (List ℕ)) → is_empty p ≡ true → after p text ≡ text }
{}

/// Two lists of primitives, one after the other: the text after them, and that each fits in turn.
pub fn primitives_follow_each_other()
    ensures text { (ps qs : List Primitive) (text : List (List ℕ))
        → after_all (ps ++ qs) text ≡ after_all qs (after_all ps text) }
    ensures fit { (ps qs : List Primitive) (text : List (List ℕ))
        → FitInTurn ps text → FitInTurn qs (after_all ps text) → FitInTurn (ps ++ qs) text }
{}

/// A text as one list of units. A primitive that fits puts units in place of others at one offset
/// of the list; the length of the list is the size of the text, and no two texts have one list.
pub fn texts_as_lists()
    ensures spliced { (p : Primitive) (text : List (List ℕ)) → FitsText p text
        → flatten (after p text)
        ≡ spliced (splice_at p text) (taken_by p) (given p) (flatten text) }
    ensures size { (text : List (List ℕ)) → 0 < length text
        → length (flatten text) ≡ size_of text }
    ensures known { (a b : List (List ℕ)) → IsText a → IsText b → flatten a ≡ flatten b → a ≡ b }
{}

/// A line is determined by its bytes in UTF-8.
pub fn lines_have_one_spelling()
    ensures { (a b : List ℕ) → IsLine a → IsLine b → utf8_of a ≡ utf8_of b → a ≡ b }
{}

/// A file determines its text, the kind of its first line end and whether it begins with a mark.
pub fn files_have_one_reading()
    ensures { (bytes : List ℕ) (a b : Loaded) → Loads bytes a → Loads bytes b → a ≡ b }
{}

/// A saved text loads as itself, and is no longer than the longest file that is loaded. Its mark is
/// read back where it was written, and its line end where there is one.
pub fn saved_texts_load()
    ensures loads { (text : List (List ℕ)) (eol : Eol) (mark : Bool) → IsText text
        → Loads (bytes_of text eol mark)
        (record { text = text; eol = loaded_eol text eol; bom = writes_mark text mark }) }
    ensures short { (text : List (List ℕ)) (eol : Eol) (mark : Bool) → IsText text
        → length (bytes_of text eol mark) ≤ MAX_FILE_LENGTH }
{}
