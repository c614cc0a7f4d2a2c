//! What holds of all records, transactions and swap files. No function does anything: its contract
//! is the law.
ghost use Rattle.std.specs.Prelude.{◌≡◌, ◌≢◌, ◌<◌, ◌≤◌, ℕ, List, ◌++◌, length, Option};
ghost use Rattle.std.specs.List.{flat_map, AllByRecursion};
ghost use Rattle.kte_text.specs.Primitives.{after_all};
ghost use Rattle.kte_text.specs.declared.primitive.Primitive.{Primitive};
ghost use Rattle.kte_record.specs.Grammar.{Item, IsRecord, spelling, header};
ghost use Rattle.kte_record.specs.Transactions.{IsWritable, FitOneByOne, joined, transaction, written};
ghost use Rattle.kte_record.specs.Recovery.{Answer, Answers, AnswersBeside, Reads, Recovers, Stops, clean, read_primitives};
ghost use Rattle.kte_record.specs.Cuts.{CutRecovers};

/// No record's bytes are a proper front of another's: where bytes begin with two records, these are
/// one, and the same bytes follow.
pub fn one_record()
    ensures { (a b : Item) (x y : List ℕ) → IsRecord a → IsRecord b
        → spelling a ++ x ≡ spelling b ++ y → (a ≡ b) × (x ≡ y) }
{}

/// The bytes after a header are read in one way: if reading stops, as the bytes end or are at
/// fault, then what was read, what was begun and what is left are determined.
pub fn one_reading()
    ensures { (text : List (List ℕ)) (body : List ℕ) (ts us : List (List Primitive))
        (begun other : Option (List Primitive)) (rest left : List ℕ)
        → Reads text body ts begun rest → Reads text body us other left
        → Stops (after_all (read_primitives ts begun) text) begun rest
        → Stops (after_all (read_primitives us other) text) other left
        → (ts ≡ us) × (begun ≡ other) × (rest ≡ left) }
{}

/// A saved file and a swap file have one answer.
pub fn one_answer()
    ensures { (saved swap : List ℕ) (a b : Answer)
        → Answers saved swap a → Answers saved swap b → a ≡ b }
{}

/// What is written for some transactions recovers to the text after them, all of which count.
pub fn written_swaps_recover()
    ensures { (ts : List (List Primitive)) (digest : List ℕ) (text : List (List ℕ))
        → length digest ≡ 20 → 0 < length ts
        → AllByRecursion IsWritable (joined ts) → FitOneByOne (joined ts) text
        → AnswersBeside text digest (written digest ts)
        (clean (length ts) (after_all (joined ts) text)) }
{}

/// Each front of what is written for some transactions recovers to the text after those that are
/// whole in it.
pub fn cut_swaps_recover()
    ensures { (ts : List (List Primitive)) (digest : List ℕ) (text : List (List ℕ)) (n : ℕ)
        → length digest ≡ 20
        → AllByRecursion IsWritable (joined ts) → FitOneByOne (joined ts) text
        → n ≤ length (written digest ts) → CutRecovers text digest ts n }
{}

/// A swap file of another saved file, told by its digest, leaves the saved text, whatever records
/// it has.
pub fn other_files_stand()
    ensures { (kept digest body : List ℕ) (text : List (List ℕ)) → length kept ≡ 20
        → kept ≢ digest → Recovers text digest (header kept ++ body) text }
{}
