//! Laws of the words of the program. Each function does nothing: its contract is the law, for every
//! list of words.
ghost use Rattle.std.specs.Prelude.{◌≡◌, ◌<◌, ◌+◌, ◌⊎◌, ◌↔◌, ℕ, List, length, take};
ghost use Rattle.kte_words.specs.Words.{Spells, IsCommand, BeginsCommand, FirstMisfit};
ghost use Rattle.kte_words.specs.declared.words.Words.{Words};

/// Words are one command, or they have one index at which they do not fit, and never both.
pub fn one_reading()
    ensures some { (words : List (List ℕ))
        → IsCommand words ⊎ ((at : ℕ) × FirstMisfit words at) }
    ensures one_command { (words : List (List ℕ)) (a b : Words)
        → Spells words a → Spells words b → a ≡ b }
    ensures one_misfit { (words : List (List ℕ)) (a b : ℕ)
        → FirstMisfit words a → FirstMisfit words b → a ≡ b }
    ensures not_both { (words : List (List ℕ)) (at : ℕ)
        → IsCommand words → ¬ (FirstMisfit words at) }
{}

/// A word does not fit if the words before it begin a command, and no command begins with these and
/// the word itself, whatever follows it. A word is missing if the words are no command, and begin
/// one.
pub fn misfits()
    ensures unfit { (words : List (List ℕ)) (at : ℕ) → at < length words → FirstMisfit words at
        ↔ (BeginsCommand (take at words) × ¬ (BeginsCommand (take (at + 1) words))) }
    ensures missing { (words : List (List ℕ)) → FirstMisfit words (length words)
        ↔ (BeginsCommand words × ¬ (IsCommand words)) }
{}
