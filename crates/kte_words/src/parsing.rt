ghost use Rattle.std.specs.Prelude.{◌≡◌, ◌≢◌, ◌≤◌, ◌↔◌, ℕ, List, [], codes, Ok, Err, Some, IsSome, IsNone, IfOk, IfErr, IfSome, IsSomeAnd, MatchOption, slice_get, length, nat_le, ◌&&◌};
ghost use Rattle.std.specs.List.{list_all};
ghost use Rattle.std.specs.Char.{is_ascii_digit};
ghost use Rattle.std.specs.Str.Parse.{digits_value};
ghost use Rattle.kte_words.specs.Forms.{IsNumber, Stops, number_at};
ghost use Rattle.kte_words.specs.declared.TheConstants.{MAX_DIGITS};
ghost use Rattle.kte_words.specs.Words.{Spells, SpellsFile, SpellsCheck, SpellsGen, FirstMisfit, file_form, check_form, gen_form, file_of};

use crate::word::Word;
use crate::words::Words;
use crate::{MAX_COUNT, MAX_DIGITS, MAX_WORKERS};
use thiserror::Error;

/// Why words are no command of the program.
#[derive(Clone, Copy, Debug, PartialEq, Eq, Drop, Error)]
#[error("word {at} does not fit")]
pub struct BadWords {
    /// The index, from 0, of the first word that does not fit, or the number of words if one is
    /// missing.
    pub at: u32,
}

/// Returns the command that the words are: `edit FILE`, `check N FILE`, `recover FILE` or
/// `gen NUMBER COUNT`. `FILE` is any word that is not empty, `N` a number from 1 to
/// [`MAX_WORKERS`], `NUMBER` a number of 64 bits and `COUNT` a number from 1 to [`MAX_COUNT`];
/// numbers are 1 to [`MAX_DIGITS`] decimal digits. The words are the arguments of the program,
/// without its name. Fails if they are no command, with the index of the first word that does not
/// fit.
pub fn parse(words: &[Word]) -> Result<Words, BadWords>
    ensures command { (command : _) → (result ≡ Ok command) ↔ Spells words.now command }
    ensures misfit { (bad : _) → (result ≡ Err bad) ↔ FirstMisfit words.now bad.at }
    // The file is one of the words, and is not empty.
    ensures file { IfOk result (λ command. IfSome (file_of command)
        (λ file. IsSomeAnd (slice_get words.now file) (λ name. name ≢ []))) }
{
    match words.first() {
        Some(word) => named(word.as_str(), words),
        None => Err(BadWords { at: 0 }),
    }
}

/// Returns the command that the words are. The first of them is its name.
fn named(name: &str, words: &[Word]) -> Result<Words, BadWords>
    requires { slice_get words.now 0 ≡ Some name.now }
    ensures command { IfOk result (λ command. Spells words.now command) }
    ensures misfit { IfErr result (λ bad. FirstMisfit words.now bad.at) }
{
    match name {
        "edit" => Ok(Words::Edit {
            file: file_alone(words)?,
        }),
        "check" => {
            let (workers, file) = workers_and_file(words)?;
            Ok(Words::Check { workers, file })
        }
        "recover" => Ok(Words::Recover {
            file: file_alone(words)?,
        }),
        "gen" => {
            let (number, count) = number_and_count(words)?;
            Ok(Words::Gen { number, count })
        }
        _ => Err(BadWords { at: 0 }),
    }
}

/// Returns the index of the word that names the file of a command of a file alone. The first word
/// is the command's own.
fn file_alone(words: &[Word]) -> Result<u32, BadWords>
    ensures ok { IfOk result (λ file. (lead : List ℕ) → slice_get words.now 0 ≡ Some lead
        → SpellsFile lead words.now file) }
    ensures err { IfErr result (λ bad. (lead : List ℕ) → slice_get words.now 0 ≡ Some lead
        → Stops (file_form lead) words.now bad.at) }
{
    let file = file_at(words, 1)?;
    end_at(words, 2)?;
    Ok(file)
}

/// Returns the number of checkers of the words of `check`, and the index of the word that names the
/// file.
fn workers_and_file(words: &[Word]) -> Result<(u32, u32), BadWords>
    requires { slice_get words.now 0 ≡ Some (codes "check") }
    ensures ok { IfOk result (λ both. SpellsCheck words.now both.0 both.1) }
    ensures err { IfErr result (λ bad. Stops check_form words.now bad.at) }
{
    let workers = number_at(words, 1, 1, u64::from(MAX_WORKERS))?;
    let file = file_at(words, 2)?;
    end_at(words, 3)?;
    Ok((workers as u32, file))
}

/// Returns the number and the count of the words of `gen`.
fn number_and_count(words: &[Word]) -> Result<(u64, u32), BadWords>
    requires { slice_get words.now 0 ≡ Some (codes "gen") }
    ensures ok { IfOk result (λ both. SpellsGen words.now both.0 both.1) }
    ensures err { IfErr result (λ bad. Stops gen_form words.now bad.at) }
{
    let number = number_at(words, 1, 0, u64::MAX)?;
    let count = number_at(words, 2, 1, u64::from(MAX_COUNT))?;
    end_at(words, 3)?;
    Ok((number, count as u32))
}

/// Returns the index of a word that names a file. Fails if the word is missing or empty.
fn file_at(words: &[Word], at: u32) -> Result<u32, BadWords>
    ensures ok { IfOk result (λ file. (file ≡ at)
        × IsSomeAnd (slice_get words.now at) (λ name. name ≢ [])) }
    ensures err { IfErr result (λ bad. (bad.at ≡ at)
        × IfSome (slice_get words.now at) (λ name. name ≡ [])) }
{
    match words.get(at as usize) {
        Some(name) if !name.as_str().is_empty() => Ok(at),
        _ => Err(BadWords { at }),
    }
}

/// Returns the number that a word is. Fails if the word is missing, or is no number from `least` to
/// `most`.
fn number_at(words: &[Word], at: u32, least: u64, most: u64) -> Result<u64, BadWords>
    ensures ok { IfOk result (λ number. (number ≡ number_at words.now at)
        × IsSomeAnd (slice_get words.now at) (IsNumber least most)) }
    ensures err { IfErr result (λ bad. (bad.at ≡ at)
        × IfSome (slice_get words.now at) (λ word. ¬ (IsNumber least most word))) }
{
    let Some(word) = words.get(at as usize) else {
        return Err(BadWords { at });
    };
    number_of(word.as_str(), least, most).ok_or(BadWords { at })
}

/// Returns the number that a word is, if it is one from `least` to `most`.
fn number_of(word: &str, least: u64, most: u64) -> Option<u64>
    ensures { MatchOption result (¬ (IsNumber least most word.now))
        (λ number. (number ≡ digits_value 10 word.now) × IsNumber least most word.now) }
{
    if !is_numeral(word) {
        return None;
    }
    let number = word.parse::<u64>().ok()?;
    if (least..=most).contains(&number) {
        Some(number)
    } else {
        None
    }
}

/// Returns whether a word is decimal digits alone, and no more than [`MAX_DIGITS`] of them.
fn is_numeral(word: &str) -> bool
    ensures { result ≡ (nat_le (length word.now) MAX_DIGITS && list_all is_ascii_digit word.now) }
{
    word.len() <= MAX_DIGITS && is_digits(word)
}

fn is_digits(word: &str) -> bool
    ensures { result ≡ list_all is_ascii_digit word.now }
{
    word.as_bytes().iter().all(|byte| byte.is_ascii_digit())
}

/// Fails if there is a word with this index.
fn end_at(words: &[Word], at: u32) -> Result<(), BadWords>
    ensures ok { IfOk result (λ _. IsNone (slice_get words.now at)) }
    ensures err { IfErr result (λ bad. (bad.at ≡ at) × IsSome (slice_get words.now at)) }
{
    match words.get(at as usize) {
        None => Ok(()),
        Some(_) => Err(BadWords { at }),
    }
}
