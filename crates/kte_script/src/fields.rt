//! The words of a line, and what a word is.
ghost use Rattle.std.specs.Prelude.{◌≡◌, ◌==◌, ◌+◌, ◌-◌, ◌*◌, ◌<◌, ◌≤◌, ◌^◌, true, false, length, IfSome, MatchOption, SomeIff, not};
ghost use Rattle.std.specs.List.{list_all, position};
ghost use Rattle.std.specs.Char.{is_ascii_digit};
ghost use Rattle.std.specs.Str.Parse.{digits_value as value_of};
ghost use Rattle.kte_script.specs.Words.{skip, word, behind, number_of};
ghost use Rattle.kte_script.specs.Fields.{Long, one_of, or_none_of, expand_of, empty_of};

use crate::limits::Limits;
use kte_place::{Empty, Expand};

/// Returns the bytes from the first word on.
pub(crate) fn skip(bytes: &[u8]) -> &[u8]
    ensures value { result.now ≡ skip bytes.now }
    ensures within { length result.now ≤ length bytes.now }
{
    match first_other(bytes) {
        Some(at) => bytes.split_at(at).1,
        None => &[],
    }
}

/// Returns the word in front and the bytes after it.
pub(crate) fn split_word(bytes: &[u8]) -> (&[u8], &[u8])
    ensures word { result.0.now ≡ word bytes.now }
    ensures behind { result.1.now ≡ behind bytes.now }
    ensures within { length result.1.now ≤ length bytes.now }
{
    match first_space(bytes) {
        Some(at) => bytes.split_at(at),
        None => (bytes, &[]),
    }
}

fn first_other(bytes: &[u8]) -> Option<usize>
    ensures { result ≡ position (λ byte. not (byte == 32)) bytes.now }
{
    bytes.iter().position(|byte| *byte != b' ')
}

fn first_space(bytes: &[u8]) -> Option<usize>
    ensures { result ≡ position (λ byte. byte == 32) bytes.now }
{
    bytes.iter().position(|byte| *byte == b' ')
}

/// Returns the number that a word is, if it is one of at most so many digits and at most this value.
#[tactic(auto, unfolding(crate::specs::Words::is_number, crate::specs::Words::number_of))]
pub(crate) fn number_of(digits: usize, most: u64, word: &[u8]) -> Option<u64>
    ensures value { result ≡ number_of digits most word.now }
    ensures small { IfSome result (λ number. number ≤ most) }
{
    if word.is_empty() || word.len() > digits || !is_digits(word) {
        return None;
    }
    let value = digits_value(word)?;
    if value <= most { Some(value) } else { None }
}

/// Returns the number that a word is, `Some(None)` if it is `none`.
#[tactic(auto, unfolding(crate::specs::Fields::or_none_of))]
pub(crate) fn or_none_of(limits: Limits, word: &[u8]) -> Option<Option<u64>>
    ensures { result ≡ or_none_of limits Long word.now }
{
    if word == b"none".as_slice() {
        return Some(None);
    }
    let number = number_of(limits.digits(), limits.long(), word)?;
    Some(Some(number))
}

fn is_digits(word: &[u8]) -> bool
    ensures { result ≡ list_all is_ascii_digit word.now }
{
    word.iter().all(|byte| byte.is_ascii_digit())
}

/// Returns the value of digits, `None` if it is no number of 64 bits.
fn digits_value(word: &[u8]) -> Option<u64>
    requires { list_all is_ascii_digit word.now ≡ true }
    ensures { MatchOption result (2 ^ 64 ≤ value_of 10 word.now)
        (λ value. value ≡ value_of 10 word.now) }
{
    let mut value = 0;
    for byte in word {
        let Some(more) = with_digit(value, *byte) else {
            return None;
        };
        value = more;
    }
    Some(value)
}

/// Returns a number with one more digit.
fn with_digit(value: u64, digit: u8) -> Option<u64>
    requires { 48 ≤ digit }
    ensures { SomeIff result (value * 10 + (digit - 48) < 2 ^ 64) (value * 10 + (digit - 48)) }
{
    value.checked_mul(10)?.checked_add(u64::from(digit - b'0'))
}

/// Returns how a range expands.
#[tactic(auto, unfolding(crate::specs::Fields::expand_of))]
pub(crate) fn expand_of(word: &[u8]) -> Option<Expand>
    ensures { result ≡ expand_of word.now }
{
    let (left, right) = if word == b"none".as_slice() {
        (false, false)
    } else if word == b"left".as_slice() {
        (true, false)
    } else if word == b"right".as_slice() {
        (false, true)
    } else if word == b"both".as_slice() {
        (true, true)
    } else {
        return None;
    };
    Some(Expand { left, right })
}

/// Returns what happens to an empty range.
#[tactic(auto, unfolding(crate::specs::Fields::empty_of))]
pub(crate) fn empty_of(word: &[u8]) -> Option<Empty>
    ensures { result ≡ empty_of word.now }
{
    if word == b"allow".as_slice() {
        Some(Empty::Allow)
    } else if word == b"void".as_slice() {
        Some(Empty::Void)
    } else {
        None
    }
}

/// Returns `true` for the word `yes`, `false` for the word `no`.
pub(crate) fn flag_of(yes: &[u8], no: &[u8], word: &[u8]) -> Option<bool>
    ensures { result ≡ one_of yes.now true no.now false word.now }
{
    if word == yes {
        Some(true)
    } else if word == no {
        Some(false)
    } else {
        None
    }
}
