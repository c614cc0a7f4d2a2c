//! Runs of blanks and of word units in a line.
ghost use Rattle.std.specs.Prelude.{◌≡◌, ◌<◌, ◌≤◌, length, false};
ghost use Rattle.kte_text.specs.Words.{is_word_unit, has_word_before, has_word_at};
ghost use Rattle.kte_find.specs.OnLine.{EachUnit, is_blank, has_blank_before};

use kte_text::is_word_unit;

/// Returns `true` for a space and a tab.
#[inline]
pub(crate) fn is_blank(unit: u16) -> bool
    ensures { result ≡ is_blank unit }
{
    unit == 32 || unit == 9
}

/// Returns the column at which the blanks before a column begin.
#[inline]
pub(crate) fn blanks_start(units: &[u16], end: usize) -> usize
    requires { end ≤ length units.now }
    ensures order { result ≤ end }
    ensures blank { EachUnit is_blank units.now result end }
    ensures first { has_blank_before units.now result ≡ false }
{
    let mut start = end;
    while 0 < start && is_blank(units[start - 1]) {
        start -= 1;
    }
    start
}

/// Returns the column at which the word units before a column begin.
#[inline]
pub(crate) fn word_start(units: &[u16], end: usize) -> usize
    requires { end ≤ length units.now }
    ensures order { result ≤ end }
    ensures word { EachUnit is_word_unit units.now result end }
    ensures first { has_word_before units.now result ≡ false }
{
    let mut start = end;
    while 0 < start && is_word_unit(units[start - 1]) {
        start -= 1;
    }
    start
}

/// Returns the column at which the word units from a column on end.
#[inline]
pub(crate) fn word_end(units: &[u16], start: usize) -> usize
    requires { start ≤ length units.now }
    ensures order { start ≤ result }
    ensures within { result ≤ length units.now }
    ensures word { EachUnit is_word_unit units.now start result }
    ensures last { has_word_at units.now result ≡ false }
{
    let mut end = start;
    while end < units.len() && is_word_unit(units[end]) {
        end += 1;
    }
    end
}
