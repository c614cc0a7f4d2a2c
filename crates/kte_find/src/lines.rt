//! The findings of one line.
ghost use Rattle.std.specs.Prelude.{◌≡◌, ◌≢◌, ℕ, ◌+◌, ◌<◌, ◌≤◌, ◌↔◌, false, true, length, IsTrue, IfOk, OnOk, MatchOption};
ghost use Rattle.kte_place.specs.Place.{at};
ghost use Rattle.kte_text.specs.Words.{MatchesAt};
ghost use Rattle.kte_find.specs.declared.rule.Rule.TheVariants as Rule;
ghost use Rattle.kte_find.specs.OnLine.{IsRepeated};
ghost use Rattle.kte_find.specs.Rule.{HasWord};
ghost use Rattle.kte_find.specs.Findings.{AreFindings};
ghost use Rattle.kte_find.specs.Inside.{AreFound};

use crate::found::note;
use crate::rule::Rule;
use crate::runs::{blanks_start, word_end, word_start};
use kte_place::{Place, Span, Spans};
use kte_text::{Lines, Text, is_word_unit, matches_at};
use std::alloc::{AllocError, Global};

/// The span from a column of a line up to another.
fn span_on(line: u32, start: u64, end: u64) -> Span
    requires { start ≤ end }
    ensures { result ≡ record { start = at line start; end = at line end } }
{
    let start = Place {
        line,
        column: start,
    };
    Span::new(
        start,
        Place {
            column: end,
            ..start
        },
    )
}

/// Returns `true` if the word stands at a column by itself.
#[inline]
fn is_place(units: &[u16], column: usize, word: &[u16]) -> bool
    requires there { column < length units.now }
    requires some { 0 < length word.now }
    ensures { IsTrue result ↔ MatchesAt false true word.now units.now column }
{
    units[column] == word[0] && matches_at(units, column as u64, word, false, true)
}

/// Notes the places of a word in a line.
fn find_word(found: &mut Spans, text: &Text, line: u32, word: &[u16]) -> Result<(), AllocError>
    requires some { 0 < length word.now }
    requires there { line < length text.now }
    requires before { AreFound (Rule.Word word.now) text.now (at line 0) found.old }
    ensures { OnOk result (AreFound (Rule.Word word.now) text.now (at (line + 1) 0) found.new) }
{
    let units = text.line(line);
    for column in 0..units.len() {
        if is_place(units, column, word) {
            let end = column + word.len();
            note(found, span_on(line, column as u64, end as u64))?;
        }
    }
    Ok(())
}

/// Notes the blanks at the end of a line.
fn find_blanks(found: &mut Spans, text: &Text, line: u32) -> Result<(), AllocError>
    requires there { line < length text.now }
    requires before { AreFound Rule.Blanks text.now (at line 0) found.old }
    ensures { OnOk result (AreFound Rule.Blanks text.now (at (line + 1) 0) found.new) }
{
    let units = text.line(line);
    let start = blanks_start(units, units.len());
    if start < units.len() {
        note(found, span_on(line, start as u64, units.len() as u64))?;
    }
    Ok(())
}

/// Notes what a line has beyond a limit.
fn find_long(found: &mut Spans, text: &Text, line: u32, limit: u64) -> Result<(), AllocError>
    requires there { line < length text.now }
    requires before { AreFound (Rule.Long limit) text.now (at line 0) found.old }
    ensures { OnOk result (AreFound (Rule.Long limit) text.now (at (line + 1) 0) found.new) }
{
    let length = text.line(line).len() as u64;
    if limit < length {
        note(found, span_on(line, limit, length))?;
    }
    Ok(())
}

/// Notes the repeated words of a line.
fn find_repeats(found: &mut Spans, text: &Text, line: u32) -> Result<(), AllocError>
    requires there { line < length text.now }
    requires before { AreFound Rule.Repeat text.now (at line 0) found.old }
    ensures { OnOk result (AreFound Rule.Repeat text.now (at (line + 1) 0) found.new) }
{
    let units = text.line(line);
    for column in 0..units.len() {
        if let Some(end) = repeat_end(units, column) {
            note(found, span_on(line, column as u64, end as u64))?;
        }
    }
    Ok(())
}

/// Returns the end of the repeated word that starts at a column, if one does.
fn repeat_end(units: &[u16], start: usize) -> Option<usize>
    requires { start < length units.now }
    ensures { MatchOption result ((end : ℕ) → ¬ (IsRepeated units.now start end))
        (λ end. IsRepeated units.now start end) }
{
    if !is_word_unit(units[start]) {
        return None;
    }
    let other_end = blanks_start(units, start);
    if other_end == start {
        return None;
    }
    let other_start = word_start(units, other_end);
    if other_start == other_end {
        return None;
    }
    let end = word_end(units, start);
    if units[start..end] == units[other_start..other_end] {
        Some(end)
    } else {
        None
    }
}

/// Notes the findings of a rule in a line.
fn find_in_line(found: &mut Spans, rule: &Rule, text: &Text, line: u32) -> Result<(), AllocError>
    requires word { HasWord rule.now }
    requires by_line { rule.now ≢ Rule.Pairs }
    requires there { line < length text.now }
    requires before { AreFound rule.now text.now (at line 0) found.old }
    ensures { OnOk result (AreFound rule.now text.now (at (line + 1) 0) found.new) }
{
    match rule {
        Rule::Word { word } => find_word(found, text, line, word.units()),
        Rule::Blanks => find_blanks(found, text, line),
        Rule::Long { limit } => find_long(found, text, line, *limit),
        Rule::Repeat => find_repeats(found, text, line),
        Rule::Pairs => unreachable!(),
    }
}

/// Returns the first findings of a rule that looks at each line by itself.
pub(crate) fn find_in_lines(alloc: Global, rule: &Rule, text: &Text) -> Result<Spans, AllocError>
    requires word { HasWord rule.now }
    requires by_line { rule.now ≢ Rule.Pairs }
    ensures { IfOk result (AreFindings rule.now text.now) }
{
    let mut found = Spans::new(alloc);
    for line in 0..text.lines() {
        find_in_line(&mut found, rule, text, line)?;
    }
    Ok(found)
}
