//! Brackets that are in no pair.
ghost use Rattle.std.specs.Prelude.{◌≡◌, ◌+◌, ◌≤◌, Bool, true, List, [], ◌∷◌, ◌++◌, length, map, take, IfOk, OnOk};
ghost use Rattle.kte_find.specs.declared.found.TheConstants.{MAX_FINDINGS};
ghost use Rattle.kte_find.specs.Brackets.{Placed, placed_on, is_opening, is_closing, is_bracket, closes};
ghost use Rattle.kte_find.specs.Findings.{span_of, AreFindings};
ghost use Rattle.kte_find.specs.declared.rule.Rule.TheVariants as Rule;

use crate::found::note;
use kte_place::{Place, Span, Spans};
use kte_text::{Lines, Text};
use std::alloc::{AllocError, Global};
use std::marker::Model;

/// A bracket of a text, with its place.
#[derive(Clone, Copy, Debug)]
struct Bracket {
    place: Place,
    unit: u16,
}

impl Model for Bracket {
    ghost use Rattle.std.specs.Prelude.{◌<◌, ◌-◌, ◌^◌};
    ghost use Rattle.kte_find.specs.Brackets.{Placed};

    ghost Value = { Placed };

    ghost view = { λ b. record { place = b.place; unit = b.unit } };

    // The column after the bracket is a number.
    ghost invariant = { λ b. b.place.column < 2 ^ 64 - 1 };

    ghost inverse = { λ p. record { place = p.place; unit = p.unit } };
}

impl Bracket {
    /// Returns the span of this one unit.
    fn span(&self) -> Span
        ensures { result ≡ span_of self.now }
    {
        let end = Place {
            column: self.place.column + 1,
            ..self.place
        };
        Span::new(self.place, end)
    }

    /// Returns `true` for an opening bracket.
    fn is_opening(&self) -> bool
        ensures { result ≡ is_opening self.now.unit }
    {
        is_opening(self.unit)
    }

    /// Returns `true` if this is an opening bracket, and the other the closing one of its kind.
    fn is_closed_by(&self, closing: &Bracket) -> bool
        ensures { result ≡ closes self.now.unit closing.now.unit }
    {
        (self.unit == 40 && closing.unit == 41)
            || (self.unit == 91 && closing.unit == 93)
            || (self.unit == 123 && closing.unit == 125)
    }
}

#[inline]
fn is_opening(unit: u16) -> bool
    ensures { result ≡ is_opening unit }
{
    unit == 40 || unit == 91 || unit == 123
}

#[inline]
fn is_bracket(unit: u16) -> bool
    ensures { result ≡ is_bracket unit }
{
    is_opening(unit) || unit == 41 || unit == 93 || unit == 125
}

/// The brackets that were read so far.
#[derive(Drop)]
struct Reading {
    /// The opening brackets that may still be closed, in the order of the text.
    opened: Vec<Bracket>,
    /// The first brackets that are in no pair, whatever follows.
    found: Spans,
}

impl Reading {
    ghost use Rattle.kte_find.specs.Reading.{HasRead, closes_last};

    /// Reads the units of a line.
    fn read_line(&mut self, units: &[u16], line: u32) -> Result<(), AllocError>
        requires { length self.old.found ≤ MAX_FINDINGS }
        ensures few { OnOk result (length self.new.found ≤ MAX_FINDINGS) }
        ensures read { OnOk result ((before : List Placed)
            → HasRead before self.old.opened.items self.old.found
            → HasRead (before ++ placed_on line 0 units.now) self.new.opened.items self.new.found) }
    {
        for column in 0..units.len() {
            let unit = units[column];
            if is_bracket(unit) {
                let place = Place {
                    line,
                    column: column as u64,
                };
                self.read(Bracket { place, unit })?;
            }
        }
        Ok(())
    }

    /// Reads a bracket. A closing one closes the last opening one, if that is of its kind. If not,
    /// no pair can go across it: neither it nor any bracket before it can be closed any more.
    fn read(&mut self, bracket: Bracket) -> Result<(), AllocError>
        requires is_bracket { is_bracket bracket.unit ≡ true }
        requires few { length self.old.found ≤ MAX_FINDINGS }
        ensures few { OnOk result (length self.new.found ≤ MAX_FINDINGS) }
        ensures read { OnOk result ((before : List Placed)
            → HasRead before self.old.opened.items self.old.found
            → HasRead (before ++ bracket ∷ []) self.new.opened.items self.new.found) }
    {
        if bracket.is_opening() {
            self.opened.push(bracket)?;
            return Ok(());
        }
        if self.closes_last(&bracket) {
            let _ = self.opened.pop();
            return Ok(());
        }
        self.seal(bracket)
    }

    /// Returns `true` if the bracket closes the last opening one.
    fn closes_last(&self, bracket: &Bracket) -> bool
        ensures { result ≡ closes_last self.now.opened.items bracket.now }
    {
        match self.opened.last() {
            Some(opening) => opening.is_closed_by(bracket),
            None => false,
        }
    }

    /// Notes all opening brackets, and a closing one that closes none of them.
    fn seal(&mut self, bracket: Bracket) -> Result<(), AllocError>
        requires { length self.old.found ≤ MAX_FINDINGS }
        ensures opened { OnOk result (self.new.opened.items ≡ []) }
        ensures found { OnOk result (self.new.found ≡ take MAX_FINDINGS
            (self.old.found ++ map span_of self.old.opened.items ++ span_of bracket ∷ [])) }
    {
        note_all(&mut self.found, self.opened.as_slice())?;
        self.opened.clear();
        note(&mut self.found, bracket.span())
    }
}

/// Appends the spans of brackets, as long as there are fewer than are returned.
fn note_all(found: &mut Spans, brackets: &[Bracket]) -> Result<(), AllocError>
    requires { length found.old ≤ MAX_FINDINGS }
    ensures { OnOk result (found.new ≡ take MAX_FINDINGS (found.old ++ map span_of brackets.now)) }
{
    for bracket in brackets {
        note(found, bracket.span())?;
    }
    Ok(())
}

/// Returns the first brackets of the text that are in no pair.
pub(crate) fn find_lone(alloc: Global, text: &Text) -> Result<Spans, AllocError>
    ensures { IfOk result (AreFindings Rule.Pairs text.now) }
{
    let mut reading = Reading {
        opened: Vec::new(alloc),
        found: Spans::new(alloc),
    };
    for line in 0..text.lines() {
        reading.read_line(text.line(line), line)?;
    }
    let Reading { opened, mut found } = reading;
    note_all(&mut found, opened.as_slice())?;
    Ok(found)
}
