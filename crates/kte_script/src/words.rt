//! What is left of a text, from which words and fields are taken one after another.
//!
//! Words are parted by spaces alone. A call that fails names the first word that does not fit, and
//! may have moved to it or past it.
ghost use Rattle.std.specs.Prelude.{◌≡◌, ◌==◌, ◌≤◌, true, false, length, IfOk};
ghost use Rattle.kte_script.specs.Words.{skip, word, behind, ends_here, number_of};
ghost use Rattle.kte_script.specs.Fields.{ALine, AColumn, Short, Long, word_at, one_of, number_at, or_none_at, place_at, span_at, or_invalid_at, spans_at, starts_number, text_at, pattern_at, held, query_at, folds_at, whole_at, rule_at, expand_at, empty_at, succeeds_at, closes_at};
ghost use Rattle.kte_script.specs.Reading.{Gives, Moves, end_at};

use crate::fault::ReadError;
use crate::fields;
use crate::limits::Limits;
use crate::quotation::{pattern_of, plain_string, string, text_of};
use kte_find::Rule;
use kte_place::{Empty, Expand, Place, Span, Spans};
use kte_search::Query;
use kte_text::{Line, Text};
use std::alloc::Global;

/// What is left of a text.
#[derive(Drop)]
pub struct Words<'a> {
    /// The bytes that are left.
    pub rest: &'a [u8],
}

impl<'a> Words<'a> {
    /// Takes the next word, and returns it with the number of bytes that were left from it on. The
    /// word is empty if there is none.
    pub fn word(&mut self) -> (&'a [u8], usize)
        ensures word { result.0.now ≡ word (skip self.old.rest.now) }
        ensures left { result.1 ≡ length (skip self.old.rest.now) }
        ensures behind { self.new.rest.now ≡ behind (skip self.old.rest.now) }
        ensures within { length self.new.rest.now ≤ length self.old.rest.now }
    {
        let bytes = fields::skip(self.rest);
        let (word, rest) = fields::split_word(bytes);
        self.rest = rest;
        (word, bytes.len())
    }

    /// Fails if there is a further word.
    #[tactic(auto, unfolding(crate::specs::Reading::end_at))]
    pub fn finish(&self) -> Result<(), ReadError>
        ensures { Gives (λ _. tt) result (end_at self.now.rest.now) }
    {
        let bytes = fields::skip(self.rest);
        if bytes.is_empty() {
            Ok(())
        } else {
            Err(ReadError::Misfit { left: bytes.len() })
        }
    }

    /// Takes a number of at most so many digits and at most this value.
    #[tactic(auto, using(crate::proofs::WordLemmas::moved))]
    fn number_within(&mut self, digits: usize, most: u64) -> Result<u64, ReadError>
        ensures moves { Moves result self.new.rest.now
            (word_at (number_of digits most) self.old.rest.now) }
        ensures small { IfOk result (λ number. number ≤ most) }
        ensures within { length self.new.rest.now ≤ length self.old.rest.now }
    {
        let (word, left) = self.word();
        fields::number_of(digits, most, word).ok_or(ReadError::Misfit { left })
    }

    /// Takes the number of a line.
    #[tactic(auto, unfolding(crate::specs::Fields::number_at))]
    pub fn line(&mut self, limits: Limits) -> Result<u32, ReadError>
        ensures moves { Moves result self.new.rest.now
            (number_at limits ALine self.old.rest.now) }
        ensures within { length self.new.rest.now ≤ length self.old.rest.now }
    {
        let number = self.number_within(limits.digits(), u64::from(limits.line()))?;
        Ok(number as u32)
    }

    /// Takes the number of a column, or of units of a line.
    #[tactic(auto, unfolding(crate::specs::Fields::number_at))]
    pub fn column(&mut self, limits: Limits) -> Result<u64, ReadError>
        ensures moves { Moves result self.new.rest.now
            (number_at limits AColumn self.old.rest.now) }
        ensures within { length self.new.rest.now ≤ length self.old.rest.now }
    {
        self.number_within(limits.digits(), limits.column())
    }

    /// Takes a number of 32 bits that counts no lines.
    #[tactic(auto, unfolding(crate::specs::Fields::number_at))]
    pub fn short(&mut self, limits: Limits) -> Result<u32, ReadError>
        ensures { Moves result self.new.rest.now (number_at limits Short self.old.rest.now) }
    {
        let number = self.number_within(limits.digits(), u64::from(limits.short()))?;
        Ok(number as u32)
    }

    /// Takes a number of 64 bits that counts no columns.
    #[tactic(auto, unfolding(crate::specs::Fields::number_at))]
    pub fn long(&mut self, limits: Limits) -> Result<u64, ReadError>
        ensures { Moves result self.new.rest.now (number_at limits Long self.old.rest.now) }
    {
        self.number_within(limits.digits(), limits.long())
    }

    /// Takes a number of 64 bits, or `none`.
    #[tactic(auto, using(crate::proofs::WordLemmas::moved), unfolding(crate::specs::Fields::or_none_at))]
    pub fn long_or_none(&mut self, limits: Limits) -> Result<Option<u64>, ReadError>
        ensures { Moves result self.new.rest.now (or_none_at limits Long self.old.rest.now) }
    {
        let (word, left) = self.word();
        fields::or_none_of(limits, word).ok_or(ReadError::Misfit { left })
    }

    /// Takes a place.
    #[tactic(auto, unfolding(crate::specs::Fields::place_at))]
    pub fn place(&mut self, limits: Limits) -> Result<Place, ReadError>
        ensures moves { Moves result self.new.rest.now (place_at limits self.old.rest.now) }
        ensures within { length self.new.rest.now ≤ length self.old.rest.now }
    {
        let line = self.line(limits)?;
        let column = self.column(limits)?;
        Ok(Place { line, column })
    }

    /// Takes a span, its two places in either order.
    #[tactic(auto, unfolding(crate::specs::Fields::span_at))]
    pub fn span(&mut self, limits: Limits) -> Result<Span, ReadError>
        ensures moves { Moves result self.new.rest.now (span_at limits self.old.rest.now) }
        ensures within { length self.new.rest.now ≤ length self.old.rest.now }
    {
        let first = self.place(limits)?;
        let last = self.place(limits)?;
        Ok(Span::new(first, last))
    }

    /// Takes a span or `invalid`.
    #[tactic(auto, unfolding(crate::specs::Fields::or_invalid_at))]
    pub fn span_or_invalid(&mut self, limits: Limits) -> Result<Option<Span>, ReadError>
        ensures { Moves result self.new.rest.now (or_invalid_at limits self.old.rest.now) }
    {
        let (word, rest) = fields::split_word(fields::skip(self.rest));
        if word == b"invalid".as_slice() {
            self.rest = rest;
            return Ok(None);
        }
        Ok(Some(self.span(limits)?))
    }

    /// Takes spans as long as a digit begins the next word.
    pub fn spans(&mut self, alloc: Global, limits: Limits) -> Result<Spans, ReadError>
        ensures { Moves result self.new.rest.now (spans_at limits self.old.rest.now) }
    {
        let mut spans = Spans::new(alloc);
        'spans: while self.is_before_number() {
            spans.push(self.span(limits)?)?;
        }
        Ok(spans)
    }

    /// Whether a digit begins the next word.
    fn is_before_number(&self) -> bool
        ensures { result ≡ starts_number (skip self.now.rest.now) }
    {
        match fields::skip(self.rest) {
            [] => false,
            [byte, ..] => byte.is_ascii_digit(),
        }
    }

    /// Takes a rule.
    #[tactic(auto, unfolding(crate::specs::Fields::rule_at, crate::specs::Fields::rule_name))]
    pub fn rule(&mut self, alloc: Global, limits: Limits) -> Result<Rule, ReadError>
        ensures { Moves result self.new.rest.now (rule_at limits self.old.rest.now) }
    {
        let (word, left) = self.word();
        if word == b"word".as_slice() {
            let word = self.pattern(alloc)?;
            Ok(Rule::Word { word })
        } else if word == b"blanks".as_slice() {
            Ok(Rule::Blanks)
        } else if word == b"long".as_slice() {
            let limit = self.column(limits)?;
            Ok(Rule::Long { limit })
        } else if word == b"pairs".as_slice() {
            Ok(Rule::Pairs)
        } else if word == b"repeat".as_slice() {
            Ok(Rule::Repeat)
        } else {
            Err(ReadError::Misfit { left })
        }
    }

    /// Takes how a range expands.
    #[tactic(auto, using(crate::proofs::WordLemmas::moved), unfolding(crate::specs::Fields::expand_at))]
    pub fn expand(&mut self) -> Result<Expand, ReadError>
        ensures { Moves result self.new.rest.now (expand_at self.old.rest.now) }
    {
        let (word, left) = self.word();
        fields::expand_of(word).ok_or(ReadError::Misfit { left })
    }

    /// Takes what happens to an empty range.
    #[tactic(auto, using(crate::proofs::WordLemmas::moved), unfolding(crate::specs::Fields::empty_at))]
    pub fn empty(&mut self) -> Result<Empty, ReadError>
        ensures { Moves result self.new.rest.now (empty_at self.old.rest.now) }
    {
        let (word, left) = self.word();
        fields::empty_of(word).ok_or(ReadError::Misfit { left })
    }

    /// Takes one of two words, and returns whether it is `yes`.
    #[tactic(auto, using(crate::proofs::WordLemmas::moved))]
    fn flag(&mut self, yes: &[u8], no: &[u8]) -> Result<bool, ReadError>
        ensures { Moves result self.new.rest.now
            (word_at (one_of yes.now true no.now false) self.old.rest.now) }
    {
        let (word, left) = self.word();
        fields::flag_of(yes, no, word).ok_or(ReadError::Misfit { left })
    }

    /// Takes whether a call succeeded: `ok`, or else `failed`.
    #[tactic(auto, unfolding(crate::specs::Fields::succeeds_at, crate::specs::Fields::succeeds_of))]
    pub fn succeeds(&mut self) -> Result<bool, ReadError>
        ensures { Moves result self.new.rest.now (succeeds_at self.old.rest.now) }
    {
        self.flag(b"ok", b"failed")
    }

    /// Takes whether a session is closed: `closed`, or else `open`.
    #[tactic(auto, unfolding(crate::specs::Fields::closes_at, crate::specs::Fields::closes_of))]
    pub fn closes(&mut self) -> Result<bool, ReadError>
        ensures { Moves result self.new.rest.now (closes_at self.old.rest.now) }
    {
        self.flag(b"closed", b"open")
    }

    /// Takes whether letters are folded: `nocase`, or else `case`.
    #[tactic(auto, unfolding(crate::specs::Fields::folds_at, crate::specs::Fields::folds_of))]
    fn folds(&mut self) -> Result<bool, ReadError>
        ensures { Moves result self.new.rest.now (folds_at self.old.rest.now) }
    {
        self.flag(b"nocase", b"case")
    }

    /// Takes whether matches are whole words: `word`, or else `part`.
    #[tactic(auto, unfolding(crate::specs::Fields::whole_at, crate::specs::Fields::whole_of))]
    fn whole(&mut self) -> Result<bool, ReadError>
        ensures { Moves result self.new.rest.now (whole_at self.old.rest.now) }
    {
        self.flag(b"word", b"part")
    }

    /// Takes a query: its pattern, whether letters are folded, and whether matches are whole words.
    #[tactic(auto, unfolding(crate::specs::Fields::query_at, crate::specs::Fields::how_at))]
    pub fn query(&mut self, alloc: Global) -> Result<Query, ReadError>
        ensures { Moves result self.new.rest.now (query_at self.old.rest.now) }
    {
        let pattern = self.pattern(alloc)?;
        let fold_case = self.folds()?;
        let whole = self.whole()?;
        Ok(Query {
            pattern,
            fold_case,
            whole,
        })
    }

    /// Takes a string, which is a text.
    #[tactic(auto, unfolding(crate::specs::Fields::text_at, crate::specs::Strings::string_at))]
    pub fn text(&mut self, alloc: Global) -> Result<Text, ReadError>
        ensures { Moves result self.new.rest.now (text_at self.old.rest.now) }
    {
        self.rest = fields::skip(self.rest);
        let [b'"', inside @ ..] = self.rest else {
            return Err(ReadError::Misfit {
                left: self.rest.len(),
            });
        };
        if let Some((bytes, rest)) = plain_string(inside) {
            let text = text_of(alloc, bytes)?;
            return self.held(text, rest);
        }
        match string(alloc, inside)? {
            Some((bytes, rest)) => {
                let text = text_of(alloc, &bytes)?;
                self.held(text, rest)
            }
            None => Err(ReadError::Misfit {
                left: self.rest.len(),
            }),
        }
    }

    /// Takes a string, which is a line that is not empty.
    #[tactic(auto, unfolding(crate::specs::Fields::pattern_at, crate::specs::Strings::string_at))]
    pub fn pattern(&mut self, alloc: Global) -> Result<Line, ReadError>
        ensures { Moves result self.new.rest.now (pattern_at self.old.rest.now) }
    {
        self.rest = fields::skip(self.rest);
        let [b'"', inside @ ..] = self.rest else {
            return Err(ReadError::Misfit {
                left: self.rest.len(),
            });
        };
        match string(alloc, inside)? {
            Some((bytes, rest)) => {
                let line = pattern_of(alloc, &bytes)?;
                self.held(line, rest)
            }
            None => Err(ReadError::Misfit {
                left: self.rest.len(),
            }),
        }
    }

    /// Moves past a string that holds this value, if a space or the end follows it.
    fn held<T: Drop>(&mut self, value: Option<T>, rest: &'a [u8]) -> Result<T, ReadError>
        ensures { Moves result self.new.rest.now (held value rest.now self.old.rest.now) }
    {
        match value {
            Some(value) if ends_here(rest) => {
                self.rest = rest;
                Ok(value)
            }
            _ => Err(ReadError::Misfit {
                left: self.rest.len(),
            }),
        }
    }
}

fn ends_here(bytes: &[u8]) -> bool
    ensures { result ≡ ends_here bytes.now }
{
    match bytes {
        [] => true,
        [byte, ..] => *byte == b' ',
    }
}
