//! Appending the canonical spelling of fields, a space before each word. If out of memory, what was
//! in the output is still in front of it, and part of the spelling may follow.
ghost use Rattle.std.specs.Prelude.{◌≡◌, ◌+◌, ◌++◌, ◌<◌, ◌≤◌, take, drop, length, OnOk, OnErr};
ghost use Rattle.std.specs.Fmt.{decimal};
ghost use Rattle.std.specs.List.{list_all, flat_map};
ghost use Rattle.kte_text.specs.Units.{utf8_of};
ghost use Rattle.kte_script.specs.Strings.{hex_digit, spell_byte, spell_text};
ghost use Rattle.kte_script.specs.Fields.{spell_number, spell_or_none, spell_place, spell_span, spell_or_invalid, spell_spans, spell_pattern, spell_folds, spell_whole, spell_query, spell_rule, spell_expand, spell_empty, spell_succeeds, spell_closes};
ghost use Rattle.kte_script.specs.Spelled.{Keeps, is_itself};

use itoa::Buffer;
use kte_find::Rule;
use kte_place::{Empty, Expand, Place, Span, Spans};
use kte_search::Query;
use kte_text::{Line, Lines, Text, push_utf8};
use std::alloc::AllocError;

/// Appends a space and a number.
#[tactic(auto, using(crate::proofs::SpellingLemmas::keeps))]
pub fn push_number(out: &mut Vec<u8>, number: u64) -> Result<(), AllocError>
    ensures ok { OnOk result (out.new.items ≡ out.old.items ++ spell_number number) }
    ensures err { OnErr result (Keeps out.old.items out.new.items) }
{
    let mut buffer = Buffer::new();
    out.push(b' ')?;
    out.extend_from_slice(buffer.format(number).as_bytes())
}

/// Appends a place, a space before each number.
#[tactic(auto, using(crate::proofs::SpellingLemmas::keeps))]
pub fn push_place(out: &mut Vec<u8>, place: Place) -> Result<(), AllocError>
    ensures ok { OnOk result (out.new.items ≡ out.old.items ++ spell_place place) }
    ensures err { OnErr result (Keeps out.old.items out.new.items) }
{
    push_number(out, u64::from(place.line))?;
    push_number(out, place.column)
}

/// Appends a span, its start first.
#[tactic(auto, using(crate::proofs::SpellingLemmas::keeps))]
pub fn push_span(out: &mut Vec<u8>, span: &Span) -> Result<(), AllocError>
    ensures ok { OnOk result (out.new.items ≡ out.old.items ++ spell_span span.now) }
    ensures err { OnErr result (Keeps out.old.items out.new.items) }
{
    push_place(out, span.start)?;
    push_place(out, span.end)
}

/// Appends a space and how a range expands.
pub fn push_expand(out: &mut Vec<u8>, expand: Expand) -> Result<(), AllocError>
    ensures ok { OnOk result (out.new.items ≡ out.old.items ++ spell_expand expand) }
    ensures err { OnErr result (Keeps out.old.items out.new.items) }
{
    out.extend_from_slice(match (expand.left, expand.right) {
        (false, false) => b" none".as_slice(),
        (true, false) => b" left".as_slice(),
        (false, true) => b" right".as_slice(),
        (true, true) => b" both".as_slice(),
    })
}

/// Appends a space and what happens to an empty range.
pub fn push_empty(out: &mut Vec<u8>, empty: Empty) -> Result<(), AllocError>
    ensures ok { OnOk result (out.new.items ≡ out.old.items ++ spell_empty empty) }
    ensures err { OnErr result (Keeps out.old.items out.new.items) }
{
    match empty {
        Empty::Allow => out.extend_from_slice(b" allow"),
        Empty::Void => out.extend_from_slice(b" void"),
    }
}

/// Appends a space and a number, or `none`.
pub fn push_number_or_none(out: &mut Vec<u8>, number: Option<u64>) -> Result<(), AllocError>
    ensures ok { OnOk result (out.new.items ≡ out.old.items ++ spell_or_none number) }
    ensures err { OnErr result (Keeps out.old.items out.new.items) }
{
    match number {
        Some(number) => push_number(out, number),
        None => out.extend_from_slice(b" none"),
    }
}

/// Appends a span, or a space and `invalid`.
pub fn push_span_or_invalid(out: &mut Vec<u8>, span: &Option<Span>) -> Result<(), AllocError>
    ensures ok { OnOk result (out.new.items ≡ out.old.items ++ spell_or_invalid span.now) }
    ensures err { OnErr result (Keeps out.old.items out.new.items) }
{
    match span {
        Some(span) => push_span(out, span),
        None => out.extend_from_slice(b" invalid"),
    }
}

/// Appends each of these spans, in their order.
pub fn push_spans(out: &mut Vec<u8>, spans: &Spans) -> Result<(), AllocError>
    ensures ok { OnOk result (out.new.items ≡ out.old.items ++ spell_spans spans.now) }
    ensures err { OnErr result (Keeps out.old.items out.new.items) }
{
    for n in 0..spans.len() {
        push_span(out, spans.get(n))?;
    }
    Ok(())
}

/// Appends a space and whether a call succeeded, as `ok` or `failed`.
pub fn push_succeeds(out: &mut Vec<u8>, ok: bool) -> Result<(), AllocError>
    ensures ok { OnOk result (out.new.items ≡ out.old.items ++ spell_succeeds ok) }
    ensures err { OnErr result (Keeps out.old.items out.new.items) }
{
    match ok {
        true => out.extend_from_slice(b" ok"),
        false => out.extend_from_slice(b" failed"),
    }
}

/// Appends a space and whether a session is closed, as `closed` or `open`.
pub fn push_closes(out: &mut Vec<u8>, closed: bool) -> Result<(), AllocError>
    ensures ok { OnOk result (out.new.items ≡ out.old.items ++ spell_closes closed) }
    ensures err { OnErr result (Keeps out.old.items out.new.items) }
{
    match closed {
        true => out.extend_from_slice(b" closed"),
        false => out.extend_from_slice(b" open"),
    }
}

/// Appends a query: its pattern as a string, `case` or `nocase`, and `word` or `part`.
#[tactic(auto, using(crate::proofs::SpellingLemmas::three_parts, crate::proofs::SpellingLemmas::keeps))]
pub fn push_query(out: &mut Vec<u8>, query: &Query) -> Result<(), AllocError>
    ensures ok { OnOk result (out.new.items ≡ out.old.items ++ spell_query query.now) }
    ensures err { OnErr result (Keeps out.old.items out.new.items) }
{
    push_pattern(out, &query.pattern)?;
    push_folds(out, query.fold_case)?;
    push_whole(out, query.whole)
}

/// Appends a space and whether letters are folded, as `nocase` or `case`.
fn push_folds(out: &mut Vec<u8>, fold_case: bool) -> Result<(), AllocError>
    ensures ok { OnOk result (out.new.items ≡ out.old.items ++ spell_folds fold_case) }
    ensures err { OnErr result (Keeps out.old.items out.new.items) }
{
    match fold_case {
        true => out.extend_from_slice(b" nocase"),
        false => out.extend_from_slice(b" case"),
    }
}

/// Appends a space and whether matches are whole words, as `word` or `part`.
fn push_whole(out: &mut Vec<u8>, whole: bool) -> Result<(), AllocError>
    ensures ok { OnOk result (out.new.items ≡ out.old.items ++ spell_whole whole) }
    ensures err { OnErr result (Keeps out.old.items out.new.items) }
{
    match whole {
        true => out.extend_from_slice(b" word"),
        false => out.extend_from_slice(b" part"),
    }
}

/// Appends a space and a rule.
#[tactic(auto, using(crate::proofs::SpellingLemmas::two_parts, crate::proofs::SpellingLemmas::keeps))]
pub fn push_rule(out: &mut Vec<u8>, rule: &Rule) -> Result<(), AllocError>
    ensures ok { OnOk result (out.new.items ≡ out.old.items ++ spell_rule rule.now) }
    ensures err { OnErr result (Keeps out.old.items out.new.items) }
{
    match rule {
        Rule::Word { word } => {
            out.extend_from_slice(b" word")?;
            push_pattern(out, word)
        }
        Rule::Blanks => out.extend_from_slice(b" blanks"),
        Rule::Long { limit } => {
            out.extend_from_slice(b" long")?;
            push_number(out, *limit)
        }
        Rule::Pairs => out.extend_from_slice(b" pairs"),
        Rule::Repeat => out.extend_from_slice(b" repeat"),
    }
}

/// Appends a space and a line as a string.
pub fn push_pattern(out: &mut Vec<u8>, line: &Line) -> Result<(), AllocError>
    ensures ok { OnOk result (out.new.items ≡ out.old.items ++ spell_pattern line.now) }
    ensures err { OnErr result (Keeps out.old.items out.new.items) }
{
    out.extend_from_slice(b" \"")?;
    push_line(out, line)?;
    out.push(b'"')?;
    Ok(())
}

/// Appends a space and a text as a string.
pub fn push_text(out: &mut Vec<u8>, text: &Text) -> Result<(), AllocError>
    ensures ok { OnOk result (out.new.items ≡ out.old.items ++ spell_text text.now) }
    ensures err { OnErr result (Keeps out.old.items out.new.items) }
{
    let count = text.lines();
    out.extend_from_slice(b" \"")?;
    push_line(out, text.get(0))?;
    for n in 1..count {
        out.extend_from_slice(b"\\n")?;
        push_line(out, text.get(u64::from(n)))?;
    }
    out.push(b'"')?;
    Ok(())
}

/// Appends the spelling of a line in a string.
fn push_line(out: &mut Vec<u8>, line: &Line) -> Result<(), AllocError>
    ensures ok { OnOk result (out.new.items
        ≡ out.old.items ++ flat_map spell_byte (utf8_of line.now)) }
    ensures err { OnErr result (Keeps out.old.items out.new.items) }
{
    let start = out.len();
    push_utf8(line.units(), out)?;
    escape(out, start)
}

/// Replaces the bytes from `start` on by their spelling in a string.
fn escape(out: &mut Vec<u8>, start: usize) -> Result<(), AllocError>
    requires { start ≤ length out.old.items }
    ensures ok { OnOk result (out.new.items
        ≡ take start out.old.items ++ flat_map spell_byte (drop start out.old.items)) }
    ensures err { OnErr result (take start out.new.items ≡ take start out.old.items) }
{
    if is_itself(&out[start..]) {
        return Ok(());
    }
    let text = out.split_off(start)?;
    for byte in &text {
        push_byte(out, *byte)?;
    }
    Ok(())
}

/// Appends the spelling of a byte of a string.
#[tactic(auto, unfolding(crate::specs::Strings::spell_byte))]
fn push_byte(out: &mut Vec<u8>, byte: u8) -> Result<(), AllocError>
    ensures ok { OnOk result (out.new.items ≡ out.old.items ++ spell_byte byte) }
    ensures err { OnErr result (out.new.items ≡ out.old.items) }
{
    match byte {
        b'\n' => out.extend_from_slice(b"\\n"),
        b'\t' => out.extend_from_slice(b"\\t"),
        b'"' => out.extend_from_slice(b"\\\""),
        b'\\' => out.extend_from_slice(b"\\\\"),
        0..=31 => {
            out.extend_from_slice(&[b'\\', b'x', hex_digit(byte / 16), hex_digit(byte % 16)])
        }
        _ => out.extend_from_slice(&[byte]),
    }
}

fn hex_digit(value: u8) -> u8
    requires { value < 16 }
    ensures { result ≡ hex_digit value }
{
    if value < 10 {
        b'0' + value
    } else {
        b'a' + (value - 10)
    }
}

/// Whether each byte is spelled as itself in a string.
fn is_itself(bytes: &[u8]) -> bool
    ensures { result ≡ list_all is_itself bytes.now }
{
    bytes
        .iter()
        .all(|byte| *byte >= 32 && *byte != b'"' && *byte != b'\\')
}
