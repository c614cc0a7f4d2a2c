//! The lines of a file, and their size.
ghost use Rattle.std.specs.Prelude.{◌≡◌, ℕ, ◌<◌, ◌≤◌, ◌++◌, length, true, false, slice_index, drop, IfOk, OnOk};
ghost use Rattle.std.specs.Char.Escape.{encode_utf16};
ghost use Rattle.kte_text.specs.Units.{is_line_end};
ghost use Rattle.kte_text.specs.Files.{end_bytes};
ghost use Rattle.kte_text.specs.Reading.{byte_size, end_of, first_end, lines_of, text_size, utf16_of};

use crate::line::Line;
use crate::loading::Eol;
use memchr::memchr2;
use std::alloc::{AllocError, Global};

// The lines of a text in UTF-8.
pub(crate) fn lines_of(alloc: Global, text: &str) -> Result<Vec<Line>, AllocError>
    ensures { IfOk result (λ lines. lines.items ≡ lines_of text.now) }
{
    let bytes = text.as_bytes();
    let mut lines = Vec::new(alloc);
    let mut from = 0;
    while let Some(length) = memchr2(b'\n', b'\r', &bytes[from..]) {
        let end = from + length;
        lines.push(Line::of_text(alloc, &text[from..end])?)?;
        from = end + end_len(end_at(bytes, end));
    }
    lines.push(Line::of_text(alloc, &text[from..])?)?;
    Ok(lines)
}

// The first line end of a text, LF where there is none.
pub(crate) fn first_end(text: &str) -> Eol
    ensures { result ≡ first_end text.now }
{
    match memchr2(b'\n', b'\r', text.as_bytes()) {
        Some(at) => end_at(text.as_bytes(), at),
        None => Eol::Lf,
    }
}

// The line end at `at`, where an LF or a CR stands.
fn end_at(bytes: &[u8], at: usize) -> Eol
    requires within { at < length bytes.now }
    ensures { result ≡ end_of (drop at bytes.now) }
{
    if bytes[at] != b'\r' {
        Eol::Lf
    } else if at + 1 < bytes.len() && bytes[at + 1] == b'\n' {
        Eol::CrLf
    } else {
        Eol::Cr
    }
}

// How many bytes a line end has.
fn end_len(eol: Eol) -> usize
    ensures { result ≡ length (end_bytes eol) }
{
    match eol {
        Eol::Lf | Eol::Cr => 1,
        Eol::CrLf => 2,
    }
}

// The UTF-16 of a text in UTF-8.
pub(crate) fn units_in(alloc: Global, text: &str) -> Result<Vec<u16>, AllocError>
    ensures { IfOk result (λ units. units.items ≡ utf16_of text.now) }
{
    let bytes = text.as_bytes();
    if bytes.is_ascii() {
        return widened(alloc, bytes);
    }
    let mut units = Vec::with_capacity(alloc, text_size(bytes) as usize)?;
    for c in text.chars() {
        push_char(&mut units, c)?;
    }
    Ok(units)
}

// Appends the units of a character, of which most have one.
fn push_char(units: &mut Vec<u16>, c: char) -> Result<(), AllocError>
    ensures { OnOk result (units.new.items ≡ units.old.items ++ encode_utf16 c) }
{
    if (c as u32) < 0x1_0000 {
        units.push(c as u32 as u16)?;
    } else {
        units.extend_from_slice(c.encode_utf16(&mut [0; 2]))?;
    }
    Ok(())
}

// A unit for each byte.
fn widened(alloc: Global, bytes: &[u8]) -> Result<Vec<u16>, AllocError>
    ensures { IfOk result (λ units. units.items ≡ bytes.now) }
{
    bytes.iter().map(|byte| u16::from(*byte)).collect(alloc)
}

// The size of a text in UTF-8.
pub(crate) fn text_size(bytes: &[u8]) -> u64
    ensures { result ≡ text_size bytes.now }
{
    let mut size = 0;
    let mut after_cr = false;
    for byte in bytes {
        size += byte_size(after_cr, *byte);
        after_cr = *byte == b'\r';
    }
    size
}

// What a byte of a text in UTF-8 adds to the text's size.
fn byte_size(after_cr: bool, byte: u8) -> u64
    ensures { result ≡ byte_size after_cr byte }
{
    if byte < 0x80 {
        if after_cr && byte == b'\n' { 0 } else { 1 }
    } else if byte < 0xC0 {
        0
    } else if byte < 0xF0 {
        1
    } else {
        2
    }
}
