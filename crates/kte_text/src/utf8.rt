//! Lines in UTF-8.
ghost use Rattle.std.specs.Prelude.{◌≡◌, ℕ, ◌+◌, ◌<◌, ◌≤◌, ◌%◌, List, ◌∷◌, ◌++◌, length, take, drop, sum_by, All, false, IfOk, OnOk, OnErr, encode_utf8};
ghost use Rattle.std.specs.Char.Utf16.{has_unpaired_surrogate, utf16_lossy_chars};
ghost use Rattle.std.specs.String.{string_bytes};
ghost use Rattle.kte_text.specs.Units.{IsLine, utf8_of};
ghost use Rattle.kte_text.specs.Utf8.{width};

use crate::line::is_high_surrogate;
use std::alloc::{AllocError, Global};

/// Returns a line in UTF-8.
pub fn to_utf8(alloc: Global, units: &[u16]) -> Result<String, AllocError>
    requires { IsLine units.now }
    ensures { IfOk result (λ text. string_bytes text ≡ utf8_of units.now) }
{
    String::from_utf16_lossy(alloc, units)
}

/// Appends a line in UTF-8. If out of memory, `out` is unchanged.
pub fn push_utf8(units: &[u16], out: &mut Vec<u8>) -> Result<(), AllocError>
    requires { IsLine units.now }
    ensures ok { OnOk result (out.new.items ≡ out.old.items ++ utf8_of units.now) }
    ensures err { OnErr result (out.new.items ≡ out.old.items) }
{
    let start = out.len();
    let end = start.saturating_add(utf8_len(units));
    out.resize(end, 0)?;
    write_utf8(units, &mut out[start..]);
    Ok(())
}

/// Returns the length in bytes of a line in UTF-8.
pub(crate) fn utf8_len(units: &[u16]) -> usize
    requires { IsLine units.now }
    ensures { result ≡ length (utf8_of units.now) }
{
    let mut length = 0;
    for unit in units {
        length += width(*unit);
    }
    length
}

// Each of the two units of a pair counts for half of the pair's four bytes.
fn width(unit: u16) -> usize
    ensures { result ≡ width unit }
{
    if unit < 0x80 {
        1
    } else if unit < 0x800 || (0xD800 <= unit && unit < 0xE000) {
        2
    } else {
        3
    }
}

/// Writes a line in UTF-8 over `room`, which has just this length.
pub(crate) fn write_utf8(units: &[u16], room: &mut [u8])
    requires line { IsLine units.now }
    requires fits { length room.old ≡ length (utf8_of units.now) }
    ensures { room.new ≡ utf8_of units.now }
{
    if room.len() == units.len() {
        write_ascii(units, room);
    } else {
        write_chars(units, room);
    }
}

fn write_ascii(units: &[u16], room: &mut [u8])
    requires ascii { All (λ unit. unit < 128) units.now }
    requires fits { length room.old ≡ length units.now }
    ensures { room.new ≡ units.now }
{
    for n in 0..units.len() {
        room[n] = units[n] as u8;
    }
}

fn write_chars(units: &[u16], room: &mut [u8])
    requires line { IsLine units.now }
    requires fits { length room.old ≡ length (utf8_of units.now) }
    ensures { room.new ≡ utf8_of units.now }
{
    let mut next = 0;
    let mut at = 0;
    while next < units.len() {
        let (code, after) = char_at(units, next);
        at = write_char(code, room, at);
        next = after;
    }
}

// The character whose units begin at `n`, and where the next one begins.
fn char_at(units: &[u16], n: usize) -> (u32, usize)
    requires there { n < length units.now }
    requires paired { has_unpaired_surrogate (drop n units.now) ≡ false }
    ensures progress { n < result.1 }
    ensures within { result.1 ≤ length units.now }
    ensures first { utf16_lossy_chars (drop n units.now) ≡ result.0 ∷ utf16_lossy_chars
        (drop result.1 units.now) }
    ensures rest { has_unpaired_surrogate (drop result.1 units.now) ≡ false }
    ensures small { result.0 < 0x11_0000 }
{
    let unit = units[n] as u32;
    if is_high_surrogate(units[n]) {
        let low = units[n + 1] as u32;
        return (0x1_0000 + (unit - 0xD800) * 0x400 + (low - 0xDC00), n + 2);
    }
    (unit, n + 1)
}

// Writes a character at `at`, and returns where it ends.
#[tactic(auto, using(crate::proofs::Utf8Lemmas::two_bytes, crate::proofs::Utf8Lemmas::three_bytes, crate::proofs::Utf8Lemmas::four_bytes))]
fn write_char(code: u32, room: &mut [u8], at: usize) -> usize
    requires small { code < 0x11_0000 }
    requires fits { at + length (encode_utf8 code) ≤ length room.old }
    ensures end { result ≡ at + length (encode_utf8 code) }
    ensures written { take result room.new ≡ take at room.old ++ encode_utf8 code }
    ensures same_len { length room.new ≡ length room.old }
{
    if code < 0x80 {
        room[at] = code as u8;
        return at + 1;
    }
    if code < 0x800 {
        room[at] = (0xC0 + code / 0x40) as u8;
        room[at + 1] = continuation(code);
        return at + 2;
    }
    if code < 0x1_0000 {
        room[at] = (0xE0 + code / 0x1000) as u8;
        room[at + 1] = continuation(code / 0x40);
        room[at + 2] = continuation(code);
        return at + 3;
    }
    room[at] = (0xF0 + code / 0x4_0000) as u8;
    room[at + 1] = continuation(code / 0x1000);
    room[at + 2] = continuation(code / 0x40);
    room[at + 3] = continuation(code);
    at + 4
}

fn continuation(bits: u32) -> u8
    ensures { result ≡ 0x80 + bits % 0x40 }
{
    (0x80 + bits % 0x40) as u8
}
