//! Strings.
ghost use Rattle.std.specs.Prelude.{◌≡◌, ◌∷◌, ◌<◌, ◌≤◌, length, IfOk, IfErr, IfSome, MatchOption, Some, None, not};
ghost use Rattle.std.specs.List.{position, position_or_len};
ghost use Rattle.kte_text.specs.declared.TheConstants.{MAX_SIZE};
ghost use Rattle.kte_script.specs.declared.fault.ReadError.TheVariants.{NoMemory};
ghost use Rattle.kte_script.specs.Strings.{Plain, Escape, Code, is_plain, hex_value, string_from, line_in, text_in, pattern_in};
ghost use Rattle.kte_script.specs.Quotation.{Takes, StartsOtherwise};

use crate::ends::split_end;
use crate::fault::ReadError;
use kte_text::{Line, LineFault, Lines, MAX_SIZE, Text};
use std::alloc::Global;

/// Returns the text of a string without escapes: the lines between its LFs, if each is one, and
/// they are not too large for a text.
pub(crate) fn text_of(alloc: Global, bytes: &[u8]) -> Result<Option<Text>, ReadError>
    ensures text { IfOk result (λ text. text ≡ text_in bytes.now) }
    ensures memory { IfErr result (λ error. error ≡ NoMemory) }
{
    let (first, mut more) = split_end(bytes);
    let Some(line) = line_of(alloc, first)? else {
        return Ok(None);
    };
    if line.len() > MAX_SIZE {
        return Ok(None);
    }
    let mut text = Text::of(alloc, line)?;
    'lines: loop {
        let Some(rest) = more else {
            return Ok(Some(text));
        };
        let (part, after) = split_end(rest);
        let Some(line) = line_of(alloc, part)? else {
            return Ok(None);
        };
        if text.size() + line.len() >= MAX_SIZE {
            return Ok(None);
        }
        text.push(line)?;
        more = after;
    }
}

/// Returns the line of a string without escapes, if it is one and not empty.
#[tactic(auto, unfolding(crate::specs::Strings::pattern_in))]
pub(crate) fn pattern_of(alloc: Global, bytes: &[u8]) -> Result<Option<Line>, ReadError>
    ensures line { IfOk result (λ line. line ≡ pattern_in bytes.now) }
    ensures memory { IfErr result (λ error. error ≡ NoMemory) }
{
    match line_of(alloc, bytes)? {
        Some(line) if !line.is_empty() => Ok(Some(line)),
        _ => Ok(None),
    }
}

/// Returns the line that bytes are, if they are UTF-8 and no line end is among them.
#[tactic(auto, unfolding(crate::specs::Strings::line_in))]
fn line_of(alloc: Global, text: &[u8]) -> Result<Option<Line>, ReadError>
    ensures line { IfOk result (λ line. line ≡ line_in text.now) }
    ensures memory { IfErr result (λ error. error ≡ NoMemory) }
{
    let Ok(text) = simdutf8::basic::from_utf8(text) else {
        return Ok(None);
    };
    match Line::from_utf8(alloc, text) {
        Ok(line) => {
            let _units = line.units();
            Ok(Some(line))
        }
        Err(LineFault::HasEnd { .. }) => Ok(None),
        Err(LineFault::NoMemory) => Err(ReadError::NoMemory),
    }
}

/// Returns the text of a string without escapes and the bytes after its closing mark. Its opening
/// mark stands before `bytes`.
pub(crate) fn plain_string(bytes: &[u8]) -> Option<(&[u8], &[u8])>
    ensures value { IfSome result (λ found. string_from Plain bytes.now
        ≡ Some (record { text = found.0.now; rest = found.1.now })) }
    ensures within { IfSome result (λ found. length found.0.now ≤ length bytes.now) }
{
    let (text, rest) = bytes.split_at(plain_len(bytes));
    let after = closing(rest)?;
    Some((text, after))
}

/// Returns the text of a string, its escapes replaced, and the bytes after its closing mark. Its
/// opening mark stands before `bytes`.
pub(crate) fn string(alloc: Global, bytes: &[u8]) -> Result<Option<(Vec<u8>, &[u8])>, ReadError>
    ensures value { IfOk result (λ found. MatchOption found (string_from Plain bytes.now ≡ None)
        (λ found. string_from Plain bytes.now
        ≡ Some (record { text = found.0.items; rest = found.1.now }))) }
    ensures within { IfOk result (λ found. IfSome found (λ found.
        length found.0.items ≤ length bytes.now)) }
    ensures memory { IfErr result (λ error. error ≡ NoMemory) }
{
    let mut text = Vec::new(alloc);
    let mut rest = bytes;
    'bytes: loop {
        if let Some(after) = closing(rest) {
            return Ok(Some((text, after)));
        }
        let Some((byte, after)) = next(rest) else {
            return Ok(None);
        };
        text.push(byte)?;
        rest = after;
    }
}

/// Returns the number of bytes in front that stand for themselves.
fn plain_len(bytes: &[u8]) -> usize
    ensures count { result ≡ position_or_len (λ byte. not (is_plain byte)) bytes.now }
    ensures within { result ≤ length bytes.now }
{
    first_special(bytes).unwrap_or(bytes.len())
}

/// Returns the index of the first byte that does not stand for itself.
fn first_special(bytes: &[u8]) -> Option<usize>
    ensures { result ≡ position (λ byte. not (is_plain byte)) bytes.now }
{
    bytes.iter().position(|byte| !is_plain(*byte))
}

fn is_plain(byte: u8) -> bool
    ensures { result ≡ is_plain byte }
{
    (byte >= 32 || byte == b'\t') && byte != b'"' && byte != b'\\'
}

/// Returns the bytes after the closing mark, if it is in front.
fn closing(bytes: &[u8]) -> Option<&[u8]>
    ensures { MatchOption result (StartsOtherwise bytes.now) (λ rest. bytes.now ≡ 34 ∷ rest.now) }
{
    match bytes {
        [b'"', rest @ ..] => Some(rest),
        _ => None,
    }
}

/// Returns the byte that is spelled in front and the bytes after its spelling.
#[tactic(auto, unfolding(crate::specs::Strings::string_from))]
fn next(bytes: &[u8]) -> Option<(u8, &[u8])>
    requires { StartsOtherwise bytes.now }
    ensures { MatchOption result (string_from Plain bytes.now ≡ None)
        (λ found. Takes Plain bytes.now found.0 found.1.now) }
{
    match bytes {
        [b'\\', rest @ ..] => escaped(rest),
        [byte, rest @ ..] if is_plain(*byte) => Some((*byte, rest)),
        _ => None,
    }
}

/// Returns the byte that an escape spells, whose backslash stands before `bytes`.
#[tactic(auto, unfolding(crate::specs::Strings::string_from))]
fn escaped(bytes: &[u8]) -> Option<(u8, &[u8])>
    ensures { MatchOption result (string_from Escape bytes.now ≡ None)
        (λ found. Takes Escape bytes.now found.0 found.1.now) }
{
    match bytes {
        [b'n', rest @ ..] => Some((b'\n', rest)),
        [b't', rest @ ..] => Some((b'\t', rest)),
        [b'\\', rest @ ..] => Some((b'\\', rest)),
        [b'"', rest @ ..] => Some((b'"', rest)),
        [b'x', rest @ ..] => coded(rest),
        _ => None,
    }
}

/// Returns the control character of this code, before which `\x` stands.
#[tactic(auto, unfolding(crate::specs::Strings::string_from))]
fn coded(bytes: &[u8]) -> Option<(u8, &[u8])>
    ensures { MatchOption result (string_from Code bytes.now ≡ None)
        (λ found. Takes Code bytes.now found.0 found.1.now) }
{
    let [high, low, rest @ ..] = bytes else {
        return None;
    };
    let byte = hex_value(*high)? * 16 + hex_value(*low)?;
    if byte < 32 && byte != b'\n' && byte != b'\r' {
        Some((byte, rest))
    } else {
        None
    }
}

/// Returns the value of a lower-case hexadecimal digit.
fn hex_value(byte: u8) -> Option<u8>
    ensures value { result ≡ hex_value byte }
    ensures small { IfSome result (λ value. value < 16) }
{
    match byte {
        b'0'..=b'9' => Some(byte - b'0'),
        b'a'..=b'f' => Some(byte - b'a' + 10),
        _ => None,
    }
}
