//! Writing a text as a file.
ghost use Rattle.std.specs.Prelude.{◌≡◌, ◌||◌, if◌then◌else◌, [], nat_eq, slice_index, length, IfOk};
ghost use Rattle.kte_text.specs.Files.{end_bytes, mark_bytes};
ghost use Rattle.kte_text.specs.Saving.{bytes_of};

use crate::lines::Lines;
use crate::loading::Eol;
use crate::utf8::{push_utf8, utf8_len};
use std::alloc::{AllocError, Global};

/// Returns the file of a text: its lines in UTF-8, joined by the line end, after the byte order
/// mark where `bom` holds or the first unit of the first line is U+FEFF. What is saved loads as the
/// same text.
pub fn save<L: Lines>(alloc: Global, lines: &L, eol: Eol, bom: bool) -> Result<Vec<u8>, AllocError>
    ensures { IfOk result (λ bytes. bytes.items ≡ bytes_of (L.text lines.now) eol bom) }
{
    let count = lines.lines();
    let first = lines.line(0);
    let mut bytes = Vec::with_capacity(alloc, saved_len(lines, eol, bom) as usize)?;
    bytes.extend_from_slice(mark_bytes(first, bom))?;
    push_utf8(first, &mut bytes)?;
    for n in 1..count {
        bytes.extend_from_slice(end_bytes(eol))?;
        push_utf8(lines.line(n), &mut bytes)?;
    }
    Ok(bytes)
}

/// Returns the length in bytes of what `save` returns.
pub(crate) fn saved_len<L: Lines>(lines: &L, eol: Eol, bom: bool) -> u64
    ensures { result ≡ length (bytes_of (L.text lines.now) eol bom) }
{
    let count = lines.lines();
    let first = lines.line(0);
    let end = end_bytes(eol).len();
    let mut length = mark_bytes(first, bom).len() + utf8_len(first);
    for n in 1..count {
        length += end + utf8_len(lines.line(n));
    }
    length as u64
}

/// Returns the byte order mark where it is written before a text of this first line, and else
/// nothing.
pub(crate) fn mark_bytes(first: &[u16], bom: bool) -> &'static [u8]
    ensures { result.now ≡ (if bom || nat_eq (slice_index first.now 0) 0xFEFF then mark_bytes
        else []) }
{
    if bom || (!first.is_empty() && first[0] == 0xFEFF) {
        return &[0xEF, 0xBB, 0xBF];
    }
    &[]
}

/// Returns the bytes of a line end.
pub(crate) fn end_bytes(eol: Eol) -> &'static [u8]
    ensures { result.now ≡ end_bytes eol }
{
    match eol {
        Eol::Lf => b"\n",
        Eol::CrLf => b"\r\n",
        Eol::Cr => b"\r",
    }
}
