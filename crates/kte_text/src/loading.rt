ghost use Rattle.std.specs.Prelude.{◌≡◌, ◌≢◌, ◌≤◌, ◌↔◌, length, nat_eq, IfOk, IfErr, OnOk, Err, IsUtf8};
ghost use Rattle.std.specs.List.{starts_with};
ghost use Rattle.kte_text.specs.declared.TheConstants.{MAX_FILE_LENGTH, MAX_SIZE};
ghost use Rattle.kte_text.specs.declared.loading.LoadFault.{LoadFault};
ghost use Rattle.kte_text.specs.declared.loading.LoadFault.TheVariants as fault;
ghost use Rattle.kte_text.specs.Files.{mark_bytes, Loads, Refuses};
ghost use Rattle.kte_text.specs.Reading.{file_size, mark_len};
ghost use Rattle.kte_text.specs.Texts.{size_of};

use crate::reading::{first_end, lines_of, text_size};
use crate::text::Text;
use crate::{MAX_FILE_LENGTH, MAX_SIZE};
use std::alloc::{AllocError, AllocFailed, Global};
use thiserror::Error;

/// How lines end in a file.
#[derive(Clone, Copy, Debug, PartialEq, Eq)]
pub enum Eol {
    /// Byte 10.
    Lf,
    /// Bytes 13 and 10.
    CrLf,
    /// Byte 13.
    Cr,
}

/// A loaded file.
#[derive(Debug, Drop)]
pub struct Loaded {
    /// Its text.
    pub text: Text,
    /// How its first line ends; LF if there is one line only.
    pub eol: Eol,
    /// Whether it begins with a byte order mark, which is no part of the text.
    pub bom: bool,
}

/// Why a file is not loaded.
#[derive(Clone, Copy, Debug, PartialEq, Eq, Drop, Error)]
pub enum LoadFault {
    /// It has more than `MAX_FILE_LENGTH` bytes.
    #[error("file too long")]
    LongFile,
    /// It is not UTF-8; `at` is the length of its longest prefix that is, in bytes.
    #[error("file is not UTF-8 at byte {at}")]
    NotUtf8 { at: u64 },
    /// Its text would have this size, which is more than `MAX_SIZE`.
    #[error("text too large: {size}")]
    TooLarge { size: u64 },
    /// Out of memory.
    #[error("out of memory")]
    NoMemory,
}

impl From<AllocError> for LoadFault {
    ghost from_gives = { λ _ given. given ≡ fault.NoMemory };

    fn from(_error: AllocError) -> LoadFault {
        LoadFault::NoMemory
    }
}

impl<T: Drop> From<AllocFailed<T>> for LoadFault {
    ghost from_gives = { λ _ given. given ≡ fault.NoMemory };

    fn from(_error: AllocFailed<T>) -> LoadFault {
        LoadFault::NoMemory
    }
}

/// Loads a file. The bytes EF BB BF in front are the byte order mark, and the rest must be UTF-8.
/// CR LF, LF and a lone CR each end a line; the text after the last end, possibly empty, is the
/// last line, as in KTextEditor's Document. Other line separators, as U+2028, are ordinary
/// characters. A file is refused for the first of the faults, in their order.
pub fn load(alloc: Global, bytes: &[u8]) -> Result<Loaded, LoadFault>
    ensures loaded { IfOk result (Loads bytes.now) }
    ensures small { IfOk result (λ loaded. size_of loaded.text ≤ MAX_SIZE) }
    ensures short { OnOk result (length bytes.now ≤ MAX_FILE_LENGTH) }
    ensures refused { (given : LoadFault) → given ≢ fault.NoMemory
        → (result ≡ Err given) ↔ Refuses bytes.now given }
{
    let file = judged(bytes)?;
    let bom = has_mark(bytes);
    let text = &file[mark_len(bytes)..];
    Ok(Loaded {
        text: Text::of_lines(lines_of(alloc, text)?),
        eol: first_end(text),
        bom,
    })
}

// The whole file as a text, unless it is refused.
fn judged(bytes: &[u8]) -> Result<&str, LoadFault>
    ensures text { IfOk result (λ text. text.now ≡ bytes.now) }
    ensures utf8 { OnOk result (IsUtf8 bytes.now) }
    ensures short { OnOk result (length bytes.now ≤ MAX_FILE_LENGTH) }
    ensures small { OnOk result (file_size bytes.now ≤ MAX_SIZE) }
    ensures refused { IfErr result (Refuses bytes.now) }
{
    if bytes.len() as u64 > MAX_FILE_LENGTH {
        return Err(LoadFault::LongFile);
    }
    let text = match simdutf8::compat::from_utf8(bytes) {
        Ok(text) => text,
        Err(error) => {
            let at = error.valid_up_to() as u64;
            return Err(LoadFault::NotUtf8 { at });
        }
    };
    let rest = &bytes[mark_len(bytes)..];
    // A text is no larger than its bytes, so that the size of most is not counted.
    if rest.len() as u64 > MAX_SIZE {
        let size = text_size(rest);
        if size > MAX_SIZE {
            return Err(LoadFault::TooLarge { size });
        }
    }
    Ok(text)
}

fn has_mark(bytes: &[u8]) -> bool
    ensures { result ≡ starts_with nat_eq bytes.now mark_bytes }
{
    bytes.starts_with(b"\xEF\xBB\xBF")
}

fn mark_len(bytes: &[u8]) -> usize
    ensures len { result ≡ mark_len bytes.now }
    ensures within { result ≤ length bytes.now }
{
    if has_mark(bytes) { 3 } else { 0 }
}
