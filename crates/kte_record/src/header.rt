ghost use Rattle.std.specs.Prelude.{◌≡◌, ◌<◌, length, ◌++◌, ◌↔◌, IsTrue, OnOk, OnErr};
ghost use Rattle.kte_record.specs.Grammar.{header, HasHeader, HasVersion};
ghost use Rattle.kte_record.specs.declared.header.TheConstants.{HEADER_LENGTH};
ghost use Rattle.kte_record.specs.declared.header.Header.TheVariants as Header;

use kte_text::Digest;
use std::alloc::AllocError;

// The length of the version's name, the name, and the length of a digest.
const VERSION: [u8; 26] = *b"\0\0\0\x12Kate Swap File 2.0\0\0\0\x14";

/// The length of the header, in bytes.
pub const HEADER_LENGTH: usize = 46;

/// What a swap file begins with.
#[derive(Clone, Copy, Debug, PartialEq, Eq)]
pub enum Header {
    /// The header, of 46 bytes, with the digest of the saved file.
    Got { kept: Digest },
    /// The front of a header, possibly without any byte. The rest is missing.
    Part,
    /// Another version, or something else.
    Version,
}

/// Appends the header. If out of memory, the bytes are unchanged.
pub fn write_header(kept: &Digest, out: &mut Vec<u8>) -> Result<(), AllocError>
    ensures ok { OnOk result (out.new.items ≡ out.old.items ++ header kept.now.0) }
    ensures err { OnErr result (out.new.items ≡ out.old.items) }
{
    out.try_reserve(VERSION.len() + kept.0.len())?;
    out.extend_from_slice(&VERSION).unwrap();
    out.extend_from_slice(&kept.0).unwrap();
    Ok(())
}

/// Reads the header with which the bytes begin. Takes no memory.
pub fn read_header(bytes: &[u8]) -> Header
    ensures got { (kept : _) → (result ≡ Header.Got kept) ↔ HasHeader bytes.now kept.0 }
    ensures part { (result ≡ Header.Part)
        ↔ (HasVersion bytes.now × (length bytes.now < HEADER_LENGTH)) }
    ensures version { (result ≡ Header.Version) ↔ ¬ (HasVersion bytes.now) }
{
    if !has_version(bytes) {
        return Header::Version;
    }
    if bytes.len() < HEADER_LENGTH {
        return Header::Part;
    }
    let mut kept = [0; 20];
    kept.copy_from_slice(&bytes[VERSION.len()..HEADER_LENGTH]);
    Header::Got { kept: Digest(kept) }
}

// Whether the bytes begin with the version, or end within it.
fn has_version(bytes: &[u8]) -> bool
    ensures { IsTrue result ↔ HasVersion bytes.now }
{
    let count = bytes.len().min(VERSION.len());
    bytes[..count] == VERSION[..count]
}
