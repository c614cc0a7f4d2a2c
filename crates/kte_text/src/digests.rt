//! The digest of a file.
ghost use Rattle.std.specs.Prelude.{◌≡◌, IfOk};
ghost use Rattle.std.specs.String.{string_bytes};
ghost use Rattle.hex.specs.Hex.{encode_lower};

use std::alloc::{AllocError, Global};

/// The digest of a file: the name that git gives to a blob of its bytes, SHA-1 of `blob `, the
/// length in decimal, a zero byte and the bytes.
#[derive(Clone, Copy, Debug, PartialEq, Eq)]
pub struct Digest(pub [u8; 20]);

impl Digest {
    /// Returns the 40 lower-case hexadecimal digits.
    pub fn hex(&self, alloc: Global) -> Result<String, AllocError>
        ensures { IfOk result (λ text. string_bytes text ≡ encode_lower self.now.0) }
    {
        hex::encode(alloc, self.0)
    }
}
