//! What an I/O error of the system means.
ghost use Rattle.std.specs.Prelude.{◌≡◌, ◌↔◌};
ghost use Rattle.std.specs.IoError.{error_kind};
ghost use Rattle.std.specs.declared.io.ErrorKind.TheVariants.{OutOfMemory};
ghost use Rattle.kte_causes.specs.declared.io_fault.IoFault.TheVariants as io_fault;

use std::alloc::AllocError;
use std::io;
use std::io::ErrorKind;

/// Why a call on the system failed.
#[derive(Clone, Copy, PartialEq, Eq)]
pub(crate) enum IoFault {
    /// The stream or the file failed.
    Failed,
    /// Out of memory.
    NoMemory,
}

impl From<io::Error> for IoFault {
    ghost from_gives = { λ error fault.
        (fault ≡ io_fault.NoMemory) ↔ (error_kind error ≡ OutOfMemory) };

    fn from(error: io::Error) -> Self {
        if error.kind() == ErrorKind::OutOfMemory {
            IoFault::NoMemory
        } else {
            IoFault::Failed
        }
    }
}

impl From<AllocError> for IoFault {
    ghost from_gives = { λ _ fault. fault ≡ io_fault.NoMemory };

    fn from(_: AllocError) -> Self {
        IoFault::NoMemory
    }
}
