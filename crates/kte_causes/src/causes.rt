//! Why a call on the outside failed, and the calls of a disk.
ghost use Rattle.kte_causes.specs.declared.causes.ReadFault.TheVariants as read_fault;
ghost use Rattle.kte_causes.specs.declared.causes.SinkFail.TheVariants as sink_fail;
ghost use Rattle.kte_causes.specs.declared.causes.DiskFail.TheVariants as disk_fail;
ghost use Rattle.std.specs.Prelude.{◌≡◌};

use std::alloc::AllocError;
use thiserror::Error;

/// Why a read took nothing.
#[derive(Clone, Copy, Debug, PartialEq, Eq, Hash, Error)]
pub enum SourceFail {
    /// The source failed, and counted it.
    #[error("the source failed")]
    Failed,
}

/// Why a write took nothing.
#[derive(Clone, Copy, Debug, PartialEq, Eq, Hash, Error)]
pub enum SinkFail {
    /// The sink failed, and counted it.
    #[error("the sink failed")]
    Failed,
    /// Out of memory.
    #[error("out of memory")]
    NoMemory,
}

/// Why a call on the disk failed.
#[derive(Clone, Copy, Debug, PartialEq, Eq, Hash, Error)]
pub enum DiskFail {
    /// The disk failed, and counted it for this call. A part of the call may have taken place.
    #[error("the disk failed")]
    Failed,
    /// Out of memory. The call changed nothing.
    #[error("out of memory")]
    NoMemory,
}

/// The calls of a disk, each of which has a count of its own.
#[derive(Clone, Copy, Debug, PartialEq, Eq, Hash)]
pub enum DiskCall {
    /// The length of the saved file.
    SavedLen,
    /// Bytes of the saved file.
    SavedAt,
    /// The length of the swap file.
    SwapLen,
    /// Bytes of the swap file.
    SwapAt,
    /// Adding to the end of the swap file.
    Append,
    /// Making the swap file safe from a crash.
    Sync,
    /// Replacing the saved file.
    Replace,
    /// Emptying the swap file.
    Reset,
}

/// Why a source was not read whole.
#[derive(Clone, Copy, Debug, PartialEq, Eq, Hash, Error)]
pub enum ReadFault {
    /// A read failed, and the source counted it.
    #[error("the source failed")]
    Failed,
    /// The source had more bytes than the limit.
    #[error("more bytes than the limit")]
    TooLong,
    /// Out of memory.
    #[error("out of memory")]
    NoMemory,
}

impl From<SourceFail> for ReadFault {
    ghost from_gives = { λ _ e. e ≡ read_fault.Failed };

    fn from(_: SourceFail) -> Self {
        ReadFault::Failed
    }
}

impl From<AllocError> for ReadFault {
    ghost from_gives = { λ _ e. e ≡ read_fault.NoMemory };

    fn from(_: AllocError) -> Self {
        ReadFault::NoMemory
    }
}

impl From<AllocError> for SinkFail {
    ghost from_gives = { λ _ e. e ≡ sink_fail.NoMemory };

    fn from(_: AllocError) -> Self {
        SinkFail::NoMemory
    }
}

impl From<AllocError> for DiskFail {
    ghost from_gives = { λ _ e. e ≡ disk_fail.NoMemory };

    fn from(_: AllocError) -> Self {
        DiskFail::NoMemory
    }
}
