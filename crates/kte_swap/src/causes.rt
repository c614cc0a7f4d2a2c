use std::alloc::AllocError;
use thiserror::Error;

/// Whether the swap file can be relied on.
#[derive(Clone, Copy, Debug, PartialEq, Eq)]
pub enum SwapState {
    /// It holds every transaction since the last save.
    Guarded,
    /// A call of the disk failed, and a part of it may have taken place. Only a save ends this.
    Lost,
}

/// Why a transaction was not written, or the swap file not synced.
#[derive(Clone, Copy, Debug, PartialEq, Eq, Error)]
pub enum SwapFault {
    /// The disk failed. The swap is then lost.
    #[error("the disk failed")]
    Failed,
    /// The swap was lost before. The disk was not called.
    #[error("the swap file is lost")]
    Lost,
    /// Out of memory. Nothing changed.
    #[error("out of memory")]
    NoMemory,
}

impl From<AllocError> for SwapFault {
    ghost use Rattle.std.specs.Prelude.{◌≡◌};
    ghost use Rattle.kte_swap.specs.declared.causes.SwapFault.TheVariants as fault;

    ghost from_gives = { λ _ given. given ≡ fault.NoMemory };

    fn from(_error: AllocError) -> SwapFault {
        SwapFault::NoMemory
    }
}

/// Why a save failed: the first call of the disk that failed. Those before it took place, and those
/// after it were not made.
#[derive(Clone, Copy, Debug, PartialEq, Eq, Error)]
pub enum SaveFault {
    /// The sync of the swap file failed.
    #[error("the swap file was not synced")]
    Sync,
    /// The replacement of the saved file failed.
    #[error("the saved file was not replaced")]
    Replace,
    /// The swap file was not emptied.
    #[error("the swap file was not emptied")]
    Reset,
    /// Out of memory.
    #[error("out of memory")]
    NoMemory,
}
