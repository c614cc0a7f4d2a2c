//! The calls of the disk that a save makes, in their two orders.
ghost use Rattle.std.specs.Prelude.{◌≡◌, [], ◌∷◌, IfSome};
ghost use Rattle.kte_causes.specs.DiskFaults.{total};
ghost use Rattle.kte_causes.specs.Moments.{AddsMoments, latest};
ghost use Rattle.kte_swap.specs.Saving.{Makes, CountsSave, replaces, resets, SumsFaults};

use crate::causes::SaveFault;
use kte_causes::{Disk, DiskFail};

// Replaces the saved file, and then empties the swap file.
pub(crate) fn replace_then_reset<D: Disk>(disk: &mut D, bytes: &[u8]) -> Result<(), SaveFault>
    ensures moments { AddsMoments (Makes bytes.now (replaces ∷ resets ∷ []) result)
        (D.moments disk.old) (D.moments disk.new) }
    ensures faults { CountsSave result (D.faults disk.old) (D.faults disk.new) }
    ensures summed { SumsFaults (D.moments disk.old) (D.faults disk.old)
        → SumsFaults (D.moments disk.new) (D.faults disk.new) }
{
    replace(disk, bytes)?;
    reset(disk)
}

// Empties the swap file, and then replaces the saved file.
pub(crate) fn reset_then_replace<D: Disk>(disk: &mut D, bytes: &[u8]) -> Result<(), SaveFault>
    ensures moments { AddsMoments (Makes bytes.now (resets ∷ replaces ∷ []) result)
        (D.moments disk.old) (D.moments disk.new) }
    ensures faults { CountsSave result (D.faults disk.old) (D.faults disk.new) }
    ensures summed { SumsFaults (D.moments disk.old) (D.faults disk.old)
        → SumsFaults (D.moments disk.new) (D.faults disk.new) }
{
    reset(disk)?;
    replace(disk, bytes)
}

fn replace<D: Disk>(disk: &mut D, bytes: &[u8]) -> Result<(), SaveFault>
    ensures moments { AddsMoments (Makes bytes.now (replaces ∷ []) result)
        (D.moments disk.old) (D.moments disk.new) }
    ensures faults { CountsSave result (D.faults disk.old) (D.faults disk.new) }
    ensures summed { SumsFaults (D.moments disk.new) (D.faults disk.new) }
{
    match disk.replace(bytes) {
        Ok(()) => Ok(()),
        Err(DiskFail::Failed) => Err(SaveFault::Replace),
        Err(DiskFail::NoMemory) => Err(SaveFault::NoMemory),
    }
}

fn reset<D: Disk>(disk: &mut D) -> Result<(), SaveFault>
    ensures moments { AddsMoments (Makes [] (resets ∷ []) result)
        (D.moments disk.old) (D.moments disk.new) }
    ensures faults { CountsSave result (D.faults disk.old) (D.faults disk.new) }
    ensures summed { SumsFaults (D.moments disk.new) (D.faults disk.new) }
{
    match disk.reset() {
        Ok(()) => Ok(()),
        Err(DiskFail::Failed) => Err(SaveFault::Reset),
        Err(DiskFail::NoMemory) => Err(SaveFault::NoMemory),
    }
}
