ghost use Rattle.std.specs.Prelude.{◌≡◌, ◌≢◌, ◌⊎◌, ◌<◌, [], true, false, Err, IfOk, IfErr, IfSome, IsErrOf, OnOk};
ghost use Rattle.kte_causes.specs.Faults.{Rose};
ghost use Rattle.kte_causes.specs.DiskFaults.{AllStay};
ghost use Rattle.kte_causes.specs.Moments.{AddsMoments, Staying, swap_now};
ghost use Rattle.kte_causes.specs.declared.causes.DiskCall.TheVariants.{SwapAt, SwapLen};
ghost use Rattle.kte_text.specs.Files.{Loads};
ghost use Rattle.kte_run.specs.Run.{DiskRose, IsLoadable, outer};
ghost use Rattle.kte_run.specs.Recover.{IfBoth, IsRecovery, Shows, Tells, has_text, is_answer};
ghost use Rattle.kte_run.specs.Statuses.{is_of_length, is_unread, is_unwritten};

use crate::saved::{DiskFile, length_of, load_saved, read_file};
use crate::status::Status;
use kte_causes::{Disk, Sink, write_whole};
use kte_recover::{RecoverFault, recover_loaded};
use kte_report::{push_damaged, push_recovered};
use kte_text::Loaded;
use std::alloc::Global;

/// Recovers the text of the disk's saved file and the swap file beside it, and writes it to the
/// sink: how many transactions count, how the records end, the digest and the text. The disk's
/// files stay as they are.
///
/// The swap file's length is judged first, then the saved file, then the swap file. A damaged swap
/// file has a text too, and its status comes after the text is written.
pub fn recover_file<D: Disk, O: Sink>(alloc: Global, disk: &mut D, out: &mut O) -> Status
    ensures { IsRecovery
        (outer (D.moments disk.old) (D.faults disk.old))
        (outer (D.moments disk.new) (D.faults disk.new))
        (O.got out.old) (O.got out.new) (O.faults out.old) (O.faults out.new)
        (out.new ≡ out.old) result }
{
    let (status, output) = match recovered(alloc, disk) {
        Ok(shown) => shown,
        Err(status) => return status,
    };
    match write_whole(out, &output) {
        Ok(()) => status,
        Err(fail) => Status::from(fail),
    }
}

/// Returns what is written for the two files of the disk, and the status after it. Fails if there
/// is no text, with the status that says why.
fn recovered<D: Disk>(alloc: Global, disk: &mut D) -> Result<(Status, Vec<u8>), Status>
    ensures shown { IfOk result (λ shown. (has_text shown.0 ≡ true)
        × AllStay (D.faults disk.old) (D.faults disk.new)
        × IfBoth (D.moments disk.old) (λ saved swap. Shows saved swap shown.0 shown.1.items)) }
    ensures told { IfErr result (λ status. is_answer status ≡ true → (has_text status ≡ false)
        × AllStay (D.faults disk.old) (D.faults disk.new)
        × IfBoth (D.moments disk.old) (λ saved swap. Tells saved swap status)) }
    ensures failed { IsErrOf result Status.DiskFault
        → DiskRose (D.faults disk.old) (D.faults disk.new)
        ⊎ Rose (D.faults disk.old SwapAt) (D.faults disk.new SwapAt) }
    ensures failed_comes { (call : _) → D.faults disk.old call < D.faults disk.new call
        → result ≡ Err Status.DiskFault }
    ensures only { IfErr result (λ status. is_unwritten status ≡ true) }
    ensures files { AddsMoments Staying (D.moments disk.old) (D.moments disk.new) }
{
    check_swap(disk)?;
    let (saved, loaded) = load_saved(alloc, disk)?;
    recovered_beside(alloc, disk, &saved, loaded)
}

/// Fails if there is no swap file, or an empty one.
fn check_swap<D: Disk>(disk: &mut D) -> Result<(), Status>
    ensures some { OnOk result (IfSome (swap_now (D.moments disk.old)) (λ swap. swap ≢ [])) }
    ensures calm { OnOk result (AllStay (D.faults disk.old) (D.faults disk.new)) }
    ensures empty { IsErrOf result Status.NoSwap → AllStay (D.faults disk.old) (D.faults disk.new)
        × IfSome (swap_now (D.moments disk.old)) (λ swap. swap ≡ []) }
    ensures only { IfErr result (λ status. is_of_length status ≡ true) }
    ensures failed { IsErrOf result Status.DiskFault
        → Rose (D.faults disk.old SwapLen) (D.faults disk.new SwapLen) }
    ensures failed_comes { (call : _) → D.faults disk.old call < D.faults disk.new call
        → result ≡ Err Status.DiskFault }
    ensures files { AddsMoments Staying (D.moments disk.old) (D.moments disk.new) }
{
    if length_of(disk, DiskFile::Swap)? == 0 {
        return Err(Status::NoSwap);
    }
    Ok(())
}

/// Reads the swap file, and returns what is written for it beside a saved file, which is loaded,
/// and the status after it. Fails if there is no text, with the status that says why.
fn recovered_beside<D: Disk>(
    alloc: Global,
    disk: &mut D,
    saved: &[u8],
    loaded: Loaded,
) -> Result<(Status, Vec<u8>), Status>
    requires loads { Loads saved.now loaded }
    requires allowed { IsLoadable saved.now }
    ensures shown { IfOk result (λ shown. (has_text shown.0 ≡ true)
        × AllStay (D.faults disk.old) (D.faults disk.new)
        × IfSome (swap_now (D.moments disk.old)) (λ swap.
        Shows saved.now swap shown.0 shown.1.items)) }
    ensures told { IfErr result (λ status. is_answer status ≡ true → (has_text status ≡ false)
        × AllStay (D.faults disk.old) (D.faults disk.new)
        × IfSome (swap_now (D.moments disk.old)) (λ swap. Tells saved.now swap status)) }
    ensures failed { IsErrOf result Status.DiskFault
        → Rose (D.faults disk.old SwapLen) (D.faults disk.new SwapLen)
        ⊎ Rose (D.faults disk.old SwapAt) (D.faults disk.new SwapAt) }
    ensures failed_comes { (call : _) → D.faults disk.old call < D.faults disk.new call
        → result ≡ Err Status.DiskFault }
    ensures only { IfErr result (λ status. is_unwritten status ≡ true) }
    ensures files { AddsMoments Staying (D.moments disk.old) (D.moments disk.new) }
{
    let size = length_of(disk, DiskFile::Swap)?;
    let swap = read_file(alloc, disk, DiskFile::Swap, size)?;
    shown(alloc, saved, loaded, &swap)
}

/// Returns what is written for a saved file, which is loaded, and a swap file, and the status after
/// it. Fails if there is no text, with the status that says why.
fn shown(
    alloc: Global,
    saved: &[u8],
    loaded: Loaded,
    swap: &[u8],
) -> Result<(Status, Vec<u8>), Status>
    requires loads { Loads saved.now loaded }
    requires allowed { IsLoadable saved.now }
    ensures shown { IfOk result (λ shown. (has_text shown.0 ≡ true)
        × Shows saved.now swap.now shown.0 shown.1.items) }
    ensures told { IfErr result (λ status. status ≢ Status.NoMemory
        → (has_text status ≡ false) × Tells saved.now swap.now status) }
    ensures only { IfErr result (λ status. is_unread status ≡ true) }
{
    if swap.is_empty() {
        return Err(Status::NoSwap);
    }
    let mut output = Vec::new(alloc);
    match recover_loaded(alloc, saved, loaded, swap) {
        Ok(found) => {
            push_recovered(&found, &mut output)?;
            Ok((Status::Ok, output))
        }
        Err(RecoverFault::Damaged(damage)) => {
            push_damaged(&damage, &mut output)?;
            let (at, done) = (damage.at, damage.done);
            Ok((Status::Damaged { at, done }, output))
        }
        Err(RecoverFault::NoSwap) => Err(Status::NoSwap),
        Err(RecoverFault::Load(fault)) => Err(Status::from(fault)),
        Err(RecoverFault::Version) => Err(Status::Version),
        Err(RecoverFault::FileChanged { kept, found }) => Err(Status::FileChanged { kept, found }),
        Err(RecoverFault::NoMemory) => Err(Status::NoMemory),
    }
}
