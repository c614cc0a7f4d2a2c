ghost use Rattle.std.specs.Prelude.{◌≡◌, ◌≢◌, ◌<◌, ◌≤◌, ◌⊎◌, ℕ, [], ◌∷◌, length, take, true, Err, Some, IfOk, IfErr, IfSome, IsErr, IsSomeAnd, IsErrOf, OnOk, Contains};
ghost use Rattle.kte_causes.specs.Faults.{Rose};
ghost use Rattle.kte_causes.specs.declared.causes.DiskCall.TheVariants.{SwapLen};
ghost use Rattle.kte_causes.specs.DiskFaults.{AllStay, CountsDiskFault};
ghost use Rattle.kte_causes.specs.Moments.{AddsMoments, Staying, saved_now, swap_now};
ghost use Rattle.kte_text.specs.Files.{Loads, Refuses};
ghost use Rattle.kte_text.specs.declared.loading.LoadFault.TheVariants.{NoMemory};
ghost use Rattle.kte_run.specs.Files.{at_of, file_now, len_of};
ghost use Rattle.kte_run.specs.Run.{LoadRose, IsLoadable};
ghost use Rattle.kte_run.specs.Statuses.{file_status, is_of_file, is_of_swap};

use crate::status::Status;
use kte_causes::{Disk, DiskFail};
use kte_text::{LoadFault, Loaded, MAX_FILE_LENGTH, load};
use std::alloc::Global;

/// One of the two files of a disk.
#[derive(Clone, Copy)]
pub(crate) enum DiskFile {
    /// The saved file.
    Saved,
    /// The swap file beside it, which is empty if it is not there.
    Swap,
}

/// Returns the length of a file, in bytes.
pub(crate) fn length_of<D: Disk>(disk: &mut D, file: DiskFile) -> Result<u64, DiskFail>
    ensures value { IfSome (file_now file (D.moments disk.new))
        (λ bytes. IfOk result (λ n. n ≡ length bytes)) }
    ensures before { IfSome (file_now file (D.moments disk.old))
        (λ bytes. IfOk result (λ n. n ≡ length bytes)) }
    ensures files { AddsMoments Staying (D.moments disk.old) (D.moments disk.new) }
    ensures counts { CountsDiskFault (len_of file) result (D.faults disk.old)
        (D.faults disk.new) }
{
    match file {
        DiskFile::Saved => disk.saved_len(),
        DiskFile::Swap => disk.swap_len(),
    }
}

/// Returns the bytes of a file, of which there are so many.
pub(crate) fn read_file<D: Disk>(
    alloc: Global,
    disk: &mut D,
    file: DiskFile,
    size: u64,
) -> Result<Vec<u8>, DiskFail>
    requires { IfSome (file_now file (D.moments disk.old)) (λ bytes. size ≡ length bytes) }
    ensures bytes { IfOk result (λ bytes. IfSome (file_now file (D.moments disk.old))
        (λ there. bytes.items ≡ there)) }
    ensures files { AddsMoments Staying (D.moments disk.old) (D.moments disk.new) }
    ensures counts { CountsDiskFault (at_of file) result (D.faults disk.old) (D.faults disk.new) }
{
    let mut bytes = vec![in alloc; 0; size as usize]?;
    fill(disk, file, &mut bytes)?;
    Ok(bytes)
}

/// Fills `buf` with the first bytes of a file. What a call that fails leaves in `buf` is not said.
fn fill<D: Disk>(disk: &mut D, file: DiskFile, buf: &mut [u8]) -> Result<(), DiskFail>
    requires { IfSome (file_now file (D.moments disk.old)) (λ bytes.
        length buf.old ≤ length bytes) }
    ensures value { IfSome (file_now file (D.moments disk.new))
        (λ bytes. OnOk result (buf.new ≡ take (length buf.old) bytes)) }
    ensures files { AddsMoments Staying (D.moments disk.old) (D.moments disk.new) }
    ensures counts { CountsDiskFault (at_of file) result (D.faults disk.old) (D.faults disk.new) }
{
    match file {
        DiskFile::Saved => disk.saved_at(0, buf),
        DiskFile::Swap => disk.swap_at(0, buf),
    }
}

/// Reads the saved file and loads it. Returns its bytes and what is loaded. One that is too long is
/// not read.
pub(crate) fn load_saved<D: Disk>(alloc: Global, disk: &mut D) -> Result<(Vec<u8>, Loaded), Status>
    ensures bytes { IfOk result (λ saved. IfSome (saved_now (D.moments disk.old))
        (λ file. saved.0.items ≡ file)) }
    ensures loads { IfOk result (λ saved. Loads saved.0.items saved.1
        × IsLoadable saved.0.items) }
    ensures calm { OnOk result (AllStay (D.faults disk.old) (D.faults disk.new)) }
    ensures only { IfErr result (λ status. is_of_file status ≡ true) }
    ensures failed { IsErrOf result Status.DiskFault
        → LoadRose (D.faults disk.old) (D.faults disk.new) }
    ensures failed_comes { (call : _) → D.faults disk.old call < D.faults disk.new call
        → result ≡ Err Status.DiskFault }
    ensures refused { (fault : _) → fault ≢ NoMemory → IsErrOf result (file_status fault)
        → AllStay (D.faults disk.old) (D.faults disk.new)
        × IfSome (saved_now (D.moments disk.old)) (λ file. Refuses file fault) }
    ensures refused_comes { (fault : _)
        → IsSomeAnd (saved_now (D.moments disk.old)) (λ file. Refuses file fault)
        → IfErr result (λ status. (status ≡ file_status fault) ⊎ (status ≡ Status.DiskFault)
        ⊎ (status ≡ Status.NoMemory)) }
    ensures files { AddsMoments Staying (D.moments disk.old) (D.moments disk.new) }
{
    let size = length_of(disk, DiskFile::Saved)?;
    if size > MAX_FILE_LENGTH {
        return Err(Status::from(LoadFault::LongFile));
    }
    let bytes = read_file(alloc, disk, DiskFile::Saved, size)?;
    let loaded = load(alloc, &bytes)?;
    Ok((bytes, loaded))
}

/// Fails if there is a swap file that is not empty.
pub(crate) fn check_no_swap<D: Disk>(disk: &mut D) -> Result<(), Status>
    ensures empty { OnOk result (IfSome (swap_now (D.moments disk.old)) (λ swap. swap ≡ [])) }
    ensures calm { OnOk result (AllStay (D.faults disk.old) (D.faults disk.new)) }
    ensures present { (bytes : _) → IsErrOf result (Status.SwapPresent bytes)
        → AllStay (D.faults disk.old) (D.faults disk.new)
        × IfSome (swap_now (D.moments disk.old)) (λ swap. (bytes ≡ length swap) × (swap ≢ [])) }
    ensures present_comes { (swap : _) → swap_now (D.moments disk.old) ≡ Some swap → swap ≢ []
        → IfErr result (λ status. Contains
        (Status.SwapPresent (length swap) ∷ Status.DiskFault ∷ Status.NoMemory ∷ []) status)
        × IsErr result }
    ensures only { IfErr result (λ status. is_of_swap status ≡ true) }
    ensures failed { IsErrOf result Status.DiskFault
        → Rose (D.faults disk.old SwapLen) (D.faults disk.new SwapLen) }
    ensures failed_comes { (call : _) → D.faults disk.old call < D.faults disk.new call
        → result ≡ Err Status.DiskFault }
    ensures files { AddsMoments Staying (D.moments disk.old) (D.moments disk.new) }
{
    let bytes = length_of(disk, DiskFile::Swap)?;
    if bytes > 0 {
        return Err(Status::SwapPresent { bytes });
    }
    Ok(())
}
