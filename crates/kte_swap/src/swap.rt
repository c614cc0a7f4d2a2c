//! The writer.
ghost use Rattle.std.specs.Prelude.{◌≡◌, ◌≢◌, ◌⊎◌, ◌<◌, ◌+◌, ◌↔◌, ℕ, List, [], ◌∷◌, ◌++◌, length, true, false, Ok, Err, OnOk, OnErr, IfSome, MatchResult};
ghost use Rattle.std.specs.List.{AllByRecursion};
ghost use Rattle.kte_text.specs.Digests.{digest_of};
ghost use Rattle.kte_text.specs.Primitives.{after_all};
ghost use Rattle.kte_text.specs.declared.primitive.Primitive.{Primitive};
ghost use Rattle.kte_record.specs.Transactions.{joined};
ghost use Rattle.kte_record.specs.Recovery.{Answers, clean};
ghost use Rattle.kte_causes.specs.DiskFaults.{CountsDiskFault};
ghost use Rattle.kte_causes.specs.Moments.{Moment, AddsMoments, AddedBy, Syncing, Synced, latest, latest_from};
ghost use Rattle.kte_causes.specs.declared.causes.DiskCall.TheVariants as call;
ghost use Rattle.kte_swap.specs.Swap.{HasRecord, Finishing, after_finish, after_sync, disk_result, finished, lost};
ghost use Rattle.kte_swap.specs.Saving.{CountsSave, Emptying, Guarding, IsAlone, KeepsSwap, Leaving, Makes, SumsFaults, replaces, resets, syncs};
ghost use Rattle.kte_swap.specs.Guards.{FitAfter, Guards, ImagesRecover, IsFileOf, Stands};
ghost use Rattle.kte_swap.specs.declared.causes.SaveFault.TheVariants as save_fault;
ghost use Rattle.kte_swap.specs.declared.causes.SwapFault.TheVariants as swap_fault;
ghost use Rattle.kte_swap.specs.declared.causes.SwapState.TheVariants as state;

use crate::causes::{SaveFault, SwapFault, SwapState};
use crate::saving::{replace_then_reset, reset_then_replace};
use crate::writing::write_piece;
use kte_causes::{Disk, DiskFail};
use kte_text::{Batch, Digest, digest};
use std::alloc::Global;
use std::marker::Model;

/// The writer of the swap file beside a saved file.
///
/// It is guarded while the swap file holds every transaction since the last save, and lost once a
/// call of the disk has failed. Each call is lent the same disk, which nothing else changes.
#[derive(Drop)]
pub struct Swap {
    base: Digest,
    state: SwapState,
    count: u64,
    buffer: Vec<u8>,
}

impl Model for Swap {
    ghost use Rattle.kte_swap.specs.Swap.{SwapView};

    ghost Value = { SwapView };

    ghost view = { λ swap. record {
      base = swap.base.0;
      state = swap.state;
      count = swap.count;
    } };
}

impl Swap {
    /// Creates the writer of an empty swap file, beside a saved file with this digest. Does not
    /// allocate.
    pub fn new(alloc: Global, base: Digest) -> Swap
        ensures new { result ≡ record { base = base.0; state = state.Guarded; count = 0 } }
        ensures guards { (text : List (List ℕ)) (moment : Moment) → IsFileOf moment.saved text
            → digest_of moment.saved ≡ base.0 → moment.swap ≡ [] → Guards result text [] moment }
    {
        Swap {
            base,
            state: SwapState::Guarded,
            count: 0,
            buffer: Vec::new(alloc),
        }
    }

    /// Returns whether the swap file can be relied on.
    pub fn state(&self) -> SwapState
        ensures { result ≡ self.now.state }
    {
        self.state
    }

    /// Appends a finished transaction to the swap file, with the header before the first one, and
    /// returns `true`. A transaction without primitives is not written. Returns `false` without
    /// calling the disk if the swap is lost.
    ///
    /// After `Failed` the swap is lost, and the swap file may hold a front of the transaction. If
    /// out of memory, nothing changed. The error is never `Lost`.
    pub fn finish<D: Disk>(&mut self, disk: &mut D, batch: &Batch) -> Result<bool, SwapFault>
        requires { AllByRecursion HasRecord batch.now }
        ensures lost { (result ≡ Ok false) ↔ (self.old.state ≡ state.Lost) }
        ensures idle { self.old.state ≡ state.Lost → disk.new ≡ disk.old }
        ensures empty { self.old.state ≡ state.Guarded → batch.now ≡ []
            → (result ≡ Ok true) × (disk.new ≡ disk.old) }
        ensures swap { self.new ≡ after_finish batch.now result self.old }
        ensures never { result ≢ Err swap_fault.Lost }
        ensures moments { AddsMoments (Finishing self.old batch.now result)
            (D.moments disk.old) (D.moments disk.new) }

        ensures faults { CountsDiskFault call.Append (disk_result result)
            (D.faults disk.old) (D.faults disk.new) }
        ensures rose { D.faults disk.old call.Append < D.faults disk.new call.Append
            → result ≡ Err swap_fault.Failed }
        ensures summed { SumsFaults (D.moments disk.old) (D.faults disk.old)
            → SumsFaults (D.moments disk.new) (D.faults disk.new) }

        // Where the swap stands so before, and the transaction fits.
        ensures stands { (text : List (List ℕ)) (ts : List (List Primitive))
            → Stands self.old text ts (D.moments disk.old)
            → FitAfter self.old.state batch.now ts text
            → Stands self.new text (finished batch.now result ts) (D.moments disk.new) }
        ensures images { (text : List (List ℕ)) (ts : List (List Primitive))
            → Stands self.old text ts (D.moments disk.old)
            → FitAfter self.old.state batch.now ts text
            → AddsMoments
            (λ _ added. AllByRecursion (ImagesRecover text (ts ++ batch.now ∷ [])) added)
            (D.moments disk.old) (D.moments disk.new) }
        ensures recovers { (text : List (List ℕ)) (ts : List (List Primitive))
            → Stands self.old text ts (D.moments disk.old)
            → FitAfter self.old.state batch.now ts text
            → result ≡ Ok true → batch.now ≢ []
            → IfSome (D.moments disk.new) (λ moments.
            Answers (latest moments).saved (latest moments).swap
            (clean (length ts + 1) (after_all (joined (ts ++ batch.now ∷ [])) text))) }
    {
        if self.state == SwapState::Lost {
            return Ok(false);
        }
        if batch.is_empty() {
            return Ok(true);
        }
        write_piece(self.count, &self.base, batch, &mut self.buffer)?;
        match disk.append(&self.buffer) {
            Ok(()) => {
                self.count = self.count.saturating_add(1);
                Ok(true)
            }
            Err(DiskFail::Failed) => {
                self.state = SwapState::Lost;
                Err(SwapFault::Failed)
            }
            Err(DiskFail::NoMemory) => Err(SwapFault::NoMemory),
        }
    }

    /// Makes all that was written safe from a crash.
    ///
    /// Fails with `Lost`, without calling the disk, if the swap is lost. After `Failed` it is lost.
    /// If out of memory, nothing changed.
    pub fn sync<D: Disk>(&mut self, disk: &mut D) -> Result<(), SwapFault>
        ensures lost { (result ≡ Err swap_fault.Lost) ↔ (self.old.state ≡ state.Lost) }
        ensures idle { self.old.state ≡ state.Lost → disk.new ≡ disk.old }
        ensures swap { self.new ≡ after_sync result self.old }
        ensures moments { AddsMoments (AddedBy (disk_result result) Syncing Synced)
            (D.moments disk.old) (D.moments disk.new) }

        ensures faults { CountsDiskFault call.Sync (disk_result result)
            (D.faults disk.old) (D.faults disk.new) }
        ensures rose { D.faults disk.old call.Sync < D.faults disk.new call.Sync
            → result ≡ Err swap_fault.Failed }
        ensures summed { SumsFaults (D.moments disk.old) (D.faults disk.old)
            → SumsFaults (D.moments disk.new) (D.faults disk.new) }

        // Where the swap stands so before.
        ensures stands { (text : List (List ℕ)) (ts : List (List Primitive))
            → Stands self.old text ts (D.moments disk.old)
            → Stands self.new text ts (D.moments disk.new) }
        ensures images { (text : List (List ℕ)) (ts : List (List Primitive))
            → Stands self.old text ts (D.moments disk.old)
            → AddsMoments (λ _ added. AllByRecursion (ImagesRecover text ts) added)
            (D.moments disk.old) (D.moments disk.new) }
    {
        if self.state == SwapState::Lost {
            return Err(SwapFault::Lost);
        }
        match disk.sync() {
            Ok(()) => Ok(()),
            Err(DiskFail::Failed) => {
                self.state = SwapState::Lost;
                Err(SwapFault::Failed)
            }
            Err(DiskFail::NoMemory) => Err(SwapFault::NoMemory),
        }
    }

    /// Gives the saved file these bytes and empties the swap file. The swap is then guarded, beside
    /// the new saved file.
    ///
    /// While guarded the swap file is synced, the saved file is replaced, and the swap file is
    /// emptied. A lost swap is emptied before the replacement if the new saved file has the digest
    /// of the one that the swap lies beside, and after it otherwise. The error names the first call
    /// that fails; those before it took place, those after it are not made, and the swap is lost.
    /// If there is no memory for the first call, nothing changed.
    pub fn save<D: Disk>(&mut self, disk: &mut D, bytes: &[u8]) -> Result<(), SaveFault>
        ensures guarded { self.old.state ≡ state.Guarded → AddsMoments
            (λ old added. Makes bytes.now (syncs ∷ replaces ∷ resets ∷ []) result old added
            × Guarding bytes.now result old added) (D.moments disk.old) (D.moments disk.new) }
        ensures same_base { self.old.state ≡ state.Lost → digest_of bytes.now ≡ self.old.base
            → AddsMoments (λ old added. Makes bytes.now (resets ∷ replaces ∷ []) result old added
            × Emptying bytes.now result old added) (D.moments disk.old) (D.moments disk.new) }
        ensures other_base { self.old.state ≡ state.Lost → digest_of bytes.now ≢ self.old.base
            → AddsMoments (λ old added. Makes bytes.now (replaces ∷ resets ∷ []) result old added
            × Leaving bytes.now result old added) (D.moments disk.old) (D.moments disk.new) }

        ensures ok { OnOk result (self.new ≡ record {
          base = digest_of bytes.now;
          state = state.Guarded;
          count = 0;
        }) }
        ensures err { OnErr result ((self.new ≡ lost self.old)
            ⊎ ((result ≡ Err save_fault.NoMemory) × (self.new ≡ self.old)
            × AddsMoments (λ _ added. added ≡ []) (D.moments disk.old) (D.moments disk.new))) }
        ensures unchanged { IfSome (D.moments disk.old) (λ _.
            D.moments disk.new ≡ D.moments disk.old → self.new ≡ self.old) }

        ensures faults { CountsSave result (D.faults disk.old) (D.faults disk.new) }
        ensures summed { SumsFaults (D.moments disk.old) (D.faults disk.old)
            → SumsFaults (D.moments disk.new) (D.faults disk.new) }

        // Where the swap stands so before, and the bytes are those of a text.
        ensures stands { (text after : List (List ℕ)) (ts : List (List Primitive))
            → Stands self.old text ts (D.moments disk.old) → IsFileOf bytes.now after
            → MatchResult result (λ _. Stands self.new after [] (D.moments disk.new))
            (λ _. Stands self.new text ts (D.moments disk.new)) }
    {
        let base = digest(bytes);
        self.make_calls(disk, base, bytes)?;
        self.base = base;
        self.state = SwapState::Guarded;
        self.count = 0;
        Ok(())
    }

    // Makes the calls of a save, where the new saved file has this digest. If one fails the swap is
    // lost, and otherwise it is still to be renewed.
    fn make_calls<D: Disk>(
        &mut self,
        disk: &mut D,
        base: Digest,
        bytes: &[u8],
    ) -> Result<(), SaveFault>
        ensures guarded { self.old.state ≡ state.Guarded
            → AddsMoments (Makes bytes.now (syncs ∷ replaces ∷ resets ∷ []) result)
            (D.moments disk.old) (D.moments disk.new) }
        ensures same_base { self.old.state ≡ state.Lost → base.0 ≡ self.old.base
            → AddsMoments (Makes bytes.now (resets ∷ replaces ∷ []) result)
            (D.moments disk.old) (D.moments disk.new) }
        ensures other_base { self.old.state ≡ state.Lost → base.0 ≢ self.old.base
            → AddsMoments (Makes bytes.now (replaces ∷ resets ∷ []) result)
            (D.moments disk.old) (D.moments disk.new) }
        ensures alone { OnOk result (AddsMoments
            (λ old added. IsAlone bytes.now (latest_from old added))
            (D.moments disk.old) (D.moments disk.new)) }
        ensures kept { AddsMoments (λ old added. KeepsSwap old (latest_from old added))
            (D.moments disk.old) (D.moments disk.new) }
        ensures err { OnErr result ((self.new ≡ lost self.old)
            ⊎ ((result ≡ Err save_fault.NoMemory) × (self.new ≡ self.old)
            × AddsMoments (λ _ added. added ≡ []) (D.moments disk.old) (D.moments disk.new))) }
        ensures unchanged { IfSome (D.moments disk.old) (λ _.
            D.moments disk.new ≡ D.moments disk.old → self.new ≡ self.old) }
        ensures some { OnOk result (IfSome (D.moments disk.old) (λ _.
            D.moments disk.new ≢ D.moments disk.old)) }
        ensures faults { CountsSave result (D.faults disk.old) (D.faults disk.new) }
        ensures summed { SumsFaults (D.moments disk.old) (D.faults disk.old)
            → SumsFaults (D.moments disk.new) (D.faults disk.new) }
    {
        if self.state == SwapState::Lost {
            if base == self.base {
                return reset_then_replace(disk, bytes);
            }
            return replace_then_reset(disk, bytes);
        }
        match self.sync(disk) {
            Ok(()) => {
                self.state = SwapState::Lost;
                replace_then_reset(disk, bytes)
            }
            Err(SwapFault::Failed) => Err(SaveFault::Sync),
            Err(SwapFault::NoMemory) => Err(SaveFault::NoMemory),
            Err(SwapFault::Lost) => unreachable!(),
        }
    }
}
