//! Disks in memory, which tell their moments.
//!
//! A call of a `CalmDisk` never fails. A call of a `MemDisk` fails exactly where it has a plan.
ghost use Rattle.std.specs.Prelude.{◌≡◌, ℕ, ◌+◌, ◌<◌, ◌≤◌, ◌↔◌, ◌++◌, List, [], ◌∷◌, length, take, drop, IfOk, OnOk, IsErrOf, OnErr, IsTrue, Some, slice_index_or};
ghost use Rattle.kte_causes.specs.DiskFaults.{count_of, AllStay, CountsDiskFault, total};
ghost use Rattle.kte_causes.specs.Moments.{Moment, IsImage, latest, nowhere, AddsMoments, AddedBy, Staying, Stayed, Appending, Appended, Syncing, Synced, Replacing, Replaced, Resetting, Reset};
ghost use Rattle.kte_causes.specs.Shelf.{first_moment, changed, left_by, stayed, appended, synced, replaced, emptied, taken_place};
ghost use Rattle.kte_causes.specs.Memory.{Does};

use crate::causes::{DiskCall, DiskFail};
use crate::counts::DiskCounts;
use crate::outside::Disk;
use crate::shelf::{Change, Shelf};
use std::alloc::AllocError;
use std::marker::Model;

/// A call of a disk in memory that fails.
#[derive(Clone, Copy, Debug, PartialEq, Eq, Hash)]
pub struct DiskPlan {
    /// Its method.
    pub call: DiskCall,
    /// Its number among the calls of that method, from 0.
    pub nth: u64,
    /// For `append`, how many of the bytes it leaves; more than all leaves all. For `replace` and
    /// `reset`, not 0 if the call takes place although it fails.
    pub done: u64,
}

impl DiskPlan {
    ghost use Rattle.kte_causes.specs.Memory.{IsFor};

    /// Returns whether the plan is for the call with this number, from 0, of this kind.
    fn is_for(&self, call: DiskCall, nth: u64) -> bool
        ensures { IsTrue result ↔ IsFor call nth self.now }
    {
        self.call == call && self.nth == nth
    }
}

/// Copies the part of the bytes from `from` on that fills `buf`.
fn copy_part(bytes: &[u8], from: u64, buf: &mut [u8])
    requires { from + length buf.old ≤ length bytes.now }
    ensures { buf.new ≡ take (length buf.old) (drop from bytes.now) }
{
    let from = from as usize;
    buf.copy_from_slice(&bytes[from..from + buf.len()]);
}

/// A disk in memory, seen as its moments. No call fails unless memory runs out.
#[derive(Drop)]
pub struct CalmDisk {
    shelf: Shelf,
}

impl Model for CalmDisk {
    ghost use Rattle.std.specs.Prelude.{◌≡◌, List};
    ghost use Rattle.kte_causes.specs.Moments.{Moment, latest};

    ghost Value = { List Moment };

    ghost view = { λ d. d.shelf };

    ghost invariant = { λ d. (latest d.shelf).faults ≡ 0 };
}

impl CalmDisk {
    /// Makes a disk with these files, at one moment, at which all of the swap file is synced.
    pub fn new(saved: Vec<u8>, swap: Vec<u8>) -> Self
        ensures { result ≡ first_moment saved.items swap.items ∷ [] }
    {
        CalmDisk {
            shelf: Shelf::new(saved, swap),
        }
    }

    /// Adds the moment after a change. Changes nothing if memory runs out.
    fn call(&mut self, change: Change<'_>) -> Result<(), DiskFail>
        ensures ok { OnOk result (self.new ≡ self.old
            ++ changed change.entry (latest self.old) ∷ []) }
        ensures err { OnErr result (self.new ≡ self.old) }
        ensures no_memory_alone { OnErr result (IsErrOf result DiskFail.NoMemory) }
        ensures summed { (latest self.new).faults ≡ 0 }
        ensures synced { (latest self.old).synced ≤ length (latest self.old).swap }
    {
        self.shelf.add(change, false)?;
        Ok(())
    }
}

impl Disk for CalmDisk {
    ghost moments = { λ d. Some d };

    ghost faults = { λ _ _. 0 };

    fn saved_len(&mut self) -> Result<u64, DiskFail>
        ensures value { IfOk result (λ n. n ≡ length (latest self.new).saved) }
        ensures ok { OnOk result (self.new ≡ self.old ++ stayed (latest self.old) ∷ []) }
        ensures err { OnErr result (self.new ≡ self.old) }
        ensures no_memory_alone { OnErr result (IsErrOf result DiskFail.NoMemory) }

        ensures moments { AddsMoments (AddedBy result Staying Stayed) (Some self.old)
            (Some self.new) }
        ensures summed { (latest self.new).faults ≡ 0 }
    {
        self.call(Change::Keep)?;
        Ok(self.shelf.saved().len() as u64)
    }

    fn saved_at(&mut self, from: u64, buf: &mut [u8]) -> Result<(), DiskFail>
        requires { from + length buf.old ≤ length (latest self.old).saved }
        ensures value { OnOk result
            (buf.new ≡ take (length buf.old) (drop from (latest self.new).saved)) }
        ensures ok { OnOk result (self.new ≡ self.old ++ stayed (latest self.old) ∷ []) }
        ensures err { OnErr result (self.new ≡ self.old) }
        ensures no_memory_alone { OnErr result (IsErrOf result DiskFail.NoMemory) }

        ensures moments { AddsMoments (AddedBy result Staying Stayed) (Some self.old)
            (Some self.new) }
        ensures summed { (latest self.new).faults ≡ 0 }
    {
        self.call(Change::Keep)?;
        copy_part(self.shelf.saved(), from, buf);
        Ok(())
    }

    fn swap_len(&mut self) -> Result<u64, DiskFail>
        ensures value { IfOk result (λ n. n ≡ length (latest self.new).swap) }
        ensures ok { OnOk result (self.new ≡ self.old ++ stayed (latest self.old) ∷ []) }
        ensures err { OnErr result (self.new ≡ self.old) }
        ensures no_memory_alone { OnErr result (IsErrOf result DiskFail.NoMemory) }

        ensures moments { AddsMoments (AddedBy result Staying Stayed) (Some self.old)
            (Some self.new) }
        ensures summed { (latest self.new).faults ≡ 0 }
    {
        self.call(Change::Keep)?;
        Ok(self.shelf.swap().len() as u64)
    }

    fn swap_at(&mut self, from: u64, buf: &mut [u8]) -> Result<(), DiskFail>
        requires { from + length buf.old ≤ length (latest self.old).swap }
        ensures value { OnOk result
            (buf.new ≡ take (length buf.old) (drop from (latest self.new).swap)) }
        ensures ok { OnOk result (self.new ≡ self.old ++ stayed (latest self.old) ∷ []) }
        ensures err { OnErr result (self.new ≡ self.old) }
        ensures no_memory_alone { OnErr result (IsErrOf result DiskFail.NoMemory) }

        ensures moments { AddsMoments (AddedBy result Staying Stayed) (Some self.old)
            (Some self.new) }
        ensures summed { (latest self.new).faults ≡ 0 }
    {
        self.call(Change::Keep)?;
        copy_part(self.shelf.swap(), from, buf);
        Ok(())
    }

    fn append(&mut self, bytes: &[u8]) -> Result<(), DiskFail>
        ensures ok { OnOk result (self.new ≡ self.old
            ++ appended bytes.now (latest self.old) ∷ []) }
        ensures err { OnErr result (self.new ≡ self.old) }
        ensures no_memory_alone { OnErr result (IsErrOf result DiskFail.NoMemory) }

        ensures moments { AddsMoments
            (AddedBy result (Appending bytes.now) (Appended bytes.now)) (Some self.old)
            (Some self.new) }
        ensures summed { (latest self.new).faults ≡ 0 }
    {
        self.call(Change::Append(bytes))
    }

    fn sync(&mut self) -> Result<(), DiskFail>
        ensures ok { OnOk result (self.new ≡ self.old ++ synced (latest self.old) ∷ []) }
        ensures err { OnErr result (self.new ≡ self.old) }
        ensures no_memory_alone { OnErr result (IsErrOf result DiskFail.NoMemory) }

        ensures moments { AddsMoments (AddedBy result Syncing Synced) (Some self.old)
            (Some self.new) }
        ensures summed { (latest self.new).faults ≡ 0 }
    {
        self.call(Change::Sync)
    }

    fn replace(&mut self, bytes: &[u8]) -> Result<(), DiskFail>
        ensures ok { OnOk result (self.new ≡ self.old
            ++ replaced bytes.now (latest self.old) ∷ []) }
        ensures err { OnErr result (self.new ≡ self.old) }
        ensures no_memory_alone { OnErr result (IsErrOf result DiskFail.NoMemory) }

        ensures moments { AddsMoments
            (AddedBy result (Replacing bytes.now) (Replaced bytes.now)) (Some self.old)
            (Some self.new) }
        ensures summed { (latest self.new).faults ≡ 0 }
    {
        self.call(Change::Replace(bytes))
    }

    fn reset(&mut self) -> Result<(), DiskFail>
        ensures ok { OnOk result (self.new ≡ self.old ++ emptied (latest self.old) ∷ []) }
        ensures err { OnErr result (self.new ≡ self.old) }
        ensures no_memory_alone { OnErr result (IsErrOf result DiskFail.NoMemory) }

        ensures moments { AddsMoments (AddedBy result Resetting Reset) (Some self.old)
            (Some self.new) }
        ensures summed { (latest self.new).faults ≡ 0 }
    {
        self.call(Change::Empty)
    }
}

/// A disk in memory, of which planned calls fail.
///
/// A call that finds memory fails exactly where its number, counted from 0 among the calls of its
/// method, has a plan. Of two plans for one call the first counts. The numbers stay at 2^64 - 1.
#[derive(Drop)]
pub struct MemDisk {
    shelf: Shelf,
    failing: Vec<DiskPlan>,
    made: DiskCounts,
    faults: DiskCounts,
}

impl Model for MemDisk {
    ghost use Rattle.std.specs.Prelude.{◌≡◌};
    ghost use Rattle.kte_causes.specs.DiskFaults.{count_of, total};
    ghost use Rattle.kte_causes.specs.Moments.{latest};
    ghost use Rattle.kte_causes.specs.Memory.{DiskState};

    ghost Value = { DiskState };

    ghost view = { λ d. record {
      moments = d.shelf;
      failing = d.failing.items;
      made = d.made;
      faults = d.faults;
    } };

    ghost invariant = { λ d. (latest d.shelf).faults ≡ total (count_of d.faults) };
}

impl MemDisk {
    ghost use Rattle.kte_causes.specs.Memory.{made_of, faults_of, IsFirstPlan};

    /// Makes a disk with these files, at one moment, at which all of the swap file is synced.
    /// The planned calls fail.
    pub fn new(saved: Vec<u8>, swap: Vec<u8>, failing: Vec<DiskPlan>) -> Self
        ensures moments { result.moments ≡ first_moment saved.items swap.items ∷ [] }
        ensures failing { result.failing ≡ failing.items }
        ensures made { AllStay (λ _. 0) (made_of result) }
        ensures faults { AllStay (λ _. 0) (faults_of result) }
    {
        MemDisk {
            shelf: Shelf::new(saved, swap),
            failing,
            made: DiskCounts::new(),
            faults: DiskCounts::new(),
        }
    }

    /// Returns the first plan for the next call of a kind.
    fn plan(&self, call: DiskCall) -> Option<DiskPlan>
        ensures { IsFirstPlan self.now.failing call (made_of self.now call) result }
    {
        let nth = self.made.get(call);
        for plan in &self.failing {
            if plan.is_for(call, nth) {
                return Some(*plan);
            }
        }
        None
    }

    /// Numbers a call, and makes its change, or what its plan leaves of it.
    fn call(&mut self, call: DiskCall, change: Change<'_>) -> Result<(), DiskFail>
        ensures does { Does call result (changed change.entry) (left_by change.entry)
            self.old self.new }
        ensures summed { (latest self.new.moments).faults ≡ total (faults_of self.new) }
        ensures counts { CountsDiskFault call result (faults_of self.old) (faults_of self.new) }
        ensures synced { (latest self.old.moments).synced ≤ length (latest self.old.moments).swap }
    {
        let plan = self.plan(call);
        self.made.raise(call);
        let Some(plan) = plan else {
            self.shelf.add(change, false)?;
            return Ok(());
        };
        self.shelf.add(change.left(plan.done), true)?;
        self.faults.raise(call);
        Err(DiskFail::Failed)
    }

    /// Returns the number of moments.
    pub fn count(&self) -> u64
        ensures { result ≡ length self.now.moments }
    {
        self.shelf.len() as u64
    }

    /// Returns how many bytes of the swap file are synced at a moment, counted from 0, and the
    /// swap file's length.
    pub fn cuts(&self, moment: u64) -> (u64, u64)
        requires { moment < length self.now.moments }
        ensures synced { result.0 ≡ (slice_index_or self.now.moments moment nowhere).synced }
        ensures whole { result.1 ≡ length (slice_index_or self.now.moments moment nowhere).swap }
        ensures ordered { result.0 ≤ result.1 }
    {
        self.shelf.cuts(moment as usize)
    }

    /// Returns an image of a moment, counted from 0: the saved file, and the first `cut` bytes of
    /// the swap file.
    pub fn image(&self, moment: u64, cut: u64) -> Result<(Vec<u8>, Vec<u8>), AllocError>
        requires moment { moment < length self.now.moments }
        requires synced { (slice_index_or self.now.moments moment nowhere).synced ≤ cut }
        requires within { cut ≤ length (slice_index_or self.now.moments moment nowhere).swap }
        ensures saved { IfOk result (λ image. image.0.items
            ≡ (slice_index_or self.now.moments moment nowhere).saved) }
        ensures swap { IfOk result (λ image. image.1.items
            ≡ take cut (slice_index_or self.now.moments moment nowhere).swap) }
        ensures image { IfOk result (λ image.
            IsImage (slice_index_or self.now.moments moment nowhere) image.0.items image.1.items) }
    {
        self.shelf.image(moment as usize, cut as usize)
    }
}

impl Disk for MemDisk {
    ghost use Rattle.kte_causes.specs.Memory.{made_of, faults_of};

    ghost moments = { λ d. Some d.moments };

    ghost faults = { faults_of };

    fn saved_len(&mut self) -> Result<u64, DiskFail>
        ensures value { IfOk result (λ n. n ≡ length (latest self.new.moments).saved) }
        ensures does { Does DiskCall.SavedLen result stayed (λ _. stayed)
            self.old self.new }

        ensures moments { AddsMoments (AddedBy result Staying Stayed) (Some self.old.moments)
            (Some self.new.moments) }
        ensures summed { (latest self.new.moments).faults ≡ total (faults_of self.new) }
        ensures counts { CountsDiskFault DiskCall.SavedLen result (faults_of self.old)
            (faults_of self.new) }
    {
        self.call(DiskCall::SavedLen, Change::Keep)?;
        Ok(self.shelf.saved().len() as u64)
    }

    fn saved_at(&mut self, from: u64, buf: &mut [u8]) -> Result<(), DiskFail>
        requires { from + length buf.old ≤ length (latest self.old.moments).saved }
        ensures value { OnOk result
            (buf.new ≡ take (length buf.old) (drop from (latest self.new.moments).saved)) }
        ensures does { Does DiskCall.SavedAt result stayed (λ _. stayed)
            self.old self.new }

        ensures moments { AddsMoments (AddedBy result Staying Stayed) (Some self.old.moments)
            (Some self.new.moments) }
        ensures summed { (latest self.new.moments).faults ≡ total (faults_of self.new) }
        ensures counts { CountsDiskFault DiskCall.SavedAt result (faults_of self.old)
            (faults_of self.new) }
    {
        self.call(DiskCall::SavedAt, Change::Keep)?;
        copy_part(self.shelf.saved(), from, buf);
        Ok(())
    }

    fn swap_len(&mut self) -> Result<u64, DiskFail>
        ensures value { IfOk result (λ n. n ≡ length (latest self.new.moments).swap) }
        ensures does { Does DiskCall.SwapLen result stayed (λ _. stayed)
            self.old self.new }

        ensures moments { AddsMoments (AddedBy result Staying Stayed) (Some self.old.moments)
            (Some self.new.moments) }
        ensures summed { (latest self.new.moments).faults ≡ total (faults_of self.new) }
        ensures counts { CountsDiskFault DiskCall.SwapLen result (faults_of self.old)
            (faults_of self.new) }
    {
        self.call(DiskCall::SwapLen, Change::Keep)?;
        Ok(self.shelf.swap().len() as u64)
    }

    fn swap_at(&mut self, from: u64, buf: &mut [u8]) -> Result<(), DiskFail>
        requires { from + length buf.old ≤ length (latest self.old.moments).swap }
        ensures value { OnOk result
            (buf.new ≡ take (length buf.old) (drop from (latest self.new.moments).swap)) }
        ensures does { Does DiskCall.SwapAt result stayed (λ _. stayed)
            self.old self.new }

        ensures moments { AddsMoments (AddedBy result Staying Stayed) (Some self.old.moments)
            (Some self.new.moments) }
        ensures summed { (latest self.new.moments).faults ≡ total (faults_of self.new) }
        ensures counts { CountsDiskFault DiskCall.SwapAt result (faults_of self.old)
            (faults_of self.new) }
    {
        self.call(DiskCall::SwapAt, Change::Keep)?;
        copy_part(self.shelf.swap(), from, buf);
        Ok(())
    }

    fn append(&mut self, bytes: &[u8]) -> Result<(), DiskFail>
        ensures does { Does DiskCall.Append result (appended bytes.now)
            (λ done. appended (take done bytes.now)) self.old self.new }

        ensures moments { AddsMoments
            (AddedBy result (Appending bytes.now) (Appended bytes.now)) (Some self.old.moments)
            (Some self.new.moments) }
        ensures summed { (latest self.new.moments).faults ≡ total (faults_of self.new) }
        ensures counts { CountsDiskFault DiskCall.Append result (faults_of self.old)
            (faults_of self.new) }
    {
        self.call(DiskCall::Append, Change::Append(bytes))
    }

    fn sync(&mut self) -> Result<(), DiskFail>
        ensures does { Does DiskCall.Sync result synced (λ _. stayed)
            self.old self.new }

        ensures moments { AddsMoments (AddedBy result Syncing Synced) (Some self.old.moments)
            (Some self.new.moments) }
        ensures summed { (latest self.new.moments).faults ≡ total (faults_of self.new) }
        ensures counts { CountsDiskFault DiskCall.Sync result (faults_of self.old)
            (faults_of self.new) }
    {
        self.call(DiskCall::Sync, Change::Sync)
    }

    fn replace(&mut self, bytes: &[u8]) -> Result<(), DiskFail>
        ensures does { Does DiskCall.Replace result (replaced bytes.now)
            (λ done m. taken_place done (replaced bytes.now m) m) self.old self.new }

        ensures moments { AddsMoments
            (AddedBy result (Replacing bytes.now) (Replaced bytes.now)) (Some self.old.moments)
            (Some self.new.moments) }
        ensures summed { (latest self.new.moments).faults ≡ total (faults_of self.new) }
        ensures counts { CountsDiskFault DiskCall.Replace result (faults_of self.old)
            (faults_of self.new) }
    {
        self.call(DiskCall::Replace, Change::Replace(bytes))
    }

    fn reset(&mut self) -> Result<(), DiskFail>
        ensures does { Does DiskCall.Reset result emptied (λ done m. taken_place done (emptied m) m)
            self.old self.new }

        ensures moments { AddsMoments (AddedBy result Resetting Reset) (Some self.old.moments)
            (Some self.new.moments) }
        ensures summed { (latest self.new.moments).faults ≡ total (faults_of self.new) }
        ensures counts { CountsDiskFault DiskCall.Reset result (faults_of self.old)
            (faults_of self.new) }
    {
        self.call(DiskCall::Reset, Change::Empty)
    }
}
