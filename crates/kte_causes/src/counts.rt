//! Numbers of calls. A number that has reached 2^64 - 1 stays there.
ghost use Rattle.std.specs.Prelude.{◌≡◌, ◌≤◌, ◌↔◌, IsTrue, Contains};
ghost use Rattle.std.specs.Bool.{OnTrue, OnFalse};
ghost use Rattle.kte_causes.specs.Faults.{Rose, raised};

use crate::causes::DiskCall;

/// A number for each call of a disk.
#[derive(Clone, Copy, Debug, PartialEq, Eq, Hash)]
pub struct DiskCounts {
    /// Of `saved_len`.
    pub saved_len: u64,
    /// Of `saved_at`.
    pub saved_at: u64,
    /// Of `swap_len`.
    pub swap_len: u64,
    /// Of `swap_at`.
    pub swap_at: u64,
    /// Of `append`.
    pub append: u64,
    /// Of `sync`.
    pub sync: u64,
    /// Of `replace`.
    pub replace: u64,
    /// Of `reset`.
    pub reset: u64,
}

impl DiskCounts {
    ghost use Rattle.kte_causes.specs.DiskFaults.{AllStay, OthersStay, NoneFell, count_of};

    /// Returns 0 for each call.
    pub fn new() -> Self
        ensures { AllStay (λ _. 0) (count_of result) }
    {
        DiskCounts {
            saved_len: 0,
            saved_at: 0,
            swap_len: 0,
            swap_at: 0,
            append: 0,
            sync: 0,
            replace: 0,
            reset: 0,
        }
    }

    /// Returns the number of one call.
    pub fn get(self, call: DiskCall) -> u64
        ensures { result ≡ count_of self call }
    {
        match call {
            DiskCall::SavedLen => self.saved_len,
            DiskCall::SavedAt => self.saved_at,
            DiskCall::SwapLen => self.swap_len,
            DiskCall::SwapAt => self.swap_at,
            DiskCall::Append => self.append,
            DiskCall::Sync => self.sync,
            DiskCall::Replace => self.replace,
            DiskCall::Reset => self.reset,
        }
    }

    /// Raises the number of one call. A number at 2^64 - 1 stays there.
    pub fn raise(&mut self, call: DiskCall)
        ensures one_more { count_of self.new call ≡ raised (count_of self.old call) }
        ensures rose { Rose (count_of self.old call) (count_of self.new call) }
        ensures others { OthersStay call (count_of self.old) (count_of self.new) }
        ensures counted { NoneFell (count_of self.old) (count_of self.new) }
    {
        match call {
            DiskCall::SavedLen => self.saved_len = self.saved_len.saturating_add(1),
            DiskCall::SavedAt => self.saved_at = self.saved_at.saturating_add(1),
            DiskCall::SwapLen => self.swap_len = self.swap_len.saturating_add(1),
            DiskCall::SwapAt => self.swap_at = self.swap_at.saturating_add(1),
            DiskCall::Append => self.append = self.append.saturating_add(1),
            DiskCall::Sync => self.sync = self.sync.saturating_add(1),
            DiskCall::Replace => self.replace = self.replace.saturating_add(1),
            DiskCall::Reset => self.reset = self.reset.saturating_add(1),
        }
    }
}

/// The calls of one method, some of which fail.
#[derive(Drop)]
pub(crate) struct Calls {
    pub(crate) failing: Vec<u64>,
    pub(crate) made: u64,
    pub(crate) faults: u64,
}

impl Calls {
    /// Begins with no call. The calls with these numbers, counted from 0, will fail.
    pub(crate) fn new(failing: Vec<u64>) -> Self
        ensures failing { result.failing.items ≡ failing.items }
        ensures made { result.made ≡ 0 }
        ensures faults { result.faults ≡ 0 }
    {
        Calls {
            failing,
            made: 0,
            faults: 0,
        }
    }

    /// Counts a call, and returns whether it fails.
    pub(crate) fn fails(&mut self) -> bool
        ensures planned { IsTrue result ↔ Contains self.old.failing.items self.old.made }
        ensures made { self.new.made ≡ raised self.old.made }
        ensures fault { OnTrue result (Rose self.old.faults self.new.faults) }
        ensures calm { OnFalse result (self.new.faults ≡ self.old.faults) }
        ensures failing { self.new.failing.items ≡ self.old.failing.items }
    {
        let fails = self.failing.contains(&self.made);
        self.made = self.made.saturating_add(1);
        if fails {
            self.faults = self.faults.saturating_add(1);
        }
        fails
    }
}
