//! What the program asks of the outside: a source of bytes, a sink for bytes, and a disk.
//!
//! Each object counts its faults. A call returns `Failed` only where its count rose in that call,
//! and a count never falls. A count that is kept in a `u64` stays at 2^64 - 1: from there on "rose"
//! reads "is there". Objects in memory tell what they hold; of the others the clauses on bytes say
//! nothing.
ghost use Rattle.std.specs.Prelude.{◌≡◌, ℕ, ◌+◌, ◌<◌, ◌≤◌, ◌↔◌, List, [], length, take, drop, IfOk, IfSome, OnOk, OnErr, Option};
ghost use Rattle.std.specs.Io.KnownBytes.{Consumes, Appends, Keeps, IsAtEnd};
ghost use Rattle.kte_causes.specs.declared.causes.DiskCall.{DiskCall};
ghost use Rattle.kte_causes.specs.Faults.{CountsFault};
ghost use Rattle.kte_causes.specs.DiskFaults.{CountsDiskFault, total};
ghost use Rattle.kte_causes.specs.Moments.{Moment, latest, AddsMoments, AddedBy, Staying, Stayed, Appending, Appended, Syncing, Synced, Replacing, Replaced, Resetting, Reset};

use crate::causes::{DiskCall, DiskFail, SinkFail, SourceFail};

/// Where bytes come from.
pub trait Source {
    /// The bytes that are left, or `None` where the source does not tell.
    ghost left: { Self → Option (List ℕ) };

    /// How many reads have failed.
    ghost faults: { Self → ℕ };

    /// Reads the next bytes into the front of `buf`. Returns the number of bytes read; 0 means end
    /// of input. A read that fails takes no byte; what it leaves in `buf` is not said.
    fn read(&mut self, buf: &mut [u8]) -> Result<usize, SourceFail>
        requires { 0 < length buf.old }
        ensures within { IfOk result (λ n. n ≤ length buf.old) }
        ensures bytes { IfOk result
            (λ n. Consumes (left self.old) (left self.new) (take n buf.new)) }
        ensures end { IfSome (left self.old) (λ bytes. IfOk result (λ n. (n ≡ 0) ↔ (bytes ≡ []))) }
        ensures end_after { IfOk result (λ n. n ≡ 0 → IsAtEnd (left self.new)) }
        ensures err { OnErr result (Keeps (left self.old) (left self.new)) }
        ensures counts { CountsFault SourceFail.Failed result (faults self.old) (faults self.new) };
}

/// Where bytes go.
pub trait Sink {
    /// The bytes that the sink got, or `None` where it does not tell.
    ghost got: { Self → Option (List ℕ) };

    /// How many writes have failed.
    ghost faults: { Self → ℕ };

    /// Writes the first of the bytes. Returns the number of bytes written: at least one, if there
    /// is one. A write that fails writes no byte.
    fn write(&mut self, bytes: &[u8]) -> Result<usize, SinkFail>
        ensures within { IfOk result (λ n. n ≤ length bytes.now) }
        ensures some { 0 < length bytes.now → IfOk result (λ n. 0 < n) }
        ensures bytes { IfOk result
            (λ n. Appends (got self.old) (got self.new) (take n bytes.now)) }
        ensures err { OnErr result (Keeps (got self.old) (got self.new)) }
        ensures counts { CountsFault SinkFail.Failed result (faults self.old) (faults self.new) };
}

/// Where the saved file lies, and its swap file beside it.
///
/// A disk that tells has a list of moments: what its two files held after each step of a call. The
/// last moment is how the last call left them. After a crash the files are an image of a moment.
pub trait Disk {
    /// The moments so far, or `None` where the disk does not tell.
    ghost moments: { Self → Option (List Moment) };

    /// How many calls of a kind have failed.
    ghost faults: { Self → DiskCall → ℕ };

    /// Returns the length of the saved file, in bytes.
    fn saved_len(&mut self) -> Result<u64, DiskFail>
        ensures value { IfSome (moments self.new) (λ ms. IfOk result
            (λ n. n ≡ length (latest ms).saved)) }
        ensures moments { AddsMoments (AddedBy result Staying Stayed) (moments self.old)
            (moments self.new) }
        ensures summed { IfSome (moments self.new) (λ ms.
            (latest ms).faults ≡ total (faults self.new)) }
        ensures counts { CountsDiskFault DiskCall.SavedLen result (faults self.old)
            (faults self.new) };

    /// Fills `buf` with the bytes of the saved file from `from` on, in bytes from 0.
    /// What a call that fails leaves in `buf` is not said.
    fn saved_at(&mut self, from: u64, buf: &mut [u8]) -> Result<(), DiskFail>
        requires { IfSome (moments self.old) (λ ms.
            from + length buf.old ≤ length (latest ms).saved) }
        ensures value { IfSome (moments self.new) (λ ms. OnOk result
            (buf.new ≡ take (length buf.old) (drop from (latest ms).saved))) }
        ensures moments { AddsMoments (AddedBy result Staying Stayed) (moments self.old)
            (moments self.new) }
        ensures summed { IfSome (moments self.new) (λ ms.
            (latest ms).faults ≡ total (faults self.new)) }
        ensures counts { CountsDiskFault DiskCall.SavedAt result (faults self.old)
            (faults self.new) };

    /// Returns the length of the swap file, in bytes. A swap file that is not there is empty.
    fn swap_len(&mut self) -> Result<u64, DiskFail>
        ensures value { IfSome (moments self.new) (λ ms. IfOk result
            (λ n. n ≡ length (latest ms).swap)) }
        ensures moments { AddsMoments (AddedBy result Staying Stayed) (moments self.old)
            (moments self.new) }
        ensures summed { IfSome (moments self.new) (λ ms.
            (latest ms).faults ≡ total (faults self.new)) }
        ensures counts { CountsDiskFault DiskCall.SwapLen result (faults self.old)
            (faults self.new) };

    /// Fills `buf` with the bytes of the swap file from `from` on, in bytes from 0.
    /// What a call that fails leaves in `buf` is not said.
    fn swap_at(&mut self, from: u64, buf: &mut [u8]) -> Result<(), DiskFail>
        requires { IfSome (moments self.old) (λ ms.
            from + length buf.old ≤ length (latest ms).swap) }
        ensures value { IfSome (moments self.new) (λ ms. OnOk result
            (buf.new ≡ take (length buf.old) (drop from (latest ms).swap))) }
        ensures moments { AddsMoments (AddedBy result Staying Stayed) (moments self.old)
            (moments self.new) }
        ensures summed { IfSome (moments self.new) (λ ms.
            (latest ms).faults ≡ total (faults self.new)) }
        ensures counts { CountsDiskFault DiskCall.SwapAt result (faults self.old)
            (faults self.new) };

    /// Adds the bytes to the end of the swap file. A call that fails may leave a prefix of them.
    fn append(&mut self, bytes: &[u8]) -> Result<(), DiskFail>
        ensures moments { AddsMoments
            (AddedBy result (Appending bytes.now) (Appended bytes.now)) (moments self.old)
            (moments self.new) }
        ensures summed { IfSome (moments self.new) (λ ms.
            (latest ms).faults ≡ total (faults self.new)) }
        ensures counts { CountsDiskFault DiskCall.Append result (faults self.old)
            (faults self.new) };

    /// Makes all of the swap file safe from a crash.
    fn sync(&mut self) -> Result<(), DiskFail>
        ensures moments { AddsMoments (AddedBy result Syncing Synced) (moments self.old)
            (moments self.new) }
        ensures summed { IfSome (moments self.new) (λ ms.
            (latest ms).faults ≡ total (faults self.new)) }
        ensures counts { CountsDiskFault DiskCall.Sync result (faults self.old)
            (faults self.new) };

    /// Gives the saved file these bytes. At each moment of the call, and after one that fails, the
    /// saved file is the old one or the new one, whole.
    fn replace(&mut self, bytes: &[u8]) -> Result<(), DiskFail>
        ensures moments { AddsMoments
            (AddedBy result (Replacing bytes.now) (Replaced bytes.now)) (moments self.old)
            (moments self.new) }
        ensures summed { IfSome (moments self.new) (λ ms.
            (latest ms).faults ≡ total (faults self.new)) }
        ensures counts { CountsDiskFault DiskCall.Replace result (faults self.old)
            (faults self.new) };

    /// Empties the swap file. At each moment of the call, and after one that fails, the swap file
    /// is the old one, whole, or empty.
    fn reset(&mut self) -> Result<(), DiskFail>
        ensures moments { AddsMoments (AddedBy result Resetting Reset) (moments self.old)
            (moments self.new) }
        ensures summed { IfSome (moments self.new) (λ ms.
            (latest ms).faults ≡ total (faults self.new)) }
        ensures counts { CountsDiskFault DiskCall.Reset result (faults self.old)
            (faults self.new) };
}
