//! The outside: where bytes come from, where bytes go, and the disk with the saved file and its
//! swap file.
//!
//! Each object counts its faults, and returns `Failed` only where its count rose in that call. A
//! disk that tells has moments: what its files held after each step of a call, and so what a crash
//! may leave. `read_whole` returns all the bytes that were left, or says why not. `write_whole` gives a
//! sink all of the bytes, or after an error a prefix of them.
//!
//! - `outside`: the traits `Source`, `Sink` and `Disk`.
//! - `causes`: the errors, and the calls of a disk. `counts`: numbers of calls.
//! - `whole`: `read_whole` and `write_whole`.
//! - `streams`, `disks`: objects in memory, which tell what they hold. The calm ones never fail,
//!   the others at chosen calls. `shelf` keeps the moments of a disk.
//! - `std_streams`: readers and writers of std. They tell what these tell.
//! - `file`: a file of the system and its swap file. It tells nothing of what they hold.
//! - `io_fault`: what an I/O error means.
#![tactic(auto)]

pub mod causes;
pub mod counts;
pub mod disks;
pub mod file;
mod io_fault;
pub mod outside;
mod shelf;
pub mod std_streams;
pub mod streams;
#[cfg(test)]
mod tests;
pub mod whole;

pub use causes::{DiskCall, DiskFail, ReadFault, SinkFail, SourceFail};
pub use counts::DiskCounts;
pub use disks::{CalmDisk, DiskPlan, MemDisk};
pub use file::FileDisk;
pub use outside::{Disk, Sink, Source};
pub use std_streams::{StdSink, StdSource};
pub use streams::{CalmSink, CalmSource, MemSink, MemSource};
pub use whole::{read_whole, write_whole};
