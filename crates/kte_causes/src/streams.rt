//! Sources and sinks in memory. Each tells what it has left or got.
//!
//! `CalmSource` and `CalmSink` count no fault. `MemSource` and `MemSink` fail exactly at the calls
//! whose numbers are in the list that they were made with. The numbers count from 0, and stay at
//! 2^64 - 1.
ghost use Rattle.std.specs.Prelude.{◌≡◌, ℕ, ◌+◌, ◌<◌, ◌≤◌, ◌↔◌, ◌++◌, List, [], length, take, drop, vec_len, min, IfOk, OnOk, OnErr, IsOk, IsErr, IsErrOf, Some, Contains};
ghost use Rattle.kte_causes.specs.Faults.{CountsFault, raised};

use crate::causes::{SinkFail, SourceFail};
use crate::counts::Calls;
use crate::outside::{Sink, Source};
use std::alloc::Global;
use std::marker::Model;

/// Bytes in memory as a source, seen as what is left of them. No read fails.
#[derive(Drop)]
pub struct CalmSource {
    bytes: Vec<u8>,
    at: usize,
}

impl Model for CalmSource {
    ghost Value = { List ℕ };

    ghost view = { λ s. drop s.at s.bytes.items };

    ghost invariant = { λ s. s.at ≤ vec_len s.bytes };
}

impl CalmSource {
    /// Makes a source of these bytes.
    pub fn new(bytes: Vec<u8>) -> Self
        ensures { result ≡ bytes.items }
    {
        CalmSource { bytes, at: 0 }
    }
}

impl Source for CalmSource {
    ghost left = { λ s. Some s };

    ghost faults = { λ _. 0 };

    fn read(&mut self, buf: &mut [u8]) -> Result<usize, SourceFail>
        requires { 0 < length buf.old }
        ensures ok { IsOk result }
        ensures most { IfOk result (λ n. n ≡ min (length buf.old) (length self.old)) }
        ensures within { IfOk result (λ n. n ≤ length buf.old) }
        ensures bytes { IfOk result (λ n. self.old ≡ take n buf.new ++ self.new) }
        ensures end { IfOk result (λ n. (n ≡ 0) ↔ (self.old ≡ [])) }
        ensures end_after { IfOk result (λ n. n ≡ 0 → self.new ≡ []) }
    {
        let count = buf.len().min(self.bytes.len() - self.at);
        buf[..count].copy_from_slice(&self.bytes[self.at..self.at + count]);
        self.at += count;
        Ok(count)
    }
}

/// A sink in memory, seen as the bytes that it got. No write fails unless memory runs out.
#[derive(Drop)]
pub struct CalmSink {
    got: Vec<u8>,
}

impl Model for CalmSink {
    ghost Value = { List ℕ };

    ghost view = { λ s. s.got.items };
}

impl CalmSink {
    /// Makes a sink that got nothing yet.
    pub fn new(alloc: Global) -> Self
        ensures { result ≡ [] }
    {
        CalmSink {
            got: Vec::new(alloc),
        }
    }

    /// Returns the bytes that the sink got.
    pub fn bytes(&self) -> &[u8]
        ensures { result.now ≡ self.now }
    {
        &self.got
    }
}

impl Sink for CalmSink {
    ghost got = { λ s. Some s };

    ghost faults = { λ _. 0 };

    /// Writes all the bytes, or none if memory runs out.
    fn write(&mut self, bytes: &[u8]) -> Result<usize, SinkFail>
        ensures ok { IfOk result (λ n. n ≡ length bytes.now) }
        ensures err { OnErr result (self.new ≡ self.old) }
        ensures bytes { IfOk result (λ n. self.new ≡ self.old ++ take n bytes.now) }
        ensures no_memory_alone { OnErr result (IsErrOf result SinkFail.NoMemory) }
    {
        self.got.extend_from_slice(bytes)?;
        Ok(bytes.len())
    }
}

/// Bytes in memory as a source, of which chosen reads fail.
#[derive(Drop)]
pub struct MemSource {
    source: CalmSource,
    reads: Calls,
}

impl Model for MemSource {
    ghost use Rattle.kte_causes.specs.Memory.{SourceState};

    ghost Value = { SourceState };

    ghost view = { λ s. record {
      left = s.source;
      failing = s.reads.failing.items;
      made = s.reads.made;
      faults = s.reads.faults;
    } };
}

impl MemSource {
    /// Makes a source of these bytes. The reads with these numbers fail.
    pub fn new(bytes: Vec<u8>, failing: Vec<u64>) -> Self
        ensures left { result.left ≡ bytes.items }
        ensures failing { result.failing ≡ failing.items }
        ensures made { result.made ≡ 0 }
        ensures faults { result.faults ≡ 0 }
    {
        MemSource {
            source: CalmSource::new(bytes),
            reads: Calls::new(failing),
        }
    }
}

impl Source for MemSource {
    ghost left = { λ s. Some s.left };

    ghost faults = { λ s. s.faults };

    fn read(&mut self, buf: &mut [u8]) -> Result<usize, SourceFail>
        requires { 0 < length buf.old }
        ensures planned { IsErr result ↔ Contains self.old.failing self.old.made }
        ensures made { self.new.made ≡ raised self.old.made }
        ensures failing { self.new.failing ≡ self.old.failing }
        ensures most { IfOk result (λ n. n ≡ min (length buf.old) (length self.old.left)) }

        ensures within { IfOk result (λ n. n ≤ length buf.old) }
        ensures bytes { IfOk result (λ n. self.old.left ≡ take n buf.new ++ self.new.left) }
        ensures end { IfOk result (λ n. (n ≡ 0) ↔ (self.old.left ≡ [])) }
        ensures end_after { IfOk result (λ n. n ≡ 0 → self.new.left ≡ []) }
        ensures err { OnErr result (self.new.left ≡ self.old.left) }
        ensures counts { CountsFault SourceFail.Failed result self.old.faults self.new.faults }
    {
        if self.reads.fails() {
            return Err(SourceFail::Failed);
        }
        self.source.read(buf)
    }
}

/// A sink in memory, of which chosen writes fail.
#[derive(Drop)]
pub struct MemSink {
    sink: CalmSink,
    writes: Calls,
}

impl Model for MemSink {
    ghost use Rattle.kte_causes.specs.Memory.{SinkState};

    ghost Value = { SinkState };

    ghost view = { λ s. record {
      got = s.sink;
      failing = s.writes.failing.items;
      made = s.writes.made;
      faults = s.writes.faults;
    } };
}

impl MemSink {
    /// Makes a sink that got nothing yet. The writes with these numbers fail.
    pub fn new(alloc: Global, failing: Vec<u64>) -> Self
        ensures got { result.got ≡ [] }
        ensures failing { result.failing ≡ failing.items }
        ensures made { result.made ≡ 0 }
        ensures faults { result.faults ≡ 0 }
    {
        MemSink {
            sink: CalmSink::new(alloc),
            writes: Calls::new(failing),
        }
    }

    /// Returns the bytes that the sink got.
    pub fn bytes(&self) -> &[u8]
        ensures { result.now ≡ self.now.got }
    {
        self.sink.bytes()
    }
}

impl Sink for MemSink {
    ghost got = { λ s. Some s.got };

    ghost faults = { λ s. s.faults };

    /// Writes all the bytes or none.
    fn write(&mut self, bytes: &[u8]) -> Result<usize, SinkFail>
        ensures planned { IsErrOf result SinkFail.Failed ↔ Contains self.old.failing self.old.made }
        ensures made { self.new.made ≡ raised self.old.made }
        ensures failing { self.new.failing ≡ self.old.failing }
        ensures all { IfOk result (λ n. n ≡ length bytes.now) }

        ensures bytes { IfOk result (λ n. self.new.got ≡ self.old.got ++ take n bytes.now) }
        ensures err { OnErr result (self.new.got ≡ self.old.got) }
        ensures counts { CountsFault SinkFail.Failed result self.old.faults self.new.faults }
    {
        if self.writes.fails() {
            return Err(SinkFail::Failed);
        }
        self.sink.write(bytes)
    }
}
