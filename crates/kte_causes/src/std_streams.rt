//! Readers and writers of std as sources and sinks.
//!
//! They tell what the reader or writer in them tells; those of the system tell nothing. A call that
//! the system interrupts is made again.
ghost use Rattle.std.specs.Prelude.{◌≡◌, ℕ, ◌<◌, ◌≤◌, length, take, IfOk, OnErr};
ghost use Rattle.std.specs.Io.KnownBytes.{Consumes, Appends, Keeps, IsAtEnd};

use crate::causes::{SinkFail, SourceFail};
use crate::io_fault::IoFault;
use crate::outside::{Sink, Source};
use std::io::{ErrorKind, Read, Write};

/// A reader of std as a source.
#[derive(Drop)]
pub struct StdSource<R> {
    reader: R,
    faults: u64,
}

impl<R: Read> StdSource<R> {
    /// Makes a source over this reader, as `StdSource::new(rt.reader())`.
    pub fn new(reader: R) -> Self
        ensures left { ⟦<StdSource<R> as Source>⟧.left result ≡ R.remaining reader }
        ensures faults { ⟦<StdSource<R> as Source>⟧.faults result ≡ 0 }
    {
        StdSource { reader, faults: 0 }
    }
}

/// Reads once, and again after each interruption.
fn read_some<R: Read>(reader: &mut R, buf: &mut [u8]) -> Result<usize, IoFault>
    ensures within { IfOk result (λ n. n ≤ length buf.old) }
    ensures bytes { IfOk result (λ n. Consumes (R.remaining reader.old) (R.remaining reader.new)
        (take n buf.new)) }
    ensures end { IfOk result (λ n. n ≡ 0 → 0 < length buf.old
        → IsAtEnd (R.remaining reader.new)) }
    ensures err { OnErr result (Keeps (R.remaining reader.old) (R.remaining reader.new)) }
{
    for _ in 0..u64::MAX {
        match reader.read(buf) {
            Ok(count) => return Ok(count),
            Err(e) => {
                if e.kind() != ErrorKind::Interrupted {
                    return Err(IoFault::from(e));
                }
            }
        }
    }
    Err(IoFault::Failed)
}

impl<R: Read> Source for StdSource<R> {
    ghost left = { λ s. R.remaining s.reader };

    ghost faults = { λ s. s.faults };

    fn read(&mut self, buf: &mut [u8]) -> Result<usize, SourceFail> {
        match read_some(&mut self.reader, buf) {
            Ok(count) => Ok(count),
            Err(_) => {
                self.faults = self.faults.saturating_add(1);
                Err(SourceFail::Failed)
            }
        }
    }
}

/// A writer of std as a sink.
#[derive(Drop)]
pub struct StdSink<W> {
    writer: W,
    faults: u64,
}

impl<W: Write> StdSink<W> {
    /// Makes a sink over this writer, as `StdSink::new(io::writer(&rt))`.
    pub fn new(writer: W) -> Self
        ensures got { ⟦<StdSink<W> as Sink>⟧.got result ≡ W.contents writer }
        ensures faults { ⟦<StdSink<W> as Sink>⟧.faults result ≡ 0 }
    {
        StdSink { writer, faults: 0 }
    }
}

/// Writes once, and again after each interruption. A writer that takes nothing of some bytes has
/// failed.
fn write_some<W: Write>(writer: &mut W, bytes: &[u8]) -> Result<usize, IoFault>
    ensures within { IfOk result (λ n. n ≤ length bytes.now) }
    ensures some { 0 < length bytes.now → IfOk result (λ n. 0 < n) }
    ensures bytes { IfOk result (λ n. Appends (W.contents writer.old) (W.contents writer.new)
        (take n bytes.now)) }
    ensures err { OnErr result (Keeps (W.contents writer.old) (W.contents writer.new)) }
{
    for _ in 0..u64::MAX {
        match writer.write(bytes) {
            Ok(0) if !bytes.is_empty() => return Err(IoFault::Failed),
            Ok(count) => return Ok(count),
            Err(e) => {
                if e.kind() != ErrorKind::Interrupted {
                    return Err(IoFault::from(e));
                }
            }
        }
    }
    Err(IoFault::Failed)
}

impl<W: Write> Sink for StdSink<W> {
    ghost got = { λ s. W.contents s.writer };

    ghost faults = { λ s. s.faults };

    fn write(&mut self, bytes: &[u8]) -> Result<usize, SinkFail> {
        match write_some(&mut self.writer, bytes) {
            Ok(count) => Ok(count),
            Err(IoFault::NoMemory) => Err(SinkFail::NoMemory),
            Err(IoFault::Failed) => {
                self.faults = self.faults.saturating_add(1);
                Err(SinkFail::Failed)
            }
        }
    }
}
