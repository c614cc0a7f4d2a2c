//! A source read to its end, and bytes written to the last.
ghost use Rattle.std.specs.Prelude.{◌≡◌, ℕ, ◌+◌, ◌<◌, ◌≤◌, ◌↔◌, List, [], ◌++◌, length, take, vec_len, IfOk, IfSome, OnOk, OnErr, IsErrOf};
ghost use Rattle.std.specs.Io.KnownBytes.{Appends, IsAtEnd};
ghost use Rattle.kte_causes.specs.Faults.{CountsFault};
ghost use Rattle.kte_causes.specs.Contents.{ConsumesSome, AppendsPrefix};

use crate::causes::{ReadFault, SinkFail};
use crate::outside::{Sink, Source};
use std::alloc::Global;

/// The most bytes that one read is asked for.
const PIECE: usize = 4096;

/// Reads all that is left, if it is at most `limit` bytes. Takes at most `limit + 1` bytes from the
/// source. After an error some first bytes were taken, or none.
pub fn read_whole<S: Source>(
    alloc: Global,
    source: &mut S,
    limit: u64,
) -> Result<Vec<u8>, ReadFault>
    ensures whole { IfOk result (λ bytes. IfSome (S.left source.old) (λ left. bytes.items ≡ left)) }
    ensures to_the_end { OnOk result (IsAtEnd (S.left source.new)) }
    ensures within { IfOk result (λ bytes. vec_len bytes ≤ limit) }
    ensures too_long { IfSome (S.left source.old) (λ before. IfSome (S.left source.new) (λ after.
        IsErrOf result ReadFault.TooLong ↔ (length after + limit < length before))) }
    ensures taken { ConsumesSome (S.left source.old) (S.left source.new) }
    ensures at_most { IfSome (S.left source.old) (λ before. IfSome (S.left source.new) (λ after.
        length before ≤ length after + limit + 1)) }
    ensures counts { CountsFault ReadFault.Failed result (S.faults source.old)
        (S.faults source.new) }
{
    let mut bytes = Vec::new(alloc);
    let mut piece = [0; PIECE];
    loop {
        let room = limit - bytes.len() as u64;
        let asked = room.min(PIECE as u64 - 1) as usize + 1;
        let count = source.read(&mut piece[..asked])?;
        if count == 0 {
            return Ok(bytes);
        }
        if count as u64 > room {
            return Err(ReadFault::TooLong);
        }
        bytes.extend_from_slice(&piece[..count])?;
    }
}

/// Writes all the bytes. After an error the sink got the first of them, or none.
pub fn write_whole<O: Sink>(sink: &mut O, bytes: &[u8]) -> Result<(), SinkFail>
    ensures whole { OnOk result (Appends (O.got sink.old) (O.got sink.new) bytes.now) }
    ensures prefix { OnErr result (AppendsPrefix (O.got sink.old) (O.got sink.new) bytes.now) }
    ensures counts { CountsFault SinkFail.Failed result (O.faults sink.old) (O.faults sink.new) }
{
    let mut written = 0;
    while written < bytes.len() {
        written += sink.write(&bytes[written..])?;
    }
    Ok(())
}
