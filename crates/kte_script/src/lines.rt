//! The lines of a script, and what each of them says.
ghost use Rattle.std.specs.Prelude.{◌≡◌, ◌+◌, ◌^◌, ◌<◌, ◌≤◌, length};
ghost use Rattle.kte_script.specs.declared.TheConstants.{MAX_SCRIPT_LENGTH};
ghost use Rattle.kte_script.specs.declared.fault.ScriptFault.TheVariants.{Bad};
ghost use Rattle.kte_script.specs.Script.{without_cr, is_skipped, meaning, Tells, FirstLine};

use crate::commands::read_line;
use crate::ends::split_end;
use crate::fault::{ReadError, ScriptFault};
use crate::fields::skip;
use kte_command::Command;
use std::alloc::Global;

/// Returns the first line, without its end, and the bytes after its end; `None` if no LF ends it.
pub(crate) fn split_line(bytes: &[u8]) -> (&[u8], Option<&[u8]>)
    ensures first { FirstLine bytes.now result.0.now result.1 }
    ensures within { length result.0.now ≤ length bytes.now }
{
    let (line, more) = split_end(bytes);
    match more {
        Some(rest) => (trimmed(line), Some(rest)),
        None => (line, None),
    }
}

/// Returns the command of line `number`, from 1, if it has one.
#[tactic(auto, unfolding(crate::specs::Script::meaning))]
pub(crate) fn command_of(
    alloc: Global,
    number: u64,
    line: &[u8],
) -> Result<Option<Command>, ScriptFault>
    requires { length line.now ≤ MAX_SCRIPT_LENGTH }
    ensures { Tells number result (meaning line.now) }
{
    if let Err(error) = simdutf8::compat::from_utf8(line) {
        return Err(bad(number, error.valid_up_to()));
    }
    if is_skipped(skip(line)) {
        return Ok(None);
    }
    match read_line(alloc, line) {
        Ok(command) => Ok(Some(command)),
        Err(ReadError::NoMemory) => Err(ScriptFault::NoMemory),
        Err(ReadError::Misfit { left }) => Err(bad(number, line.len().saturating_sub(left))),
    }
}

/// Returns the fault of line `line`, from 1, at the byte after this many.
fn bad(line: u64, before: usize) -> ScriptFault
    requires { before < 2 ^ 63 }
    ensures { result ≡ Bad line (before + 1) }
{
    ScriptFault::Bad {
        line,
        column: before as u64 + 1,
    }
}

/// Returns a line that LF ends without the CR that belongs to its end.
fn trimmed(line: &[u8]) -> &[u8]
    ensures value { result.now ≡ without_cr line.now }
    ensures within { length result.now ≤ length line.now }
{
    line.strip_suffix(b"\r").unwrap_or(line)
}

/// Whether there is no word, or the first word begins with `#`.
fn is_skipped(words: &[u8]) -> bool
    ensures { result ≡ is_skipped words.now }
{
    match words {
        [] => true,
        [byte, ..] => *byte == b'#',
    }
}
