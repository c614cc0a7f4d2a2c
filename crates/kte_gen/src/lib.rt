//! A generator of scripts: a number and a count give the same commands each time.
//!
//! Each command is within the lines that the commands before it leave. The numbers come from a
//! linear congruential generator modulo 2^64, of which a draw gives the upper bits. [`make_script`]
//! returns the whole script, and `specs/Commands.antt` defines it.
//!
//! - `draws`: drawing numbers, letters and places
//! - `commands`: one function for each kind of command
#![tactic(auto)]

ghost use Rattle.std.specs.Prelude.{◌≡◌, ◌≤◌, IfOk};
ghost use Rattle.kte_gen.specs.Commands.{script_of};

mod commands;
mod draws;
#[cfg(test)]
mod tests;

use crate::commands::add_command;
use std::alloc::{AllocError, Global};

/// The most commands of a script.
pub const MAX_COMMANDS: u32 = 100_000;

/// The most letters of all lines: 8 for each command.
pub const MAX_LETTERS: u64 = 800_000;

/// Returns the script of a number and a count of commands: one command a line, each with LF at its
/// end. Fails if out of memory.
pub fn make_script(alloc: Global, number: u64, count: u32) -> Result<Vec<u8>, AllocError>
    requires some { 1 ≤ count }
    requires most { count ≤ MAX_COMMANDS }
    ensures script { IfOk result (λ script. script.items ≡ script_of number count) }
{
    let mut x = number;
    let mut lengths = Vec::new(alloc);
    lengths.push(0)?;
    let mut script = Vec::new(alloc);
    for _ in 0..count {
        add_command(&mut x, &mut lengths, &mut script)?;
    }
    Ok(script)
}
