//! A script, and reading it.
ghost use Rattle.std.specs.Prelude.{◌≡◌, ◌≢◌, ℕ, ◌+◌, ◌-◌, ◌<◌, ◌≤◌, ◌↔◌, [], ◌∷◌, ◌++◌, List, length, slice_get, Some, Ok, Err, IfOk, IfErr, OnOk, OnErr, IsTrue, All, MatchResult};
ghost use Rattle.kte_command.specs.Commands.{InRange};
ghost use Rattle.kte_script.specs.declared.TheConstants.{MAX_COMMANDS, MAX_SCRIPT_LENGTH};
ghost use Rattle.kte_script.specs.declared.fault.ScriptFault.TheVariants as fault;
ghost use Rattle.kte_script.specs.Limits.{InLimits};
ghost use Rattle.kte_script.specs.Script.{script_of, lines_of, read_from, after_all, FailsScript};

use crate::fault::ScriptFault;
use crate::lines::{command_of, split_line};
use crate::{MAX_COMMANDS, MAX_SCRIPT_LENGTH};
use kte_command::Command;
use std::alloc::{AllocError, Global};
use std::marker::Model;

/// Commands, in the order in which they are carried out.
#[derive(Debug, Drop)]
pub struct Script {
    commands: Vec<Command>,
}

impl Model for Script {
    ghost use Rattle.std.specs.Prelude.{List};
    ghost use Rattle.kte_command.specs.declared.command.Command.{Command};

    ghost Value = { List Command };

    ghost view = { λ script. script.commands.items };
}

impl Script {
    /// Creates an empty script, without allocating.
    pub fn new(alloc: Global) -> Script
        ensures { result ≡ [] }
    {
        Script {
            commands: Vec::new(alloc),
        }
    }

    /// Appends a command. If out of memory, the script is unchanged.
    pub fn push(&mut self, command: Command) -> Result<(), AllocError>
        ensures ok { OnOk result (self.new ≡ self.old ++ command ∷ []) }
        ensures err { OnErr result (self.new ≡ self.old) }
    {
        self.commands.push(command)?;
        Ok(())
    }

    /// Returns the number of commands.
    pub fn len(&self) -> u64
        ensures { result ≡ length self.now }
    {
        self.commands.len() as u64
    }

    /// Returns `true` if there is no command.
    pub fn is_empty(&self) -> bool
        ensures { IsTrue result ↔ (self.now ≡ []) }
    {
        self.commands.is_empty()
    }

    /// Returns the commands themselves, without copying.
    pub fn into_commands(self) -> Vec<Command>
        ensures { result.items ≡ self }
    {
        self.commands
    }

    /// Returns command `n`, counted from 0.
    pub fn get(&self, n: u64) -> &Command
        requires { n < length self.now }
        ensures { slice_get self.now n ≡ Some result.now }
    {
        &self.commands[n as usize]
    }
}

/// Reads a script. Fails with its first fault, by line and column, or if out of memory. Whether a
/// script is too long is judged before anything else.
pub fn read_script(alloc: Global, bytes: &[u8]) -> Result<Script, ScriptFault>
    ensures commands { IfOk result (λ script. script_of bytes.now ≡ Ok script) }
    ensures fault { IfErr result (λ given. given ≢ fault.NoMemory
        → script_of bytes.now ≡ Err given) }
    ensures too_long { (result ≡ Err fault.TooLong) ↔ (MAX_SCRIPT_LENGTH < length bytes.now) }
    ensures few { IfOk result (λ script. length script ≤ MAX_COMMANDS) }
    ensures limits { IfOk result (λ script. All InLimits script) }
    ensures in_range { IfOk result (λ script. All InRange script) }
{
    if bytes.len() as u64 > MAX_SCRIPT_LENGTH {
        return Err(ScriptFault::TooLong);
    }
    Ok(Script {
        commands: read_lines(alloc, bytes)?,
    })
}

/// Reads the lines of a script.
fn read_lines(alloc: Global, bytes: &[u8]) -> Result<Vec<Command>, ScriptFault>
    requires { length bytes.now ≤ MAX_SCRIPT_LENGTH }
    ensures read { MatchResult result
        (λ commands. read_from 1 MAX_COMMANDS (lines_of bytes.now) ≡ Ok commands.items)
        (λ given. FailsScript given (read_from 1 MAX_COMMANDS (lines_of bytes.now))) }
    ensures few { IfOk result (λ commands. length commands.items ≤ MAX_COMMANDS) }
    ensures short { IfErr result (λ given. given ≢ fault.TooLong) }
{
    let mut commands = Vec::new(alloc);
    let mut rest = bytes;
    let mut number = 1_u64;
    'lines: loop {
        let (line, more) = split_line(rest);
        add_line(alloc, &mut commands, number, line)?;
        let Some(after) = more else {
            return Ok(commands);
        };
        rest = after;
        number += 1;
    }
}

/// Appends the command of line `number`, from 1, if it has one.
fn add_line(
    alloc: Global,
    commands: &mut Vec<Command>,
    number: u64,
    line: &[u8],
) -> Result<(), ScriptFault>
    requires few { length commands.old.items ≤ MAX_COMMANDS }
    requires short { length line.now ≤ MAX_SCRIPT_LENGTH }
    ensures read { MatchResult result
        (λ _. (lines : List (List ℕ))
        → after_all commands.new.items
        (read_from (number + 1) (MAX_COMMANDS - length commands.new.items) lines)
        ≡ after_all commands.old.items
        (read_from number (MAX_COMMANDS - length commands.old.items) (line.now ∷ lines)))
        (λ given. (lines : List (List ℕ)) → FailsScript given
        (read_from number (MAX_COMMANDS - length commands.old.items) (line.now ∷ lines))) }
    ensures few { OnOk result (length commands.new.items ≤ MAX_COMMANDS) }
    ensures short { IfErr result (λ given. given ≢ fault.TooLong) }
{
    if let Some(command) = command_of(alloc, number, line)? {
        if commands.len() >= MAX_COMMANDS {
            return Err(ScriptFault::TooMany { line: number });
        }
        commands.push(command)?;
    }
    Ok(())
}
