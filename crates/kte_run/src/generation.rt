ghost use Rattle.std.specs.Prelude.{◌≡◌, ◌≤◌, length, IfOk, IfSome, IsSomeAnd, Ok, Some, All};
ghost use Rattle.kte_causes.specs.Moments.{AddsMoments, Staying, latest};
ghost use Rattle.kte_record.specs.Recovery.{Answer, Answers};
ghost use Rattle.kte_recover.specs.Answers.{answer_of};
ghost use Rattle.kte_command.specs.Commands.{InRange};
ghost use Rattle.kte_script.specs.Script.{script_of};
ghost use Rattle.kte_gen.specs.Commands as generator;
ghost use Rattle.kte_gen.specs.declared.TheConstants.{MAX_COMMANDS};
ghost use Rattle.kte_run.specs.Files.{file_now};
ghost use Rattle.kte_run.specs.Generate.{IsGeneration, Summarises, done_of};

use crate::MAX_REVISIONS;
use crate::alone::carry_out;
use crate::saved::{DiskFile, length_of, read_file};
use crate::status::Status;
use kte_causes::{CalmDisk, Sink, write_whole};
use kte_command::Command;
use kte_core::Core;
use kte_find::PlainChecker;
use kte_gen::make_script;
use kte_recover::{RecoverFault, Recovered, recover};
use kte_report::push_summary;
use kte_script::{ScriptFault, read_script};
use kte_swap::Swap;
use kte_text::{LoadFault, digest, load};
use std::alloc::{AllocError, Global};

/// Makes a script of so many commands from a number, edits an empty text by it as [`edit_alone`]
/// does, over a disk in memory, recovers its swap file, and writes a summary to the sink.
///
/// [`edit_alone`]: crate::edit_alone
pub fn generate<O: Sink>(alloc: Global, number: u64, count: u32, out: &mut O) -> Status
    requires some { 1 ≤ count }
    requires most { count ≤ MAX_COMMANDS }
    ensures { IsGeneration number count (O.got out.old) (O.got out.new) (O.faults out.old)
        (O.faults out.new) result }
{
    let Ok(output) = summarised(alloc, number, count) else {
        return Status::NoMemory;
    };
    match write_whole(out, &output) {
        Ok(()) => Status::Ok,
        Err(fail) => Status::from(fail),
    }
}

/// Returns the summary of the run of a generated script.
fn summarised(alloc: Global, number: u64, count: u32) -> Result<Vec<u8>, AllocError>
    requires some { 1 ≤ count }
    requires most { count ≤ MAX_COMMANDS }
    ensures { IfOk result (λ output. Summarises number count output.items) }
{
    let commands = generated(alloc, number, count)?;
    let file: Vec<u8> = Vec::new(alloc);
    let mut disk = CalmDisk::new(Vec::new(alloc), Vec::new(alloc));
    let loaded = match load(alloc, &file) {
        Ok(loaded) => loaded,
        Err(LoadFault::NoMemory) => return Err(AllocError),
        // An empty file has no other fault.
        Err(LoadFault::LongFile) => unreachable!(),
        Err(LoadFault::NotUtf8 { .. }) => unreachable!(),
        Err(LoadFault::TooLarge { .. }) => unreachable!(),
    };
    let swap = Swap::new(alloc, digest(&file));
    let mut core = Core::new(alloc, loaded, MAX_REVISIONS)?;
    carry_out(alloc, &mut core, commands, swap, &mut disk, &PlainChecker)?;
    let recovered = recovered(alloc, &mut disk)?;
    let mut output = Vec::new(alloc);
    push_summary(&core, count, recovered, &mut output)?;
    Ok(output)
}

/// Returns the commands of a generated script.
fn generated(alloc: Global, number: u64, count: u32) -> Result<Vec<Command>, AllocError>
    requires some { 1 ≤ count }
    requires most { count ≤ MAX_COMMANDS }
    ensures spelled { IfOk result (λ commands.
        script_of (generator.script_of number count) ≡ Ok commands.items) }
    ensures counted { IfOk result (λ commands. length commands.items ≡ count) }
    ensures in_range { IfOk result (λ commands. All InRange commands.items) }
{
    let script = make_script(alloc, number, count)?;
    match read_script(alloc, &script) {
        Ok(commands) => Ok(commands.into_commands()),
        Err(ScriptFault::NoMemory) => Err(AllocError),
        // A generated script has no other fault.
        Err(ScriptFault::Bad { .. }) => unreachable!(),
        Err(ScriptFault::TooMany { .. }) => unreachable!(),
        Err(ScriptFault::TooLong) => unreachable!(),
    }
}

/// Returns how many transactions of the disk's swap file recover.
fn recovered(alloc: Global, disk: &mut CalmDisk) -> Result<u64, AllocError>
    ensures { IfOk result (λ done. (answer : Answer)
        × Answers (latest disk.old).saved (latest disk.old).swap answer
        × (done ≡ done_of answer)) }
{
    let saved = bytes_of(alloc, disk, DiskFile::Saved)?;
    let swap = bytes_of(alloc, disk, DiskFile::Swap)?;
    done_in(recover(alloc, &saved, &swap))
}

/// Returns the bytes of a file of the disk.
fn bytes_of(alloc: Global, disk: &mut CalmDisk, file: DiskFile) -> Result<Vec<u8>, AllocError>
    ensures bytes { IfOk result (λ bytes. IfSome (file_now file (Some disk.old))
        (λ there. bytes.items ≡ there)) }
    ensures files { AddsMoments Staying (Some disk.old) (Some disk.new) }
{
    let Ok(size) = length_of(disk, file) else {
        return Err(AllocError);
    };
    match read_file(alloc, disk, file, size) {
        Ok(bytes) => Ok(bytes),
        Err(_) => Err(AllocError),
    }
}

/// Returns how many transactions count in what a recovery found.
fn done_in(found: Result<Recovered, RecoverFault>) -> Result<u64, AllocError>
    ensures { IfOk result (λ done. IsSomeAnd (answer_of found) (λ answer. done ≡ done_of answer)) }
{
    match found {
        Ok(recovered) => Ok(recovered.done),
        Err(RecoverFault::Damaged(damage)) => Ok(damage.done),
        Err(RecoverFault::NoMemory) => Err(AllocError),
        Err(_) => Ok(0),
    }
}
