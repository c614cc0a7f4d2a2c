ghost use Rattle.std.specs.Prelude.{◌≡◌, ◌≢◌, ◌-◌, ◌<◌, ◌≤◌, ◌↔◌, ◌++◌, ◌^◌, true, length, Ok, Err, IfOk, IfErr, IfSome, IsErrOf, OnOk, All};
ghost use Rattle.kte_causes.specs.Faults.{Rose};
ghost use Rattle.std.specs.Io.KnownBytes.{IsAtEnd};
ghost use Rattle.kte_command.specs.Commands.{InRange};
ghost use Rattle.kte_script.specs.Script.{script_of};
ghost use Rattle.kte_script.specs.declared.TheConstants.{MAX_COMMANDS};
ghost use Rattle.kte_words.specs.Words.{FirstMisfit, Spells};
ghost use Rattle.kte_words.specs.declared.TheConstants.{MAX_WORKERS};
ghost use Rattle.kte_words.specs.declared.words.Words.TheVariants as command;
ghost use Rattle.kte_core.specs.Replay.{present};
ghost use Rattle.kte_report.specs.Journal.{journal_text};
ghost use Rattle.kte_report.specs.Report.{report};
ghost use Rattle.kte_run.specs.Alone.{CanBegin, GoesOn};
ghost use Rattle.kte_run.specs.Edit.{EndsEarly, IsBegun, IsEdited, IsWritten, inputs};
ghost use Rattle.kte_run.specs.Generate.{IsGeneration};
ghost use Rattle.kte_run.specs.Recover.{IsRecovery};
ghost use Rattle.kte_run.specs.Run.{IsEdit, outer, outside};
ghost use Rattle.kte_run.specs.Statuses.{is_of_script};

use crate::MAX_REVISIONS;
use crate::alone::carry_out;
use crate::crew::carry_out_beside;
use crate::generation::generate;
use crate::recover::recover_file;
use crate::saved::{check_no_swap, load_saved};
use crate::status::Status;
use kte_causes::{Disk, Sink, Source, read_whole, write_whole};
use kte_command::Command;
use kte_core::Core;
use kte_find::Checker;
use kte_report::{push_journal, push_report};
use kte_script::{MAX_SCRIPT_LENGTH, ScriptFault, read_script};
use kte_swap::Swap;
use kte_text::{Digest, Loaded, digest};
use kte_words::{Word, Words, parse};
use std::alloc::{AllocError, Global};
use std::sync::Wait;
use std::thread::Threads;

/// Does what the words say: `edit FILE` does what [`edit_alone`] does, `check N FILE` what
/// [`edit_checked`] does with N checkers, and `recover FILE` what [`recover_file`] does, over the
/// disk of this file; `gen NUMBER COUNT` does what [`generate`] does. Words that are no command are
/// refused first, and nothing is asked of script, disk or sink.
pub fn run<R: Threads + Wait + Sync, S: Source, O: Sink, D: Disk + Send, K: Checker + Sync>(
    rt: &R,
    alloc: Global,
    words: &[Word],
    script: &mut S,
    disk: &mut D,
    out: &mut O,
    checker: &K,
) -> Status
    ensures bad_words { (at : _)
        → (result ≡ Status.BadWords at) ↔ (FirstMisfit words.now at) }
    ensures bad_words_alone { (at : _) → result ≡ Status.BadWords at
        → (script.new ≡ script.old) × (disk.new ≡ disk.old) × (out.new ≡ out.old) }
    ensures edit { (file : _) → Spells words.now (command.Edit file) → IsEdit 0
        (outside (S.left script.old) (S.faults script.old) (D.moments disk.old)
        (D.faults disk.old) (O.got out.old) (O.faults out.old))
        (outside (S.left script.new) (S.faults script.new) (D.moments disk.new)
        (D.faults disk.new) (O.got out.new) (O.faults out.new))
        (disk.new ≡ disk.old) (out.new ≡ out.old) result }
    ensures check { (workers file : _) → Spells words.now (command.Check workers file) → IsEdit workers
        (outside (S.left script.old) (S.faults script.old) (D.moments disk.old)
        (D.faults disk.old) (O.got out.old) (O.faults out.old))
        (outside (S.left script.new) (S.faults script.new) (D.moments disk.new)
        (D.faults disk.new) (O.got out.new) (O.faults out.new))
        (disk.new ≡ disk.old) (out.new ≡ out.old) result }
    ensures recover { (file : _) → Spells words.now (command.Recover file)
        → (script.new ≡ script.old) × IsRecovery
        (outer (D.moments disk.old) (D.faults disk.old))
        (outer (D.moments disk.new) (D.faults disk.new))
        (O.got out.old) (O.got out.new) (O.faults out.old) (O.faults out.new)
        (out.new ≡ out.old) result }
    ensures generate { (number count : _) → Spells words.now (command.Gen number count)
        → (script.new ≡ script.old) × (disk.new ≡ disk.old) × IsGeneration number count
        (O.got out.old) (O.got out.new) (O.faults out.old) (O.faults out.new) result }
{
    match parse(words) {
        Ok(Words::Edit { .. }) => edit_alone(alloc, script, disk, out, checker),
        Ok(Words::Check { workers, .. }) => {
            edit_checked(rt, alloc, workers, script, disk, out, checker)
        }
        Ok(Words::Recover { .. }) => recover_file(alloc, disk, out),
        Ok(Words::Gen { number, count }) => generate(alloc, number, count, out),
        Err(fault) => Status::BadWords { at: fault.at },
    }
}

/// Edits the disk's saved file by a script, on one thread: reads the script from the source,
/// carries out its commands on the text of the file, closes the session, does each job that was
/// posted, and writes the journal and the report to the sink. While it edits, it writes each
/// finished transaction to the swap file; a save replaces the saved file and empties the swap file.
///
/// The script is judged first, then that there is no swap file, then the saved file, and the output
/// is written last. A status says that all before it went well, and nothing is asked of what comes
/// after it.
pub fn edit_alone<S: Source, O: Sink, D: Disk, K: Checker>(
    alloc: Global,
    script: &mut S,
    disk: &mut D,
    out: &mut O,
    checker: &K,
) -> Status
    ensures { IsEdit 0
        (outside (S.left script.old) (S.faults script.old) (D.moments disk.old)
        (D.faults disk.old) (O.got out.old) (O.faults out.old))
        (outside (S.left script.new) (S.faults script.new) (D.moments disk.new)
        (D.faults disk.new) (O.got out.new) (O.faults out.new))
        (disk.new ≡ disk.old) (out.new ≡ out.old) result }
{
    let begun = match begin(alloc, script, disk) {
        Ok(begun) => begun,
        Err(status) => return status,
    };
    match edited_alone(alloc, begun, disk, checker) {
        Ok((output, ending)) => write_output(out, &output, ending),
        Err(AllocError) => Status::NoMemory,
    }
}

/// Edits as [`edit_alone`] does, but for the jobs: so many checkers do them, each in a thread of its
/// own beside the editor's. This may wait.
///
/// If a checker runs out of memory, it gives its job back and stops; the editor goes on to its end,
/// and nothing is written.
pub fn edit_checked<
    R: Threads + Wait + Sync,
    S: Source,
    O: Sink,
    D: Disk + Send,
    K: Checker + Sync,
>(
    rt: &R,
    alloc: Global,
    workers: u32,
    script: &mut S,
    disk: &mut D,
    out: &mut O,
    checker: &K,
) -> Status
    requires some { 1 ≤ workers }
    requires most { workers ≤ MAX_WORKERS }
    ensures { IsEdit workers
        (outside (S.left script.old) (S.faults script.old) (D.moments disk.old)
        (D.faults disk.old) (O.got out.old) (O.faults out.old))
        (outside (S.left script.new) (S.faults script.new) (D.moments disk.new)
        (D.faults disk.new) (O.got out.new) (O.faults out.new))
        (disk.new ≡ disk.old) (out.new ≡ out.old) result }
{
    let begun = match begin(alloc, script, disk) {
        Ok(begun) => begun,
        Err(status) => return status,
    };
    match edited_beside(rt, alloc, workers, begun, disk, checker) {
        Ok((output, ending)) => write_output(out, &output, ending),
        Err(AllocError) => Status::NoMemory,
    }
}

/// What an edit begins with: the commands of the script, the saved file, and the writer of the swap
/// file, which is empty.
#[derive(Drop)]
struct Begun {
    commands: Vec<Command>,
    loaded: Loaded,
    swap: Swap,
}

/// Reads the script, and then the saved file, unless there is a swap file.
fn begin<S: Source, D: Disk>(alloc: Global, script: &mut S, disk: &mut D) -> Result<Begun, Status>
    ensures begun { IfOk result (λ begun. IsBegun
        (inputs (S.left script.old) (S.faults script.old) (D.moments disk.old)
        (D.faults disk.old))
        (inputs (S.left script.new) (S.faults script.new) (D.moments disk.new)
        (D.faults disk.new))
        begun.commands.items begun.loaded begun.swap) }
    ensures can { IfOk result (λ begun. CanBegin begun.commands.items begun.swap) }
    ensures early { IfErr result (EndsEarly
        (inputs (S.left script.old) (S.faults script.old) (D.moments disk.old)
        (D.faults disk.old))
        (inputs (S.left script.new) (S.faults script.new) (D.moments disk.new)
        (D.faults disk.new))
        (disk.new ≡ disk.old)) }
{
    let commands = read_commands(alloc, script)?;
    check_no_swap(disk)?;
    let (bytes, loaded) = load_saved(alloc, disk)?;
    let swap = Swap::new(alloc, digest(&bytes));
    Ok(Begun {
        commands,
        loaded,
        swap,
    })
}

/// Reads the script's commands.
fn read_commands<S: Source>(alloc: Global, script: &mut S) -> Result<Vec<Command>, Status>
    ensures commands { IfOk result (λ commands. IfSome (S.left script.old)
        (λ bytes. script_of bytes ≡ Ok commands.items)) }
    ensures in_range { IfOk result (λ commands. All InRange commands.items) }
    ensures few { IfOk result (λ commands. length commands.items ≤ MAX_COMMANDS) }
    ensures whole { OnOk result (IsAtEnd (S.left script.new)) }
    ensures calm { OnOk result (S.faults script.new ≡ S.faults script.old) }
    ensures only { IfErr result (λ status. is_of_script status ≡ true) }
    ensures failed { IsErrOf result Status.ReadFault
        → Rose (S.faults script.old) (S.faults script.new) }
    ensures failed_comes { S.faults script.old < S.faults script.new
        → result ≡ Err Status.ReadFault }
    ensures bad_script { (fault : _) → IsErrOf result (Status.BadScript fault)
        → (fault ≢ ScriptFault.NoMemory) × (S.faults script.new ≡ S.faults script.old)
        × IfSome (S.left script.old) (λ bytes. script_of bytes ≡ Err fault) }
{
    let bytes = read_whole(alloc, script, MAX_SCRIPT_LENGTH)?;
    let commands = read_script(alloc, &bytes)?;
    Ok(commands.into_commands())
}

/// Carries out the commands after loading, and does the jobs. Returns the output, and how the run
/// ends once it is written.
fn edited_alone<D: Disk, K: Checker>(
    alloc: Global,
    begun: Begun,
    disk: &mut D,
    checker: &K,
) -> Result<(Vec<u8>, Status), AllocError>
    requires can { CanBegin begun.commands.items begun.swap }
    ensures edited { IfOk result (λ done. IsEdited 0 begun.commands.items begun.loaded begun.swap
        (outer (D.moments disk.old) (D.faults disk.old))
        (outer (D.moments disk.new) (D.faults disk.new)) done.1 done.0.items) }
    ensures goes_on { GoesOn (outer (D.moments disk.old) (D.faults disk.old))
        (outer (D.moments disk.new) (D.faults disk.new)) }
{
    let Begun {
        commands,
        loaded,
        swap,
    } = begun;
    let mut core = Core::new(alloc, loaded, MAX_REVISIONS)?;
    let ending = carry_out(alloc, &mut core, commands, swap, disk, checker)?;
    Ok((output_of(alloc, &core)?, ending))
}

/// Carries out the commands after loading, beside so many checkers, which do the jobs. Returns the
/// output, and how the run ends once it is written.
fn edited_beside<R: Threads + Wait + Sync, D: Disk + Send, K: Checker + Sync>(
    rt: &R,
    alloc: Global,
    workers: u32,
    begun: Begun,
    disk: &mut D,
    checker: &K,
) -> Result<(Vec<u8>, Status), AllocError>
    requires some { 1 ≤ workers }
    requires few { workers < 2 ^ 32 - 1 }
    requires can { CanBegin begun.commands.items begun.swap }
    ensures edited { IfOk result (λ done. IsEdited workers begun.commands.items begun.loaded
        begun.swap (outer (D.moments disk.old) (D.faults disk.old))
        (outer (D.moments disk.new) (D.faults disk.new)) done.1 done.0.items) }
    ensures goes_on { GoesOn (outer (D.moments disk.old) (D.faults disk.old))
        (outer (D.moments disk.new) (D.faults disk.new)) }
{
    let Begun {
        commands,
        loaded,
        swap,
    } = begun;
    let core = Core::new(alloc, loaded, MAX_REVISIONS)?;
    let (core, ending) = carry_out_beside(rt, alloc, core, workers, commands, swap, disk, checker)?;
    Ok((output_of(alloc, &core)?, ending))
}

/// Returns the output, which is the journal and the report of a session.
fn output_of(alloc: Global, core: &Core) -> Result<Vec<u8>, AllocError>
    ensures { IfOk result (λ output. output.items
        ≡ journal_text core.now.events ++ report (present core.now)) }
{
    let mut output = Vec::new(alloc);
    push_journal(core.journal(), &mut output)?;
    push_report(core, &mut output)?;
    Ok(output)
}

/// Writes the output, after which the run ends so. Returns how it ends.
fn write_output<O: Sink>(out: &mut O, output: &[u8], ending: Status) -> Status
    ensures { IsWritten output.now ending result (O.got out.old) (O.got out.new)
        (O.faults out.old) (O.faults out.new) }
{
    match write_whole(out, output) {
        Ok(()) => ending,
        Err(fail) => Status::from(fail),
    }
}
