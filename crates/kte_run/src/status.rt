ghost use Rattle.std.specs.Prelude.{◌≡◌, IfOk, string_bytes};
ghost use Rattle.kte_run.specs.Statuses.{error_line, script_line, bad_script_status, script_status, disk_status, file_status, sink_status};
ghost use Rattle.kte_run.specs.declared.status.Status.TheVariants as status;

use kte_causes::{DiskFail, ReadFault, SinkFail};
use kte_script::ScriptFault;
use kte_text::{Digest, LoadFault};
use std::alloc::{AllocError, Global};

/// How a run ended.
#[derive(Clone, Copy, Debug, PartialEq, Eq)]
pub enum Status {
    /// Everything was done.
    Ok,
    /// Out of memory.
    NoMemory,
    /// The words are no command of the program. `at` is the index, from 0, of the first word that
    /// does not fit, or the number of words if one is missing.
    BadWords { at: u32 },
    /// Reading the script failed.
    ReadFault,
    /// The script is at fault, for this cause, which is never a lack of memory.
    BadScript(ScriptFault),
    /// The disk failed.
    DiskFault,
    /// The saved file is not UTF-8. `at` is the length of its longest prefix that is, in bytes.
    NotUtf8 { at: u64 },
    /// The saved file is too long, or its text has `size` units and line ends, which is too large.
    TooLarge { size: Option<u64> },
    /// There is a swap file already, of `bytes` bytes.
    SwapPresent { bytes: u64 },
    /// The output was written, but the swap file does not hold all that was typed: a call of the
    /// disk failed, and no save went well after it.
    SwapLost,
    /// Writing the output failed.
    WriteFault,
    /// There is no swap file, or it is empty.
    NoSwap,
    /// The swap file has another version, or is none.
    Version,
    /// The swap file is that of a saved file with the digest `kept`; the saved file has the digest
    /// `found`.
    FileChanged { kept: Digest, found: Digest },
    /// At the offset `at` in the swap file, in bytes, comes a record at fault, after `done` whole
    /// transactions.
    Damaged { at: u64, done: u64 },
}

impl Status {
    ghost use Rattle.kte_run.specs.Statuses.{code_of};

    /// Returns the code that the program ends with.
    pub fn code(&self) -> u8
        ensures { result ≡ code_of self.now }
    {
        match self {
            Status::Ok => 0,
            Status::NoMemory => 1,
            Status::BadWords { .. } => 2,
            Status::ReadFault => 3,
            Status::BadScript(_) => 4,
            Status::DiskFault => 5,
            Status::NotUtf8 { .. } => 6,
            Status::TooLarge { .. } => 7,
            Status::SwapPresent { .. } => 8,
            Status::SwapLost => 9,
            Status::WriteFault => 10,
            Status::NoSwap => 11,
            Status::Version => 12,
            Status::FileChanged { .. } => 13,
            Status::Damaged { .. } => 14,
        }
    }

    /// Returns the line that the program writes on standard error, without its end; it is empty for
    /// `Ok`.
    pub fn line(&self, alloc: Global) -> Result<String, AllocError>
        ensures { IfOk result (λ text. string_bytes text ≡ error_line self.now) }
    {
        match self {
            Status::Ok => Ok(String::new(alloc)),
            Status::NoMemory => String::from_str(alloc, "kted: out of memory"),
            Status::BadWords { at } => format!(in alloc; "kted: word {at} does not fit"),
            Status::ReadFault => String::from_str(alloc, "kted: reading the script failed"),
            Status::BadScript(fault) => script_line(alloc, fault),
            Status::DiskFault => String::from_str(alloc, "kted: the disk failed"),
            Status::NotUtf8 { at } => format!(in alloc; "kted: file is not UTF-8 at byte {at}"),
            Status::TooLarge { size: None } => String::from_str(alloc, "kted: file too long"),
            Status::TooLarge { size: Some(size) } => {
                format!(in alloc; "kted: text too large: {size}")
            }
            Status::SwapPresent { bytes } => {
                format!(in alloc; "kted: swap file present: {bytes} bytes")
            }
            Status::SwapLost => String::from_str(alloc, "kted: swap file lost"),
            Status::WriteFault => String::from_str(alloc, "kted: writing failed"),
            Status::NoSwap => String::from_str(alloc, "kted: no swap file"),
            Status::Version => String::from_str(alloc, "kted: unknown swap version"),
            Status::FileChanged { kept, found } => changed_line(alloc, kept, found),
            Status::Damaged { at, done } => {
                format!(in alloc; "kted: swap damaged at byte {at} after {done} transactions")
            }
        }
    }
}

/// Returns the line of a script that is at fault.
fn script_line(alloc: Global, fault: &ScriptFault) -> Result<String, AllocError>
    ensures { IfOk result (λ text. string_bytes text ≡ script_line fault.now) }
{
    match fault {
        ScriptFault::Bad { line, column } => {
            format!(in alloc; "kted: script line {line} column {column}")
        }
        ScriptFault::TooMany { line } => {
            format!(in alloc; "kted: script line {line} is one command too many")
        }
        ScriptFault::TooLong => String::from_str(alloc, "kted: script too long"),
        ScriptFault::NoMemory => String::from_str(alloc, "kted: out of memory"),
    }
}

/// Returns the line of a swap file of another saved file.
fn changed_line(alloc: Global, kept: &Digest, found: &Digest) -> Result<String, AllocError>
    ensures { IfOk result (λ text. string_bytes text
        ≡ error_line (Status.FileChanged kept.now found.now)) }
{
    let kept = kept.hex(alloc)?;
    let found = found.hex(alloc)?;
    format!(in alloc; "kted: file changed: swap {kept} file {found}")
}

impl From<AllocError> for Status {
    ghost from_gives = { λ _ given. given ≡ status.NoMemory };

    fn from(_error: AllocError) -> Status {
        Status::NoMemory
    }
}

impl From<ScriptFault> for Status {
    ghost from_gives = { λ fault given. given ≡ bad_script_status fault };

    fn from(fault: ScriptFault) -> Status {
        match fault {
            ScriptFault::NoMemory => Status::NoMemory,
            fault => Status::BadScript(fault),
        }
    }
}

impl From<ReadFault> for Status {
    ghost from_gives = { λ fault given. given ≡ script_status fault };

    fn from(fault: ReadFault) -> Status {
        match fault {
            ReadFault::Failed => Status::ReadFault,
            ReadFault::TooLong => Status::BadScript(ScriptFault::TooLong),
            ReadFault::NoMemory => Status::NoMemory,
        }
    }
}

impl From<DiskFail> for Status {
    ghost from_gives = { λ fail given. given ≡ disk_status fail };

    fn from(fail: DiskFail) -> Status {
        match fail {
            DiskFail::Failed => Status::DiskFault,
            DiskFail::NoMemory => Status::NoMemory,
        }
    }
}

impl From<LoadFault> for Status {
    ghost from_gives = { λ fault given. given ≡ file_status fault };

    fn from(fault: LoadFault) -> Status {
        match fault {
            LoadFault::LongFile => Status::TooLarge { size: None },
            LoadFault::NotUtf8 { at } => Status::NotUtf8 { at },
            LoadFault::TooLarge { size } => Status::TooLarge { size: Some(size) },
            LoadFault::NoMemory => Status::NoMemory,
        }
    }
}

impl From<SinkFail> for Status {
    ghost from_gives = { λ fail given. given ≡ sink_status fail };

    fn from(fail: SinkFail) -> Status {
        match fail {
            SinkFail::Failed => Status::WriteFault,
            SinkFail::NoMemory => Status::NoMemory,
        }
    }
}
