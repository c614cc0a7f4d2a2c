//! A file as a disk, with its swap file beside it.
ghost use Rattle.std.specs.Prelude.{◌≡◌, IfOk, IsErrOf, None};
ghost use Rattle.kte_causes.specs.DiskFaults.{count_of, CountsDiskFault};

use crate::causes::{DiskCall, DiskFail};
use crate::counts::DiskCounts;
use crate::io_fault::IoFault;
use crate::outside::Disk;
use std::alloc::{AllocError, Global};
use std::fs::{OpenFile, OpenOptions, Permissions};
use std::io::{ErrorKind, Read, Seek, SeekFrom, Write};
use std::os::unix::fs::OpenOptionsExt;
use std::rt::Files;
use std::{fs, io};

/// The rights of a file that its owner alone reads and writes.
const OWNER_ALONE: u32 = 0o600;

/// A file as a disk, with the swap file `.NAME.kate-swp` beside it. It tells nothing of what they
/// hold.
///
/// The saved file is opened once, for its length and its bytes, until it is replaced. A replace
/// writes a temporary file beside the file, syncs it and renames it over the file, whose rights it
/// keeps; where the path names a link, that is the file which the link names.
#[derive(Drop)]
pub struct FileDisk<'a, R: Files> {
    opened: Opened<'a, R>,
    faults: DiskCounts,
}

/// Where the two files lie, and what is open of them.
#[derive(Drop)]
struct Opened<'a, R: Files> {
    alloc: Global,
    files: &'a R,
    path: &'a str,
    /// The saved file, for reading.
    saved: Option<R::File>,
    /// The swap file, for writing at its end.
    swap: Option<R::File>,
    /// Whether a crash keeps the swap file's name in its folder.
    is_listed: bool,
}

impl<'a, R: Files> FileDisk<'a, R> {
    ghost use Rattle.kte_causes.specs.DiskFaults.{AllStay};

    /// Makes a disk whose saved file lies at this path. No file is opened yet, and no memory taken.
    pub fn new(alloc: Global, files: &'a R, path: &'a str) -> Self
        ensures { AllStay (λ _. 0) (⟦<FileDisk<'a, R> as Disk>⟧.faults result) }
    {
        FileDisk {
            opened: Opened {
                alloc,
                files,
                path,
                saved: None,
                swap: None,
                is_listed: false,
            },
            faults: DiskCounts::new(),
        }
    }
}

/// Passes on what a call gave, and counts its fault.
fn counted<T>(
    faults: &mut DiskCounts,
    call: DiskCall,
    given: Result<T, IoFault>,
) -> Result<T, DiskFail>
    ensures ok { IfOk given (λ value. result ≡ Ok value) }
    ensures failed { IsErrOf given IoFault.Failed → IsErrOf result DiskFail.Failed }
    ensures no_memory { IsErrOf given IoFault.NoMemory → IsErrOf result DiskFail.NoMemory }
    ensures counts { CountsDiskFault call result (count_of faults.old) (count_of faults.new) }
{
    match given {
        Ok(value) => Ok(value),
        Err(IoFault::NoMemory) => Err(DiskFail::NoMemory),
        Err(IoFault::Failed) => {
            faults.raise(call);
            Err(DiskFail::Failed)
        }
    }
}

/// Returns the path of the file `.NAME` with an ending, beside the file NAME at a path.
fn beside(alloc: Global, path: &str, ending: &str) -> Result<String, AllocError> {
    match path.rsplit_once('/') {
        Some((folder, name)) => format!(in alloc; "{folder}/.{name}{ending}"),
        None => format!(in alloc; ".{path}{ending}"),
    }
}

/// Makes the names in the folder of a path safe from a crash.
fn sync_folder<R: Files>(files: &R, path: &str) -> io::Result<()> {
    let folder = match path.rsplit_once('/') {
        Some(("", _)) => "/",
        Some((folder, _)) => folder,
        None => ".",
    };
    fs::open(files, folder)?.sync_all()
}

/// Writes a new file at a path, with these rights, and syncs it. Replaces a file that a crash left
/// there.
fn write_new<R: Files>(files: &R, path: &str, bytes: &[u8], rights: Permissions) -> io::Result<()> {
    match fs::remove_file(files, path) {
        Err(e) if e.kind() != ErrorKind::NotFound => return Err(e),
        _ => {}
    }
    let mut file = OpenOptions::new()
        .write(true)
        .create_new(true)
        .mode(OWNER_ALONE)
        .open(files, path)?;
    file.write_all(bytes)?;
    file.set_permissions(rights)?;
    file.sync_all()
}

impl<R: Files> Opened<'_, R> {
    /// Returns the saved file, opened for reading.
    fn take_saved(&mut self) -> io::Result<R::File> {
        match self.saved.take() {
            Some(file) => Ok(file),
            None => fs::open(self.files, self.path),
        }
    }

    fn saved_len(&mut self) -> Result<u64, IoFault> {
        let file = self.take_saved()?;
        let length = file.metadata()?.len();
        self.saved = Some(file);
        Ok(length)
    }

    fn saved_at(&mut self, from: u64, buf: &mut [u8]) -> Result<(), IoFault> {
        let mut file = self.take_saved()?;
        file.seek(SeekFrom::Start(from))?;
        file.read_exact(buf)?;
        self.saved = Some(file);
        Ok(())
    }

    /// Returns the path of the swap file.
    fn swap_path(&self) -> Result<String, AllocError> {
        beside(self.alloc, self.path, ".kate-swp")
    }

    fn swap_len(&self) -> Result<u64, IoFault> {
        let path = self.swap_path()?;
        match fs::metadata(self.files, path.as_str()) {
            Ok(metadata) => Ok(metadata.len()),
            Err(e) if e.kind() == ErrorKind::NotFound => Ok(0),
            Err(e) => Err(IoFault::from(e)),
        }
    }

    fn swap_at(&self, from: u64, buf: &mut [u8]) -> Result<(), IoFault> {
        if buf.is_empty() {
            return Ok(());
        }
        let path = self.swap_path()?;
        let mut file = fs::open(self.files, path.as_str())?;
        file.seek(SeekFrom::Start(from))?;
        file.read_exact(buf)?;
        Ok(())
    }

    /// Returns the swap file, opened for writing, or `None` if it is not there and not to be made.
    fn take_swap(&mut self, create: bool) -> Result<Option<R::File>, IoFault> {
        if let Some(file) = self.swap.take() {
            return Ok(Some(file));
        }
        let path = self.swap_path()?;
        let opened = OpenOptions::new()
            .append(true)
            .create(create)
            .mode(OWNER_ALONE)
            .open(self.files, path.as_str());
        match opened {
            Ok(file) => Ok(Some(file)),
            Err(e) if e.kind() == ErrorKind::NotFound && !create => Ok(None),
            Err(e) => Err(IoFault::from(e)),
        }
    }

    fn append(&mut self, bytes: &[u8]) -> Result<(), IoFault> {
        if let Some(mut file) = self.take_swap(true)? {
            file.write_all(bytes)?;
            self.swap = Some(file);
        }
        Ok(())
    }

    fn sync(&mut self) -> Result<(), IoFault> {
        if let Some(file) = self.take_swap(false)? {
            file.sync_all()?;
            self.swap = Some(file);
            if !self.is_listed {
                sync_folder(self.files, self.path)?;
                self.is_listed = true;
            }
        }
        Ok(())
    }

    fn replace(&mut self, bytes: &[u8]) -> Result<(), IoFault> {
        self.saved = None;
        let target = self.files.canonicalize(self.alloc, self.path)?;
        let target = target.into_string();
        let rights = fs::metadata(self.files, target.as_str())?.permissions();
        let temporary = beside(self.alloc, &target, ".kted-new")?;
        let written = write_new(self.files, &temporary, bytes, rights).and_then(|()| self
            .files
            .rename(&temporary, &target));
        if let Err(e) = written {
            let _ = fs::remove_file(self.files, temporary.as_str());
            return Err(IoFault::from(e));
        }
        sync_folder(self.files, &target)?;
        Ok(())
    }

    fn reset(&mut self) -> Result<(), IoFault> {
        if let Some(file) = self.take_swap(false)? {
            file.set_len(0)?;
            file.sync_all()?;
            self.swap = Some(file);
        }
        Ok(())
    }
}

impl<R: Files> Disk for FileDisk<'_, R> {
    ghost use Rattle.kte_causes.specs.DiskFaults.{count_of};

    ghost moments = { λ _. None };

    ghost faults = { λ d. count_of d.faults };

    fn saved_len(&mut self) -> Result<u64, DiskFail> {
        let given = self.opened.saved_len();
        counted(&mut self.faults, DiskCall::SavedLen, given)
    }

    fn saved_at(&mut self, from: u64, buf: &mut [u8]) -> Result<(), DiskFail> {
        let given = self.opened.saved_at(from, buf);
        counted(&mut self.faults, DiskCall::SavedAt, given)
    }

    fn swap_len(&mut self) -> Result<u64, DiskFail> {
        let given = self.opened.swap_len();
        counted(&mut self.faults, DiskCall::SwapLen, given)
    }

    fn swap_at(&mut self, from: u64, buf: &mut [u8]) -> Result<(), DiskFail> {
        let given = self.opened.swap_at(from, buf);
        counted(&mut self.faults, DiskCall::SwapAt, given)
    }

    fn append(&mut self, bytes: &[u8]) -> Result<(), DiskFail> {
        let given = self.opened.append(bytes);
        counted(&mut self.faults, DiskCall::Append, given)
    }

    fn sync(&mut self) -> Result<(), DiskFail> {
        let given = self.opened.sync();
        counted(&mut self.faults, DiskCall::Sync, given)
    }

    fn replace(&mut self, bytes: &[u8]) -> Result<(), DiskFail> {
        let given = self.opened.replace(bytes);
        counted(&mut self.faults, DiskCall::Replace, given)
    }

    fn reset(&mut self) -> Result<(), DiskFail> {
        let given = self.opened.reset();
        counted(&mut self.faults, DiskCall::Reset, given)
    }
}
