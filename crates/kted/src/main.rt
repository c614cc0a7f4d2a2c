//! `kted`: edits the text of a file by a script, and recovers what was typed from its swap file.
//!
//! What it does is proved of `kte_run::run`, over any source, sink and disk; here stand the real
//! ones.
#![tactic(auto)]

use kte_causes::{CalmDisk, FileDisk, StdSink, StdSource};
use kte_find::PlainChecker;
use kte_run::{Status, run};
use kte_words::{Word, parse};
use std::alloc::{AllocError, Global};
use std::env::{Env, FillError};
use std::io;
use std::process::ExitCode;

/// The room that a word is first read into, in bytes.
const FIRST_ROOM: usize = 256;

fn main(rt: HostRuntime) -> ExitCode {
    let alloc = rt.alloc();
    let mut script = StdSource::new(rt.reader());
    let mut out = StdSink::new(io::writer(&rt));
    let status = match words(&rt) {
        Ok(words) => match file_named(&words) {
            Some(file) => {
                let mut disk = FileDisk::new(alloc, &rt, file);
                run(
                    &rt,
                    alloc,
                    &words,
                    &mut script,
                    &mut disk,
                    &mut out,
                    &PlainChecker,
                )
            }
            // If the words are no command, no file is touched.
            None => {
                let mut disk = CalmDisk::new(Vec::new(alloc), Vec::new(alloc));
                run(
                    &rt,
                    alloc,
                    &words,
                    &mut script,
                    &mut disk,
                    &mut out,
                    &PlainChecker,
                )
            }
        },
        Err(AllocError) => Status::NoMemory,
    };
    report(&rt, status);
    ExitCode::from(status.code())
}

/// Returns the words after the program's name.
fn words(rt: &(impl Env + Alloc<A = Global>)) -> Result<Vec<Word>, AllocError> {
    let mut words = Vec::new(rt.alloc());
    for n in 1..usize::MAX {
        match word(rt, n)? {
            Some(word) => words.push(word)?,
            None => break,
        }
    }
    Ok(words)
}

/// Returns argument `n` of the program, if there is one. An argument that is not UTF-8 gives an
/// empty word, which fits nowhere.
fn word(rt: &(impl Env + Alloc<A = Global>), n: usize) -> Result<Option<Word>, AllocError> {
    let mut room = FIRST_ROOM;
    for _ in 0..usize::BITS {
        let mut bytes = vec![in rt.alloc(); 0; room]?;
        match rt.arg(n, &mut bytes) {
            Ok(length) => {
                bytes.truncate(length);
                let text = String::from_utf8(bytes).unwrap_or(String::new(rt.alloc()));
                return Ok(Some(Word::new(text)));
            }
            Err(FillError::NotPresent) => return Ok(None),
            Err(FillError::TooLong) => room = room.saturating_mul(2),
        }
    }
    Err(AllocError)
}

/// Returns the name of the file of the command that the words are, if they are one and it has a file.
fn file_named(words: &[Word]) -> Option<&str> {
    let file = parse(words).ok()?.file()?;
    Some(words.get(file as usize)?.as_str())
}

/// Writes the line of the status on standard error.
fn report(rt: &(impl Eprint + Alloc<A = Global>), status: Status) {
    if let Ok(line) = status.line(rt.alloc()) {
        if !line.is_empty() {
            let _ = eprintln!(rt; "{line}");
        }
    }
}
