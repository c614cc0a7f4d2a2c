ghost use Rattle.std.specs.Prelude.{Some, None};
ghost use Rattle.kte_causes.specs.Faults.{last_count};

use crate::{Status, edit_alone, run};
use kte_causes::{
    CalmDisk, CalmSink, CalmSource, Disk, DiskCall, DiskFail, DiskPlan, MemDisk, MemSink,
    MemSource, Sink, SinkFail, read_whole,
};
use kte_find::PlainChecker;
use kte_script::ScriptFault;
use kte_text::{Digest, MAX_FILE_LENGTH};
use kte_words::Word;
use std::alloc::{AllocError, Global};
use std::process::Abort;
use std::sync::Wait;
use std::test::Fail;
use std::thread::Threads;

mod check;
mod generate;
mod swap;

const FILE: &[u8] = b"hello\n";

const SCRIPT: &[u8] = b"insert 0 5 \"!\"";

const SHOWN: &[u8] = b"edited 1 1 0\ntext\n|hello!\n|\n";

const OUTPUT: &[u8] = b"journal 2\n\
0 insert 0 5 \"!\" = edited 1 1 0\n\
0 close = closed\n\
report\nlines 2\nrevision 1\nsize 7\nkept 0\nundo 1 0\nranges 0\nhidden 0\n\
digest 4effa19f4f75f846c3229b9dbdbad14eff362f32\n\
text\n|hello!\n|\n";

fn words(alloc: Global, texts: &[&str]) -> Result<Vec<Word>, Fail> {
    let mut words = Vec::new(alloc);
    for text in texts {
        words.push(Word::new(String::from_str(alloc, text)?))?;
    }
    Ok(words)
}

/// The status of a run, where memory did not run out.
fn ended(status: Status) -> Result<Status, Fail> {
    match status {
        Status::NoMemory => Err(AllocError.into()),
        status => Ok(status),
    }
}

/// Runs words over a script and a file in memory. Gives the status and the bytes written.
fn outcome<R: Threads + Wait + Sync>(
    rt: &R,
    alloc: Global,
    texts: &[&str],
    script: &[u8],
    file: &[u8],
) -> Result<(Status, Vec<u8>), Fail> {
    let words = words(alloc, texts)?;
    let mut source = CalmSource::new(script.to_vec(alloc)?);
    let mut disk = CalmDisk::new(file.to_vec(alloc)?, Vec::new(alloc));
    let mut sink = CalmSink::new(alloc);
    let status = run(
        rt,
        alloc,
        &words,
        &mut source,
        &mut disk,
        &mut sink,
        &PlainChecker,
    );
    Ok((ended(status)?, sink.bytes().to_vec(alloc)?))
}

/// The replies of a journal but for that of the close, and the text of the report after it.
fn shown(alloc: Global, written: &[u8]) -> Result<Vec<u8>, Fail> {
    let mut shown = Vec::new(alloc);
    let mut is_text = false;
    for line in str::from_utf8(written)?.lines() {
        is_text = is_text || line == "text";
        let reply = match line.rsplit_once(" = ") {
            _ if is_text => Some(line),
            Some((_, reply)) if reply != "closed" => Some(reply),
            _ => None,
        };
        if let Some(reply) = reply {
            shown.extend_from_slice(reply.as_bytes())?;
            shown.push(b'\n')?;
        }
    }
    Ok(shown)
}

/// The status's code of `edit FILE`, and the replies and the text.
fn edit<R: Threads + Wait + Sync>(
    rt: &R,
    alloc: Global,
    script: &[u8],
    file: &[u8],
) -> Result<(u8, Vec<u8>), Fail> {
    let (status, written) = outcome(rt, alloc, &["edit", "file"], script, file)?;
    Ok((status.code(), shown(alloc, &written)?))
}

/// Asserts, for each file and script, the replies and the text.
fn assert_shown(
    rt: &(impl Abort + Threads + Wait + Sync),
    alloc: Global,
    table: &[(&[u8], &[u8], &[u8])],
) -> Result<(), Fail> {
    for (file, script, output) in table {
        let (ended, written) = edit(rt, alloc, script, file)?;
        assert_eq!(rt; ended, 0);
        assert_eq!(rt; written.as_slice(), *output);
    }
    Ok(())
}

/// Asserts, for each file and script, all that is written.
fn assert_written(
    rt: &(impl Abort + Threads + Wait + Sync),
    alloc: Global,
    table: &[(&[u8], &[u8], &[u8])],
) -> Result<(), Fail> {
    for (file, script, output) in table {
        let (status, written) = outcome(rt, alloc, &["edit", "file"], script, file)?;
        assert_eq!(rt; status, Status::Ok);
        assert_eq!(rt; written.as_slice(), *output);
    }
    Ok(())
}

#[test]
fn the_whole_output(rt: HostRuntime) -> Result<(), Fail> {
    let table: [(&[u8], &[u8], &[u8]); 4] = [
        (FILE, SCRIPT, OUTPUT),
        (
            b"",
            b"",
            b"journal 1\n0 close = closed\n\
report\nlines 1\nrevision 0\nsize 0\nkept 0\nundo 0 0\nranges 0\nhidden 0\n\
digest e69de29bb2d1d6434b8b29ae775ad8c2e48c5391\ntext\n|\n",
        ),
        (
            b"",
            b"undo\nbegin\ninsert 0 0 \"a\"\nundo",
            b"journal 6\n0 undo = refused nothing\n0 begin = depth 1\n\
0 insert 0 0 \"a\" = edited 1 1 1\n0 undo = refused stillopen 1\n0 end = depth 0\n\
0 close = closed\n\
report\nlines 1\nrevision 1\nsize 1\nkept 0\nundo 1 0\nranges 0\nhidden 0\n\
digest 2e65efe2a145dda7ee51d1741299f848e5bf752e\ntext\n|a\n",
        ),
        (
            b"a  \n",
            b"check blanks",
            b"journal 4\n0 check blanks = posted 1\n0 close = closed\n0 take = took 1 0\n\
0 deliver 1 0 1 0 3 = delivered 1 1 1\n\
report\nlines 2\nrevision 0\nsize 4\nkept 0\nundo 0 0\nranges 1\n\
range 1 job 1 none void 0 1 0 3\nhidden 0\n\
digest 0d13814d585b11dbeae7a42377d7422f93d2be15\ntext\n|a  \n|\n",
        ),
    ];
    assert_written(&rt, rt.alloc(), &table)
}

#[test]
fn folds_hide_lines(rt: HostRuntime) -> Result<(), Fail> {
    let table: [(&[u8], &[u8], &[u8]); 4] = [
        (
            b"a\nb\nc\nd",
            b"fold 0 1 2 0\nfold 1 0 3 1",
            b"journal 3\n0 fold 0 1 2 0 = range 1 0 1 2 0\n0 fold 1 0 3 1 = refused crosses 1\n\
0 close = closed\n\
report\nlines 4\nrevision 0\nsize 7\nkept 0\nundo 0 0\nranges 1\n\
range 1 fold none void 0 1 2 0\nhidden 2\nhide 1 2\n\
digest 27a7ea60561953234e709fe8f1caaf5892ce4481\ntext\n|a\n|b\n|c\n|d\n",
        ),
        (
            b"a\nb\nc\nd",
            b"fold 0 1 2 0\nfold 1 0 3 1\nunfold 1\nunfold 1",
            b"journal 5\n0 fold 0 1 2 0 = range 1 0 1 2 0\n0 fold 1 0 3 1 = refused crosses 1\n\
0 unfold 1 = dropped 1\n0 unfold 1 = refused nofold 1\n0 close = closed\n\
report\nlines 4\nrevision 0\nsize 7\nkept 0\nundo 0 0\nranges 0\nhidden 0\n\
digest 27a7ea60561953234e709fe8f1caaf5892ce4481\ntext\n|a\n|b\n|c\n|d\n",
        ),
        // A line is removed under a fold, which no command on ranges takes.
        (
            b"a\nb\nc\nd",
            b"fold 0 1 2 0\nremove 1 0 2 0\nwhere 1",
            b"journal 4\n0 fold 0 1 2 0 = range 1 0 1 2 0\n0 remove 1 0 2 0 = edited 2 2 0\n\
0 where 1 = refused norange 1\n0 close = closed\n\
report\nlines 3\nrevision 2\nsize 5\nkept 0\nundo 1 0\nranges 1\n\
range 1 fold none void 0 1 1 0\nhidden 1\nhide 1 1\n\
digest a3e1ab447ea5d3788250981a9d1345d247be68b0\ntext\n|a\n|c\n|d\n",
        ),
        // All that a fold spans is removed: it stays invalid after an undo.
        (
            b"a\nb\nc\nd",
            b"fold 0 1 2 0\nremove 0 1 2 0\nundo",
            b"journal 4\n0 fold 0 1 2 0 = range 1 0 1 2 0\n0 remove 0 1 2 0 = edited 3 3 0\n\
0 undo = edited 3 6 0\n0 close = closed\n\
report\nlines 4\nrevision 6\nsize 7\nkept 0\nundo 0 1\nranges 1\n\
range 1 fold none void invalid\nhidden 0\n\
digest 27a7ea60561953234e709fe8f1caaf5892ce4481\ntext\n|a\n|b\n|c\n|d\n",
        ),
    ];
    assert_written(&rt, rt.alloc(), &table)
}

#[test]
fn searches_find_from_a_place(rt: HostRuntime) -> Result<(), Fail> {
    let table: [(&[u8], &[u8], &[u8]); 1] = [(
        b"foo Foo food",
        b"all \"foo\" nocase word\nfind 0 1 \"foo\" case part\n\
findback 0 8 \"foo\" nocase part\nfind 0 9 \"foo\" case part",
        b"journal 5\n0 all \"foo\" nocase word = found 0 0 0 3 0 4 0 7\n\
0 find 0 1 \"foo\" case part = found 0 8 0 11\n\
0 findback 0 8 \"foo\" nocase part = found 0 4 0 7\n\
0 find 0 9 \"foo\" case part = refused nomatch\n0 close = closed\n\
report\nlines 1\nrevision 0\nsize 12\nkept 0\nundo 0 0\nranges 0\nhidden 0\n\
digest 8ac42f7a88a7760a99dacb3f9a7eaa3fb2ba0f86\ntext\n|foo Foo food\n",
    )];
    assert_written(&rt, rt.alloc(), &table)
}

#[test]
fn one_insertion_from_bytes_to_bytes(rt: HostRuntime) -> Result<(), Fail> {
    let table: [(&[u8], &[u8], u8, &[u8]); 6] = [
        (FILE, SCRIPT, 0, SHOWN),
        (
            FILE,
            b"insert 0 6 \"!\"",
            0,
            b"refused nocolumn 0 6\ntext\n|hello\n|\n",
        ),
        (b"", b"insert 0 0 \"\"", 0, b"edited 0 0 0\ntext\n|\n"),
        (FILE, b"insert 0 5", 4, b""),
        (b"\xC3", SCRIPT, 6, b""),
        (b"\xC3", b"insert 0 5", 4, b""),
    ];
    for (file, script, code, output) in table {
        let (ended, written) = edit(&rt, rt.alloc(), script, file)?;
        assert_eq!(rt; ended, code);
        assert_eq!(rt; written.as_slice(), output);
    }
    Ok(())
}

#[test]
fn a_script_has_comments_and_spare_spaces(rt: HostRuntime) -> Result<(), Fail> {
    let table: [(&[u8], &[u8]); 7] = [
        (b"", b"text\n|hello\n|\n"),
        (b"\n# nothing\n  insert  00 005   \"!\" \r\n\n", SHOWN),
        (
            b"wrap 0 4\nremove 1 1 1 0",
            b"edited 1 1 0\nedited 1 2 0\ntext\n|hell\n|\n|\n",
        ),
        (
            b"where 4294967295\n",
            b"refused norange 4294967295\ntext\n|hello\n|\n",
        ),
        (
            b"insert 0 5 \"\\t\\\\\\\"\xC3\xA9\"",
            b"edited 1 1 0\ntext\n|hello\t\\\"\xC3\xA9\n|\n",
        ),
        (
            b"insert 0 1073741824 \"!\"",
            b"refused nocolumn 0 1073741824\ntext\n|hello\n|\n",
        ),
        (b"insert 2 0 \"!\"", b"refused noline 2\ntext\n|hello\n|\n"),
    ];
    for (script, output) in table {
        let (ended, written) = edit(&rt, rt.alloc(), script, FILE)?;
        assert_eq!(rt; ended, 0);
        assert_eq!(rt; written.as_slice(), output);
    }
    let (ended, written) = edit(&rt, rt.alloc(), b"wrap 0 1", b"\xF0\x9F\x98\x80")?;
    assert_eq!(rt; ended, 0);
    assert_eq!(rt;
        written.as_slice(),
        b"refused splitspair 0 1\ntext\n|\xF0\x9F\x98\x80\n".as_slice()
    );
    Ok(())
}

#[test]
fn a_script_at_fault_is_named(rt: HostRuntime) -> Result<(), Fail> {
    let table: [(&[u8], u64, u64); 4] = [
        (b"insert 0 x \"a\"", 1, 10),
        (b"insert 0 5 \"!\"\ninsert 0 5", 2, 11),
        (b"insert 0 0 \"\xFF\"", 1, 13),
        (b"undone", 1, 1),
    ];
    for (script, line, column) in table {
        // The script is judged before the file, which is not UTF-8.
        let (status, written) = outcome(&rt, rt.alloc(), &["edit", "file"], script, b"\xC3")?;
        let fault = ScriptFault::Bad { line, column };
        assert_eq!(rt; status, Status::BadScript(fault));
        assert!(rt; written.is_empty());
    }
    Ok(())
}

#[test]
fn a_revision_that_is_locked_twice(rt: HostRuntime) -> Result<(), Fail> {
    let script = b"lock\nlock\nunlock 0\ninsert 0 0 \"x\"\nland 0 0 1 0 2 none allow\nunlock 0\n\
land 0 0 1 0 2 none allow\nunlock 0\n";
    let output = b"locked 0\nlocked 0\nunlocked 0\nedited 1 1 0\nlanded 0 2 0 3\nunlocked 0\n\
refused notlocked 0 none\nrefused notowned 0\ntext\n|xab\n|\n";
    let (ended, written) = edit(&rt, rt.alloc(), script, b"ab\n")?;
    assert_eq!(rt; ended, 0);
    assert_eq!(rt; written.as_slice(), output.as_slice());
    let script = b"lock\nunwrap 1\nland 0 0 10 1 2 none allow\nland 0 0 10 1 2 none void\n";
    let output = b"locked 0\nedited 1 1 0\nlanded 0 10 0 10\nlanded invalid\ntext\n|abcde\n";
    let (ended, written) = edit(&rt, rt.alloc(), script, b"abc\nde")?;
    assert_eq!(rt; ended, 0);
    assert_eq!(rt; written.as_slice(), output.as_slice());
    Ok(())
}

#[test]
fn changes_over_several_lines(rt: HostRuntime) -> Result<(), Fail> {
    let table: [(&[u8], &[u8], &[u8]); 9] = [
        (
            b"xy",
            b"insert 0 1 \"a\\nb\"",
            b"edited 3 3 0\ntext\n|xa\n|by\n",
        ),
        (
            b"xy",
            b"insert 0 1 \"\\n\"",
            b"edited 1 1 0\ntext\n|x\n|y\n",
        ),
        (
            b"a\nb\nc",
            b"replace 0 0 2 0 \"z\"",
            b"edited 5 5 0\ntext\n|zc\n",
        ),
        (b"a\nb\nc", b"remove 2 1 0 0", b"edited 5 5 0\ntext\n|\n"),
        (b"a\nb", b"remove 0 1 1 0", b"edited 1 1 0\ntext\n|ab\n"),
        (
            b"a\nb",
            b"remove 0 0 2 0",
            b"refused noline 2\ntext\n|a\n|b\n",
        ),
        (
            b"a\nb",
            b"remove 1 2 0 2",
            b"refused nocolumn 0 2\ntext\n|a\n|b\n",
        ),
        (
            b"a\n\xF0\x9F\x98\x80",
            b"remove 0 0 1 1\nreplace 1 1 1 2 \"\"",
            b"refused splitspair 1 1\nrefused splitspair 1 1\ntext\n|a\n|\xF0\x9F\x98\x80\n",
        ),
        (b"a", b"replace 0 1 0 1 \"\"", b"edited 0 0 0\ntext\n|a\n"),
    ];
    assert_shown(&rt, rt.alloc(), &table)
}

#[test]
fn transactions_are_undone_and_redone(rt: HostRuntime) -> Result<(), Fail> {
    let table: [(&[u8], &[u8], &[u8]); 5] = [
        (
            b"ab",
            b"remove 0 0 0 1\nundo\nredo\nredo",
            b"edited 1 1 0\nedited 1 2 0\nedited 1 3 0\nrefused nothing\ntext\n|b\n",
        ),
        // What the script leaves open is closed.
        (
            b"",
            b"undo\nbegin\ninsert 0 0 \"a\"\nundo",
            b"refused nothing\ndepth 1\nedited 1 1 1\nrefused stillopen 1\ndepth 0\ntext\n|a\n",
        ),
        (
            b"",
            b"begin\nbegin\ninsert 0 0 \"a\\nb\"\nend\nremove 0 0 0 1\nend\nundo\nend",
            b"depth 1\ndepth 2\nedited 3 3 2\ndepth 1\nedited 1 4 1\ndepth 0\nedited 4 8 0\n\
refused notopen\ntext\n|\n",
        ),
        // An empty transaction keeps what may be redone, and any other change does not.
        (
            b"ab",
            b"remove 0 0 0 1\nundo\nbegin\nend\nredo\nundo\ninsert 0 0 \"\"\nredo\nundo\nwrap 0 0\nredo",
            b"edited 1 1 0\nedited 1 2 0\ndepth 1\ndepth 0\nedited 1 3 0\nedited 1 4 0\n\
edited 0 4 0\nedited 1 5 0\nedited 1 6 0\nedited 1 7 0\nrefused nothing\ntext\n|\n|ab\n",
        ),
        // A range follows an undo as any other change.
        (
            b"abc",
            b"range 0 1 0 2 none void\nremove 0 0 0 3\nundo\nwhere 1\nlock\nredo\nland 2 0 1 0 2 none allow",
            b"range 1 0 1 0 2\nedited 1 1 0\nedited 1 2 0\nrange 1 invalid\nlocked 2\n\
edited 1 3 0\nlanded 0 0 0 0\ntext\n|\n",
        ),
    ];
    assert_shown(&rt, rt.alloc(), &table)
}

#[test]
fn ranges_move_with_the_text(rt: HostRuntime) -> Result<(), Fail> {
    let table: [(&[u8], &[u8], &[u8]); 4] = [
        (
            b"xabx",
            b"range 0 1 0 3 none allow\nrange 0 3 0 1 left allow\nrange 0 1 0 3 right allow\n\
range 0 1 0 3 both allow\ninsert 0 3 \"R\"\ninsert 0 1 \"L\"\nwhere 1\nwhere 2\nwhere 3\nwhere 4\n",
            b"range 1 0 1 0 3\nrange 2 0 1 0 3\nrange 3 0 1 0 3\nrange 4 0 1 0 3\n\
edited 1 1 0\nedited 1 2 0\n\
range 1 0 2 0 4\nrange 2 0 1 0 4\nrange 3 0 2 0 5\nrange 4 0 1 0 5\ntext\n|xLabRx\n",
        ),
        (
            b"abcd",
            b"range 0 2 0 2 none allow\ninsert 0 2 \"xyz\"\nwhere 1\n",
            b"range 1 0 2 0 2\nedited 1 1 0\nrange 1 0 5 0 5\ntext\n|abxyzcd\n",
        ),
        (
            b"abc\nde",
            b"range 0 10 1 2 none allow\nrange 0 10 1 2 none void\nunwrap 1\nwhere 1\nwhere 2\n",
            b"range 1 0 10 1 2\nrange 2 0 10 1 2\nedited 1 1 0\nrange 1 0 10 0 10\n\
range 2 invalid\ntext\n|abcde\n",
        ),
        (
            b"abc",
            b"range 0 0 0 1 none void\nsetrange 1 0 1 0 3\ndroprange 1\nwhere 1\n",
            b"range 1 0 0 0 1\nrange 1 0 1 0 3\ndropped 1\nrefused norange 1\ntext\n|abc\n",
        ),
    ];
    assert_shown(&rt, rt.alloc(), &table)
}

#[test]
fn a_refused_command_in_mid_script_changes_nothing(rt: HostRuntime) -> Result<(), Fail> {
    let table: [(&[u8], &[u8]); 6] = [
        (b"unwrap 0", b"refused firstline"),
        (b"setrange 7 0 0 0 1", b"refused norange 7"),
        (b"droprange 7", b"refused norange 7"),
        (b"range 0 0 5 0 none allow", b"range 2 invalid"),
        (b"setrange 1 0 0 5 0", b"range 1 invalid"),
        (b"insert 0 6 \"!\"", b"refused nocolumn 0 6"),
    ];
    let alloc = rt.alloc();
    for (line, reply) in table {
        let mut script = b"range 0 0 0 1 none allow\n".to_vec(alloc)?;
        script.extend_from_slice(line)?;
        script.extend_from_slice(b"\ninsert 0 5 \"!\"")?;
        let mut output = b"range 1 0 0 0 1\n".to_vec(alloc)?;
        output.extend_from_slice(reply)?;
        output.push(b'\n')?;
        output.extend_from_slice(SHOWN)?;
        let (ended, written) = edit(&rt, rt.alloc(), &script, FILE)?;
        assert_eq!(rt; ended, 0);
        assert_eq!(rt; written.as_slice(), output.as_slice());
    }
    Ok(())
}

/// A script that inserts so many letters into line 0. It has 13 bytes more.
fn script_of_letters(alloc: Global, letters: usize) -> Result<Vec<u8>, Fail> {
    let mut script = b"insert 0 0 \"".to_vec(alloc)?;
    script.extend_from_slice(&vec![in alloc; b'a'; letters]?)?;
    script.push(b'"')?;
    Ok(script)
}

/// A disk whose saved file is one byte too long, and cannot be read.
#[derive(Drop)]
struct LongDisk {}

impl Disk for LongDisk {
    ghost moments = { λ _. None };

    ghost faults = { λ _ _. last_count };

    fn saved_len(&mut self) -> Result<u64, DiskFail> {
        Ok(MAX_FILE_LENGTH + 1)
    }

    fn saved_at(&mut self, _from: u64, _buf: &mut [u8]) -> Result<(), DiskFail> {
        Err(DiskFail::Failed)
    }

    fn swap_len(&mut self) -> Result<u64, DiskFail> {
        Ok(0)
    }

    fn swap_at(&mut self, _from: u64, _buf: &mut [u8]) -> Result<(), DiskFail> {
        Err(DiskFail::Failed)
    }

    fn append(&mut self, _bytes: &[u8]) -> Result<(), DiskFail> {
        Err(DiskFail::Failed)
    }

    fn sync(&mut self) -> Result<(), DiskFail> {
        Err(DiskFail::Failed)
    }

    fn replace(&mut self, _bytes: &[u8]) -> Result<(), DiskFail> {
        Err(DiskFail::Failed)
    }

    fn reset(&mut self) -> Result<(), DiskFail> {
        Err(DiskFail::Failed)
    }
}

#[test]
fn a_file_that_is_too_long(rt: HostRuntime) -> Result<(), Fail> {
    let alloc = rt.alloc();
    let mut source = CalmSource::new(SCRIPT.to_vec(alloc)?);
    let mut sink = CalmSink::new(alloc);
    let mut disk = LongDisk {};
    let status = edit_alone(alloc, &mut source, &mut disk, &mut sink, &PlainChecker);
    assert_eq!(rt; ended(status)?, Status::TooLarge { size: None });
    assert!(rt; sink.bytes().is_empty());
    Ok(())
}

#[test]
fn words_that_are_no_command(rt: HostRuntime) -> Result<(), Fail> {
    let table: [(&[&str], u32); 8] = [
        (&[], 0),
        (&["restore", "file"], 0),
        (&["", "file"], 0),
        (&["edit"], 1),
        (&["recover"], 1),
        (&["recover", "file", "more"], 2),
        (&["edit", ""], 1),
        (&["edit", "file", "more"], 2),
    ];
    for (texts, at) in table {
        let (status, written) = outcome(&rt, rt.alloc(), texts, SCRIPT, FILE)?;
        assert_eq!(rt; status, Status::BadWords { at });
        assert!(rt; written.is_empty());
    }
    Ok(())
}

#[test]
fn a_read_that_fails_in_mid_stream(rt: HostRuntime) -> Result<(), Fail> {
    let alloc = rt.alloc();
    let mut script = MemSource::new(script_of_letters(alloc, 4987)?, vec![in alloc; 1]?);
    let mut disk = CalmDisk::new(FILE.to_vec(alloc)?, Vec::new(alloc));
    let mut sink = CalmSink::new(alloc);
    let status = edit_alone(alloc, &mut script, &mut disk, &mut sink, &PlainChecker);
    assert_eq!(rt; ended(status)?, Status::ReadFault);
    assert!(rt; sink.bytes().is_empty());
    // The first read took 4096 bytes.
    assert_eq!(rt; read_whole(alloc, &mut script, 5000)?.len(), 904);
    Ok(())
}

/// A sink in memory that takes at most four bytes at a time.
#[derive(Drop)]
struct SlowSink {
    sink: MemSink,
}

impl Sink for SlowSink {
    ghost got = { λ s. Some s.sink.got };

    ghost faults = { λ s. s.sink.faults };

    fn write(&mut self, bytes: &[u8]) -> Result<usize, SinkFail> {
        let count = bytes.len().min(4);
        self.sink.write(&bytes[..count])
    }
}

#[test]
fn a_write_that_fails_leaves_the_first_of_the_output(rt: HostRuntime) -> Result<(), Fail> {
    let alloc = rt.alloc();
    let table: [(u64, &[u8]); 2] = [(0, b""), (1, b"jour")];
    for (failing, first) in table {
        let mut script = CalmSource::new(SCRIPT.to_vec(alloc)?);
        let mut disk = CalmDisk::new(FILE.to_vec(alloc)?, Vec::new(alloc));
        let mut sink = SlowSink {
            sink: MemSink::new(alloc, vec![in alloc; failing]?),
        };
        let status = edit_alone(alloc, &mut script, &mut disk, &mut sink, &PlainChecker);
        assert_eq!(rt; ended(status)?, Status::WriteFault);
        assert_eq!(rt; sink.sink.bytes(), first);
    }
    Ok(())
}

#[test]
fn a_disk_that_fails(rt: HostRuntime) -> Result<(), Fail> {
    let alloc = rt.alloc();
    for call in [DiskCall::SavedLen, DiskCall::SavedAt] {
        let mut script = CalmSource::new(SCRIPT.to_vec(alloc)?);
        let plan = DiskPlan {
            call,
            nth: 0,
            done: 0,
        };
        let mut disk = MemDisk::new(FILE.to_vec(alloc)?, Vec::new(alloc), vec![in alloc; plan]?);
        let mut sink = CalmSink::new(alloc);
        let status = edit_alone(alloc, &mut script, &mut disk, &mut sink, &PlainChecker);
        assert_eq!(rt; ended(status)?, Status::DiskFault);
        assert!(rt; sink.bytes().is_empty());
        // The next run over the same disk meets no fault.
        let mut script = CalmSource::new(SCRIPT.to_vec(alloc)?);
        let status = edit_alone(alloc, &mut script, &mut disk, &mut sink, &PlainChecker);
        assert_eq!(rt; ended(status)?, Status::Ok);
        assert_eq!(rt; sink.bytes(), OUTPUT);
    }
    Ok(())
}

#[test]
fn each_status_has_its_code_and_its_line(rt: HostRuntime) -> Result<(), Fail> {
    let table = [
        (Status::Ok, 0, ""),
        (Status::NoMemory, 1, "kted: out of memory"),
        (Status::BadWords { at: 12 }, 2, "kted: word 12 does not fit"),
        (Status::ReadFault, 3, "kted: reading the script failed"),
        (
            Status::BadScript(ScriptFault::Bad {
                line: 1,
                column: 10,
            }),
            4,
            "kted: script line 1 column 10",
        ),
        (
            Status::BadScript(ScriptFault::TooMany { line: 100_001 }),
            4,
            "kted: script line 100001 is one command too many",
        ),
        (
            Status::BadScript(ScriptFault::TooLong),
            4,
            "kted: script too long",
        ),
        (Status::DiskFault, 5, "kted: the disk failed"),
        (
            Status::SwapPresent { bytes: 62 },
            8,
            "kted: swap file present: 62 bytes",
        ),
        (Status::SwapLost, 9, "kted: swap file lost"),
        (Status::WriteFault, 10, "kted: writing failed"),
        (Status::NoSwap, 11, "kted: no swap file"),
        (Status::Version, 12, "kted: unknown swap version"),
        (
            Status::FileChanged {
                kept: Digest([0xCE; 20]),
                found: Digest([1; 20]),
            },
            13,
            "kted: file changed: swap cececececececececececececececececececece \
file 0101010101010101010101010101010101010101",
        ),
        (
            Status::Damaged { at: 62, done: 1 },
            14,
            "kted: swap damaged at byte 62 after 1 transactions",
        ),
        (
            Status::NotUtf8 { at: 7 },
            6,
            "kted: file is not UTF-8 at byte 7",
        ),
        (Status::TooLarge { size: None }, 7, "kted: file too long"),
        (
            Status::TooLarge {
                size: Some(67_108_865),
            },
            7,
            "kted: text too large: 67108865",
        ),
    ];
    for (status, code, line) in table {
        assert_eq!(rt; status.code(), code);
        assert_eq!(rt; status.line(rt.alloc())?.as_str(), line);
    }
    Ok(())
}
