use super::{FILE, SCRIPT, ended};
use crate::{Status, edit_alone, recover_file};
use kte_causes::{CalmDisk, CalmSink, CalmSource, DiskCall, DiskPlan, MemDisk, MemSink, MemSource};
use kte_find::PlainChecker;
use kte_text::Digest;
use std::alloc::{AllocError, Global};
use std::test::Fail;

// The digest of `hello\n`, as `git hash-object` prints it.
const BASE: Digest = Digest([
    0xce, 0x01, 0x36, 0x25, 0x03, 0x0b, 0xa8, 0xdb, 0xa9, 0x06, 0xf7, 0x56, 0x96, 0x7f, 0x9e, 0x9c,
    0xa3, 0x94, 0x46, 0x4a,
]);

// That of the empty file.
const EMPTY: Digest = Digest([
    0xe6, 0x9d, 0xe2, 0x9b, 0xb2, 0xd1, 0xd6, 0x43, 0x4b, 0x8b, 0x29, 0xae, 0x77, 0x5a, 0xd8, 0xc2,
    0xe4, 0x8c, 0x53, 0x91,
]);

// The swap file beside `hello\n` in which "!" was inserted after "hello", and then removed again.
const SWAP: &[u8; 77] = b"\0\0\0\x12Kate Swap File 2.0\0\0\0\x14\
\xce\x01\x36\x25\x03\x0b\xa8\xdb\xa9\x06\xf7\x56\x96\x7f\x9e\x9c\xa3\x94\x46\x4a\
SI\0\0\0\0\0\0\0\x05\0\0\0\x01!ESR\0\0\0\0\0\0\0\x05\0\0\0\x06E";

const HEADER: usize = 46;

const FIRST: usize = 62;

// What is printed of the swap file of the one insertion.
const RECOVERED: &[u8] = b"transactions 1\ntail clean\n\
digest 4effa19f4f75f846c3229b9dbdbad14eff362f32\ntext\n|hello!\n|\n";

const UNCHANGED: &[u8] = b"digest ce013625030ba8dba906f756967f9e9ca394464a\ntext\n|hello\n|\n";

fn plan(call: DiskCall, nth: u64, done: u64) -> DiskPlan {
    DiskPlan { call, nth, done }
}

/// What an edit of a disk leaves.
#[derive(Drop)]
struct Left {
    status: Status,
    written: Vec<u8>,
    saved: Vec<u8>,
    swap: Vec<u8>,
}

/// The files of a disk as its last call left them.
fn files(disk: &MemDisk) -> Result<(Vec<u8>, Vec<u8>), Fail> {
    let last = disk.count().saturating_sub(1);
    if last >= disk.count() {
        return Err(AllocError.into());
    }
    let (_, whole) = disk.cuts(last);
    Ok(disk.image(last, whole)?)
}

/// Edits a file whose swap file is this, over a disk with failing calls.
fn edits(
    alloc: Global,
    script: &[u8],
    file: &[u8],
    swap: &[u8],
    failing: &[DiskPlan],
) -> Result<Left, Fail> {
    let mut source = CalmSource::new(script.to_vec(alloc)?);
    let mut disk = MemDisk::new(
        file.to_vec(alloc)?,
        swap.to_vec(alloc)?,
        failing.to_vec(alloc)?,
    );
    let mut sink = CalmSink::new(alloc);
    let status = edit_alone(alloc, &mut source, &mut disk, &mut sink, &PlainChecker);
    let (saved, swap) = files(&disk)?;
    Ok(Left {
        status: ended(status)?,
        written: sink.bytes().to_vec(alloc)?,
        saved,
        swap,
    })
}

/// The events of a journal that are no command, each with what was replied, but for the close.
fn told(alloc: Global, written: &[u8]) -> Result<Vec<u8>, Fail> {
    let mut told = Vec::new(alloc);
    for line in str::from_utf8(written)?.lines() {
        if line == "report" {
            break;
        }
        if let Some(outcome) = line.strip_prefix("0 outcome ") {
            told.extend_from_slice(outcome.as_bytes())?;
            told.push(b'\n')?;
        }
    }
    Ok(told)
}

#[test]
fn each_finished_transaction_is_in_the_swap_file(rt: HostRuntime) -> Result<(), Fail> {
    let alloc = rt.alloc();
    let table: [(&[u8], &[u8]); 8] = [
        (b"", b""),
        (b"insert 0 0 \"\"\nbegin\nend\nundo", b""),
        (SCRIPT, &SWAP[..FIRST]),
        (b"insert 0 5 \"!\"\nundo", SWAP),
        // A refused command is no transaction.
        (b"insert 0 6 \"!\"\ninsert 0 5 \"!\"\nend\nundo", SWAP),
        // Neither is one that is still open: it is finished once the script has ended.
        (b"begin\ninsert 0 5 \"!\"", &SWAP[..FIRST]),
        (
            b"begin\nbegin\ninsert 0 5 \"!\"\nend\nsync\nend\nundo",
            SWAP,
        ),
        (b"insert 0 5 \"!\"\nsync", &SWAP[..FIRST]),
    ];
    for (script, swap) in table {
        let left = edits(alloc, script, FILE, b"", &[])?;
        assert_eq!(rt; left.status, Status::Ok);
        assert_eq!(rt; left.saved.as_slice(), FILE);
        assert_eq!(rt; left.swap.as_slice(), swap);
    }
    // The commands of one transaction are one, whose end comes last.
    let left = edits(
        alloc,
        b"begin\ninsert 0 5 \"!\"\nremove 0 5 0 6\nend",
        FILE,
        b"",
        &[],
    )?;
    let mut swap = SWAP[..FIRST].to_vec(alloc)?;
    swap.truncate(FIRST - 1);
    swap.extend_from_slice(b"R\0\0\0\0\0\0\0\x05\0\0\0\x06E")?;
    assert_eq!(rt; left.swap.as_slice(), swap.as_slice());
    Ok(())
}

#[test]
fn a_save_replaces_the_file_and_empties_the_swap_file(rt: HostRuntime) -> Result<(), Fail> {
    let alloc = rt.alloc();
    let left = edits(alloc, b"insert 0 5 \"!\"\nsave", FILE, b"", &[])?;
    assert_eq!(rt; left.status, Status::Ok);
    assert_eq!(rt; left.saved.as_slice(), b"hello!\n".as_slice());
    assert!(rt; left.swap.is_empty());
    assert_eq!(rt;
        told(alloc, &left.written)?.as_slice(),
        b"save ok = noted\n".as_slice()
    );
    // The next transaction comes after a header with the digest of what was saved.
    let script = b"insert 0 5 \"!\"\nundo\nsave\ninsert 0 5 \"!\"";
    let left = edits(alloc, script, FILE, b"", &[])?;
    assert_eq!(rt; left.saved.as_slice(), FILE);
    assert_eq!(rt; left.swap.as_slice(), &SWAP[..FIRST]);
    // Line end and mark stay.
    let left = edits(alloc, b"wrap 0 1\nsave", b"\xEF\xBB\xBFab\r\nc", b"", &[])?;
    assert_eq!(rt;
        left.saved.as_slice(),
        b"\xEF\xBB\xBFa\r\nb\r\nc".as_slice()
    );
    Ok(())
}

#[test]
fn one_call_of_the_disk_fails(rt: HostRuntime) -> Result<(), Fail> {
    let alloc = rt.alloc();
    let script = b"insert 0 5 \"!\"\nsync\nsave";
    let table: [(DiskPlan, &[u8], u8, &[u8], &[u8]); 11] = [
        (plan(DiskCall::SwapLen, 0, 0), b"", 5, FILE, b""),
        (plan(DiskCall::SavedLen, 0, 0), b"", 5, FILE, b""),
        (plan(DiskCall::SavedAt, 0, 0), b"", 5, FILE, b""),
        (
            plan(DiskCall::Append, 0, 10),
            b"append failed = noted\nsync failed = noted\nsave ok = noted\n",
            0,
            b"hello!\n",
            b"",
        ),
        (
            plan(DiskCall::Sync, 0, 0),
            b"sync failed = noted\nsave ok = noted\n",
            0,
            b"hello!\n",
            b"",
        ),
        (
            plan(DiskCall::Sync, 1, 0),
            b"sync ok = noted\nsave failed = noted\n",
            9,
            FILE,
            &SWAP[..FIRST],
        ),
        (
            plan(DiskCall::Replace, 0, 0),
            b"sync ok = noted\nsave failed = noted\n",
            5,
            FILE,
            &SWAP[..FIRST],
        ),
        (
            plan(DiskCall::Replace, 0, 1),
            b"sync ok = noted\nsave failed = noted\n",
            5,
            b"hello!\n",
            &SWAP[..FIRST],
        ),
        (
            plan(DiskCall::Reset, 0, 0),
            b"sync ok = noted\nsave failed = noted\n",
            9,
            b"hello!\n",
            &SWAP[..FIRST],
        ),
        (
            plan(DiskCall::Reset, 0, 1),
            b"sync ok = noted\nsave failed = noted\n",
            9,
            b"hello!\n",
            b"",
        ),
        // No second append is made.
        (
            plan(DiskCall::Append, 1, 0),
            b"sync ok = noted\nsave ok = noted\n",
            0,
            b"hello!\n",
            b"",
        ),
    ];
    for (failing, outcomes, code, saved, swap) in table {
        let left = edits(alloc, script, FILE, b"", &[failing])?;
        assert_eq!(rt; left.status.code(), code);
        assert_eq!(rt; told(alloc, &left.written)?.as_slice(), outcomes);
        assert_eq!(rt; left.written.is_empty(), outcomes.is_empty());
        assert_eq!(rt; left.saved.as_slice(), saved);
        assert_eq!(rt; left.swap.as_slice(), swap);
    }
    Ok(())
}

#[test]
fn the_script_or_the_output_fails(rt: HostRuntime) -> Result<(), Fail> {
    let alloc = rt.alloc();
    let script = b"insert 0 5 \"!\"\nsync\nsave";
    for (fails_reading, code, file) in [(true, 3, FILE), (false, 10, b"hello!\n")] {
        let failing = vec![in alloc; 0; 1]?;
        let (reads, writes) = if fails_reading {
            (failing, Vec::new(alloc))
        } else {
            (Vec::new(alloc), failing)
        };
        let mut source = MemSource::new(script.to_vec(alloc)?, reads);
        let mut disk = MemDisk::new(FILE.to_vec(alloc)?, Vec::new(alloc), Vec::new(alloc));
        let mut sink = MemSink::new(alloc, writes);
        let status = edit_alone(alloc, &mut source, &mut disk, &mut sink, &PlainChecker);
        assert_eq!(rt; ended(status)?.code(), code);
        assert!(rt; sink.bytes().is_empty());
        let (saved, swap) = files(&disk)?;
        assert_eq!(rt; saved.as_slice(), file);
        assert!(rt; swap.is_empty());
    }
    Ok(())
}

#[test]
fn a_lost_swap_file_is_whole_again_after_a_save(rt: HostRuntime) -> Result<(), Fail> {
    let alloc = rt.alloc();
    let append = plan(DiskCall::Append, 0, 10);
    let reset = plan(DiskCall::Reset, 0, 0);
    let table: [(&[u8], &[DiskPlan], &[u8], u8, &[u8]); 5] = [
        (
            SCRIPT,
            &[append],
            b"append failed = noted\n",
            9,
            &SWAP[..10],
        ),
        // The saved file has the digest of the swap file's header, so the reset comes first.
        (
            b"insert 0 5 \"!\"\nundo\nsave",
            &[append],
            b"append failed = noted\nsave ok = noted\n",
            0,
            b"",
        ),
        (
            b"insert 0 5 \"!\"\nundo\nsave",
            &[append, reset],
            b"append failed = noted\nsave failed = noted\n",
            9,
            &SWAP[..10],
        ),
        // Nothing is appended, and nothing made safe, while it is lost.
        (
            b"insert 0 5 \"!\"\nundo\nsync\nredo\nundo",
            &[append],
            b"append failed = noted\nsync failed = noted\n",
            9,
            &SWAP[..10],
        ),
        (
            b"insert 0 5 \"!\"\nundo\nsave\ninsert 0 5 \"!\"\nsync",
            &[append],
            b"append failed = noted\nsave ok = noted\nsync ok = noted\n",
            0,
            &SWAP[..FIRST],
        ),
    ];
    for (script, failing, outcomes, code, swap) in table {
        let left = edits(alloc, script, FILE, b"", failing)?;
        assert_eq!(rt; left.status.code(), code);
        assert_eq!(rt; told(alloc, &left.written)?.as_slice(), outcomes);
        assert_eq!(rt; left.saved.as_slice(), FILE);
        assert_eq!(rt; left.swap.as_slice(), swap);
    }
    Ok(())
}

#[test]
fn an_edit_is_refused_beside_a_swap_file(rt: HostRuntime) -> Result<(), Fail> {
    let alloc = rt.alloc();
    let table: [(&[u8], &[u8], u64); 3] = [
        (FILE, &SWAP[..FIRST], 62),
        (FILE, b"x", 1),
        // Before the saved file is judged.
        (b"\xC3", SWAP, 77),
    ];
    for (file, swap, bytes) in table {
        let left = edits(alloc, SCRIPT, file, swap, &[])?;
        assert_eq!(rt; left.status, Status::SwapPresent { bytes });
        assert!(rt; left.written.is_empty());
        assert_eq!(rt; left.saved.as_slice(), file);
        assert_eq!(rt; left.swap.as_slice(), swap);
    }
    // A script at fault comes first.
    let left = edits(alloc, b"insert 0 x \"a\"", FILE, SWAP, &[])?;
    assert_eq!(rt; left.status.code(), 4);
    Ok(())
}
/// The status of a recovery, and what it prints.
fn recovery(alloc: Global, file: &[u8], swap: &[u8]) -> Result<(Status, Vec<u8>), Fail> {
    let mut disk = CalmDisk::new(file.to_vec(alloc)?, swap.to_vec(alloc)?);
    let mut sink = CalmSink::new(alloc);
    let status = recover_file(alloc, &mut disk, &mut sink);
    Ok((ended(status)?, sink.bytes().to_vec(alloc)?))
}

/// What is printed of a swap file that has so many transactions, and this tail.
fn printed(alloc: Global, first: &[u8], rest: &[u8]) -> Result<Vec<u8>, AllocError> {
    let mut printed = first.to_vec(alloc)?;
    printed.extend_from_slice(rest)?;
    Ok(printed)
}

#[test]
fn a_swap_file_cut_at_each_length(rt: HostRuntime) -> Result<(), Fail> {
    let alloc = rt.alloc();
    let torn = printed(alloc, b"transactions 0\ntail torn\n", UNCHANGED)?;
    let clean = printed(alloc, b"transactions 0\ntail clean\n", UNCHANGED)?;
    for length in 0..FIRST + 1 {
        let (status, written) = recovery(alloc, FILE, &SWAP[..length])?;
        let (wanted, text): (Status, &[u8]) = match length {
            0 => (Status::NoSwap, b""),
            HEADER => (Status::Ok, &clean),
            FIRST => (Status::Ok, RECOVERED),
            _ => (Status::Ok, &torn),
        };
        assert_eq!(rt; status, wanted);
        assert_eq!(rt; written.as_slice(), text);
    }
    Ok(())
}

#[test]
fn a_swap_file_that_is_refused_or_damaged(rt: HostRuntime) -> Result<(), Fail> {
    let alloc = rt.alloc();
    let mut damaged = SWAP[..FIRST].to_vec(alloc)?;
    damaged.push(b'X')?;
    let mut other = SWAP[..FIRST].to_vec(alloc)?;
    other.truncate(21);
    other.extend_from_slice(b"1")?;
    let shown = printed(
        alloc,
        b"transactions 1\ntail damaged 62\n",
        &RECOVERED[26..],
    )?;
    let changed = Status::FileChanged {
        kept: BASE,
        found: EMPTY,
    };
    let table: [(&[u8], &[u8], Status, &[u8]); 7] = [
        (b"", &SWAP[..FIRST], changed, b""),
        (FILE, &damaged, Status::Damaged { at: 62, done: 1 }, &shown),
        (FILE, &other, Status::Version, b""),
        (b"a\xFF", &SWAP[..FIRST], Status::NotUtf8 { at: 1 }, b""),
        // The first cause is told: no swap file, a file that is refused, a version, another file.
        (b"a\xFF", b"", Status::NoSwap, b""),
        (b"a\xFF", &other, Status::NotUtf8 { at: 1 }, b""),
        (b"", &other, Status::Version, b""),
    ];
    for (file, swap, wanted, text) in table {
        let (status, written) = recovery(alloc, file, swap)?;
        assert_eq!(rt; status, wanted);
        assert_eq!(rt; written.as_slice(), text);
    }
    Ok(())
}

#[test]
fn what_an_edit_leaves_is_recovered(rt: HostRuntime) -> Result<(), Fail> {
    let alloc = rt.alloc();
    let left = edits(
        alloc,
        b"begin\ninsert 0 0 \"a\\nb\"\nremove 0 0 0 1\nend",
        FILE,
        b"",
        &[],
    )?;
    let (status, written) = recovery(alloc, &left.saved, &left.swap)?;
    assert_eq!(rt; status, Status::Ok);
    assert_eq!(rt;
        written.as_slice(),
        b"transactions 1\ntail clean\ndigest 68dc28058bd683a50d45c5256ac916d47ac7ece7\n\
text\n|\n|bhello\n|\n"
            .as_slice()
    );
    Ok(())
}

#[test]
fn a_recovery_whose_disk_or_output_fails(rt: HostRuntime) -> Result<(), Fail> {
    let alloc = rt.alloc();
    let calls = [
        DiskCall::SwapLen,
        DiskCall::SavedLen,
        DiskCall::SavedAt,
        DiskCall::SwapAt,
    ];
    for call in calls {
        let failing = vec![in alloc; plan(call, 0, 0)]?;
        let mut disk = MemDisk::new(FILE.to_vec(alloc)?, SWAP.to_vec(alloc)?, failing);
        let mut sink = CalmSink::new(alloc);
        let status = recover_file(alloc, &mut disk, &mut sink);
        assert_eq!(rt; ended(status)?, Status::DiskFault);
        assert!(rt; sink.bytes().is_empty());
    }
    let mut disk = MemDisk::new(FILE.to_vec(alloc)?, SWAP.to_vec(alloc)?, Vec::new(alloc));
    let mut sink = MemSink::new(alloc, vec![in alloc; 0; 1]?);
    let status = recover_file(alloc, &mut disk, &mut sink);
    assert_eq!(rt; ended(status)?, Status::WriteFault);
    assert!(rt; sink.bytes().is_empty());
    let (saved, swap) = files(&disk)?;
    assert_eq!(rt; saved.as_slice(), FILE);
    assert_eq!(rt; swap.as_slice(), SWAP.as_slice());
    Ok(())
}
