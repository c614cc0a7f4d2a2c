use super::{FILE, ended, outcome, words};
use crate::{Status, generate, run};
use kte_causes::{CalmDisk, CalmSink, CalmSource, Disk, MemSink, Source};
use kte_find::PlainChecker;
use std::test::Fail;

const SUMMARY: &[u8] = b"commands 1\nevents 2\nlines 1\nrevision 0\nsize 0\nundo 0 0\nranges 0\n\
digest e69de29bb2d1d6434b8b29ae775ad8c2e48c5391\nrecovered 0\n";

#[test]
fn the_summary_of_one_command(rt: HostRuntime) -> Result<(), Fail> {
    let (status, written) = outcome(&rt, rt.alloc(), &["gen", "0", "1"], b"", b"")?;
    assert_eq!(rt; status, Status::Ok);
    assert_eq!(rt; written.as_slice(), SUMMARY);
    Ok(())
}

// Nothing is undone and nothing is saved, so each group that may be undone is a transaction in the
// swap file.
#[test]
fn each_transaction_is_recovered(rt: HostRuntime) -> Result<(), Fail> {
    let (status, written) = outcome(&rt, rt.alloc(), &["gen", "7", "40"], b"", b"")?;
    assert_eq!(rt; status, Status::Ok);
    let (mut undo, mut recovered) = (None, None);
    for line in str::from_utf8(&written)?.lines() {
        match line.split_once(' ') {
            Some(("undo", counts)) => undo = counts.strip_suffix(" 0"),
            Some(("recovered", count)) => recovered = Some(count),
            _ => {}
        }
    }
    assert!(rt; undo.is_some());
    assert_eq!(rt; undo, recovered);
    let (_, again) = outcome(&rt, rt.alloc(), &["gen", "7", "40"], b"", b"")?;
    assert_eq!(rt; again.as_slice(), written.as_slice());
    Ok(())
}

#[test]
fn script_and_disk_are_left(rt: HostRuntime) -> Result<(), Fail> {
    let alloc = rt.alloc();
    let words = words(alloc, &["gen", "0", "1"])?;
    let mut script = CalmSource::new(b"undo".to_vec(alloc)?);
    let mut disk = CalmDisk::new(FILE.to_vec(alloc)?, b"swap".to_vec(alloc)?);
    let mut sink = CalmSink::new(alloc);
    let status = run(
        &rt,
        alloc,
        &words,
        &mut script,
        &mut disk,
        &mut sink,
        &PlainChecker,
    );
    assert_eq!(rt; ended(status)?, Status::Ok);
    let mut piece = [0; 5];
    assert_eq!(rt; script.read(&mut piece)?, 4);
    assert_eq!(rt; disk.saved_len()?, 6);
    assert_eq!(rt; disk.swap_len()?, 4);
    Ok(())
}

#[test]
fn a_summary_that_is_not_written(rt: HostRuntime) -> Result<(), Fail> {
    let alloc = rt.alloc();
    let mut sink = MemSink::new(alloc, vec![in alloc; 0; 1]?);
    let status = generate(alloc, 0, 1, &mut sink);
    assert_eq!(rt; ended(status)?, Status::WriteFault);
    assert!(rt; sink.bytes().is_empty());
    Ok(())
}
