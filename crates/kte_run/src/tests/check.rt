ghost use Rattle.std.specs.Prelude.{IfOk};
ghost use Rattle.kte_find.specs.Findings.{AreFindings};

use super::{ended, outcome, words};
use crate::{Status, run};
use kte_causes::{CalmDisk, CalmSink, CalmSource};
use kte_find::{Checker, PlainChecker, Rule};
use kte_place::Spans;
use kte_text::Text;
use std::alloc::{AllocError, Global};
use std::sync::atomic::{AtomicU64, Ordering};
use std::test::Fail;
use std::thread;

// more than enough for a thread to come to its check
const MAX_LOOKS: u64 = 1_000_000_000;

/// A checker that waits in each check, for a while, until as many have begun as it hopes for.
#[derive(Drop)]
struct Meeting {
    begun: AtomicU64,
    hoped: u64,
    // how many checks have met the others
    met: AtomicU64,
}

impl Checker for Meeting {
    fn check(&self, alloc: Global, rule: &Rule, text: &Text) -> Result<Spans, AllocError> {
        self.begun.fetch_add(1, Ordering::SeqCst);
        for _ in 0..MAX_LOOKS {
            if self.begun.load(Ordering::SeqCst) == self.hoped {
                self.met.fetch_add(1, Ordering::SeqCst);
                break;
            }
            thread::yield_now();
        }
        PlainChecker.check(alloc, rule, text)
    }
}

#[test]
fn two_checks_run_at_once(rt: HostRuntime) -> Result<(), Fail> {
    let alloc = rt.alloc();
    let words = words(alloc, &["check", "2", "file"])?;
    let mut script = CalmSource::new(b"check blanks\ncheck pairs".to_vec(alloc)?);
    let mut disk = CalmDisk::new(b"(a  ".to_vec(alloc)?, Vec::new(alloc));
    let mut sink = CalmSink::new(alloc);
    let checker = Meeting {
        begun: AtomicU64::new(0),
        hoped: 2,
        met: AtomicU64::new(0),
    };
    let status = run(
        &rt,
        alloc,
        &words,
        &mut script,
        &mut disk,
        &mut sink,
        &checker,
    );
    assert_eq!(rt; ended(status)?, Status::Ok);
    assert_eq!(rt; checker.met.load(Ordering::SeqCst), 2);
    Ok(())
}

/// A checker that runs out of memory over pairs.
#[derive(Drop)]
struct OutOfMemory;

impl Checker for OutOfMemory {
    fn check(&self, alloc: Global, rule: &Rule, text: &Text) -> Result<Spans, AllocError> {
        match rule {
            Rule::Pairs => Err(AllocError),
            _ => PlainChecker.check(alloc, rule, text),
        }
    }
}

#[test]
fn a_checker_without_memory_ends_the_run(rt: HostRuntime) -> Result<(), Fail> {
    let alloc = rt.alloc();
    for workers in ["1", "2", "16"] {
        let words = words(alloc, &["check", workers, "file"])?;
        let script = b"check blanks\ncheck pairs\ncheck blanks\ninsert 0 0 \"a\"";
        let mut script = CalmSource::new(script.to_vec(alloc)?);
        let mut disk = CalmDisk::new(b"(a  ".to_vec(alloc)?, Vec::new(alloc));
        let mut sink = CalmSink::new(alloc);
        let status = run(
            &rt,
            alloc,
            &words,
            &mut script,
            &mut disk,
            &mut sink,
            &OutOfMemory,
        );
        assert_eq!(rt; status, Status::NoMemory);
        assert!(rt; sink.bytes().is_empty());
    }
    Ok(())
}

#[test]
fn a_run_without_jobs_ends(rt: HostRuntime) -> Result<(), Fail> {
    let (status, written) = outcome(&rt, rt.alloc(), &["check", "16", "file"], b"", b"")?;
    assert_eq!(rt; status, Status::Ok);
    assert!(rt; written.starts_with(b"journal 1\n0 close = closed\nreport\n"));
    Ok(())
}
