ghost use Rattle.std.specs.Prelude.{IfOk};
ghost use Rattle.std.specs.List.{AllByRecursion};
ghost use Rattle.kte_swap.specs.Swap.{HasRecord};

use crate::{SaveFault, Swap, SwapFault, SwapState};
use kte_causes::{DiskCall, DiskPlan, MemDisk};
use kte_text::{Batch, Digest, Line, Primitive};
use std::alloc::{AllocError, Global};
use std::test::Fail;

const SAVED: &[u8; 6] = b"hello\n";

const NEW: &[u8; 7] = b"hello!\n";

// The digest of `SAVED`, as `git hash-object` prints it.
const BASE: Digest = Digest([
    0xce, 0x01, 0x36, 0x25, 0x03, 0x0b, 0xa8, 0xdb, 0xa9, 0x06, 0xf7, 0x56, 0x96, 0x7f, 0x9e, 0x9c,
    0xa3, 0x94, 0x46, 0x4a,
]);

// The swap file beside `SAVED` in which "!" was inserted after "hello", and then removed again.
const SWAP: &[u8; 77] = b"\0\0\0\x12Kate Swap File 2.0\0\0\0\x14\
\xce\x01\x36\x25\x03\x0b\xa8\xdb\xa9\x06\xf7\x56\x96\x7f\x9e\x9c\xa3\x94\x46\x4a\
SI\0\0\0\0\0\0\0\x05\0\0\0\x01!ESR\0\0\0\0\0\0\0\x05\0\0\0\x06E";

const FIRST: u64 = 62;

const BOTH: u64 = 77;

fn insertion(alloc: Global) -> Result<Batch, Fail>
    ensures { IfOk result (λ batch. AllByRecursion HasRecord batch) }
{
    let mut batch = Batch::new(alloc);
    batch.push(Primitive::Insert {
        line: 0,
        column: 5,
        text: Line::from_utf8(alloc, "!")?,
    })?;
    Ok(batch)
}

fn removal(alloc: Global) -> Result<Batch, AllocError>
    ensures { IfOk result (λ batch. AllByRecursion HasRecord batch) }
{
    let mut batch = Batch::new(alloc);
    batch.push(Primitive::Remove {
        line: 0,
        column: 5,
        length: 1,
    })?;
    Ok(batch)
}

fn disk_of(alloc: Global, plans: &[DiskPlan]) -> Result<MemDisk, AllocError> {
    let (saved, swap) = (SAVED.to_vec(alloc)?, Vec::new(alloc));
    Ok(MemDisk::new(saved, swap, plans.to_vec(alloc)?))
}

// A moment: the saved file, and how many bytes the swap file has and how many of them are synced.
// The swap file's bytes are the first ones of `SWAP`.
type Shown<'a> = (&'a [u8], u64, u64);

// Whether the last moment of a disk is this one.
fn is_at(disk: &MemDisk, shown: Shown<'_>) -> Result<bool, Fail> {
    let last = disk.count().saturating_sub(1);
    if last >= disk.count() {
        return Ok(false);
    }
    let (synced, whole) = disk.cuts(last);
    let (saved, swap) = disk.image(last, whole)?;
    let front = SWAP.get(..shown.1 as usize).unwrap_or(b"");
    Ok(saved.as_slice() == shown.0 && swap.as_slice() == front && synced == shown.2)
}

#[test]
fn each_transaction_is_one_append(rt: HostRuntime) -> Result<(), Fail> {
    let alloc = rt.alloc();
    let mut disk = disk_of(alloc, &[])?;
    let mut swap = Swap::new(alloc, BASE);
    assert_eq!(rt; swap.finish(&mut disk, &Batch::new(alloc)), Ok(true));
    assert_eq!(rt; disk.count(), 1);
    assert_eq!(rt; swap.finish(&mut disk, &insertion(alloc)?), Ok(true));
    assert!(rt; is_at(&disk, (SAVED, FIRST, 0))?);
    assert_eq!(rt; swap.finish(&mut disk, &removal(alloc)?), Ok(true));
    assert!(rt; is_at(&disk, (SAVED, BOTH, 0))?);
    assert_eq!(rt; disk.count(), 3);
    assert_eq!(rt; swap.sync(&mut disk), Ok(()));
    assert!(rt; is_at(&disk, (SAVED, BOTH, BOTH))?);
    assert_eq!(rt; swap.state(), SwapState::Guarded);
    Ok(())
}

#[test]
fn a_save_empties_the_swap_and_renews_its_base(rt: HostRuntime) -> Result<(), Fail> {
    let alloc = rt.alloc();
    let mut disk = disk_of(alloc, &[])?;
    let mut swap = Swap::new(alloc, Digest([0; 20]));
    assert_eq!(rt; swap.finish(&mut disk, &removal(alloc)?), Ok(true));
    assert_eq!(rt; swap.save(&mut disk, SAVED), Ok(()));
    assert!(rt; is_at(&disk, (SAVED, 0, 0))?);
    assert_eq!(rt; swap.state(), SwapState::Guarded);
    // The header has the digest of what was saved.
    assert_eq!(rt; swap.finish(&mut disk, &insertion(alloc)?), Ok(true));
    assert!(rt; is_at(&disk, (SAVED, FIRST, 0))?);
    Ok(())
}

// A failing append leaves so many bytes of a transaction, and nothing more is written.
#[test]
fn a_failing_append_loses_the_swap(rt: HostRuntime) -> Result<(), Fail> {
    let alloc = rt.alloc();
    for done in [0, 1, 14, 15] {
        let plan = DiskPlan {
            call: DiskCall::Append,
            nth: 1,
            done,
        };
        let mut disk = disk_of(alloc, &[plan])?;
        let mut swap = Swap::new(alloc, BASE);
        assert_eq!(rt; swap.finish(&mut disk, &insertion(alloc)?), Ok(true));
        let result = swap.finish(&mut disk, &removal(alloc)?);
        assert_eq!(rt; result, Err(SwapFault::Failed));
        assert_eq!(rt; swap.state(), SwapState::Lost);
        let length = FIRST.saturating_add(done);
        assert!(rt; is_at(&disk, (SAVED, length, 0))?);
        assert_eq!(rt; swap.finish(&mut disk, &removal(alloc)?), Ok(false));
        assert_eq!(rt; swap.sync(&mut disk), Err(SwapFault::Lost));
        assert_eq!(rt; disk.count(), 3);
    }
    Ok(())
}

// Two transactions, a save of `NEW` that fails, and one of `again`. Gives what both return, and
// the disk.
fn saved_twice(
    alloc: Global,
    call: DiskCall,
    done: u64,
    again: &[u8],
) -> Result<(Result<(), SaveFault>, Result<(), SaveFault>, MemDisk), Fail> {
    let plan = DiskPlan { call, nth: 0, done };
    let mut disk = disk_of(alloc, &[plan])?;
    let mut swap = Swap::new(alloc, BASE);
    swap.finish(&mut disk, &insertion(alloc)?)?;
    swap.finish(&mut disk, &removal(alloc)?)?;
    let first = swap.save(&mut disk, NEW);
    let second = swap.save(&mut disk, again);
    Ok((first, second, disk))
}

// Whether a moment, counted from 0, has this saved file and so long a swap file.
fn was_at(disk: &MemDisk, moment: u64, saved: &[u8], length: u64) -> Result<bool, Fail> {
    if moment >= disk.count() {
        return Ok(false);
    }
    let (_, whole) = disk.cuts(moment);
    let image = disk.image(moment, whole)?;
    Ok(image.0.as_slice() == saved && whole == length)
}

// A row has the call that fails, whether it takes place, and the number of moments after both
// saves. Each save that goes well ends with the new saved file and an empty swap file. A save of a
// lost swap first replaces, and first resets if the file that is saved is the one before.
#[test]
fn a_failing_save_is_named_and_the_next_one_goes_well(rt: HostRuntime) -> Result<(), Fail> {
    let alloc = rt.alloc();
    let table: [(DiskCall, u64, SaveFault, u64); 5] = [
        (DiskCall::Sync, 0, SaveFault::Sync, 6),
        (DiskCall::Replace, 0, SaveFault::Replace, 7),
        (DiskCall::Replace, 1, SaveFault::Replace, 7),
        (DiskCall::Reset, 0, SaveFault::Reset, 8),
        (DiskCall::Reset, 1, SaveFault::Reset, 8),
    ];
    for (call, done, fault, count) in table {
        let (first, second, disk) = saved_twice(alloc, call, done, NEW)?;
        assert_eq!(rt; first, Err(fault));
        assert_eq!(rt; second, Ok(()));
        assert_eq!(rt; disk.count(), count);
        let emptied = if call == DiskCall::Reset && done == 1 {
            0
        } else {
            BOTH
        };
        assert!(rt; was_at(&disk, count.saturating_sub(2), NEW, emptied)?);
        assert!(rt; is_at(&disk, (NEW, 0, 0))?);

        let (first, second, disk) = saved_twice(alloc, call, done, SAVED)?;
        assert_eq!(rt; first, Err(fault));
        assert_eq!(rt; second, Ok(()));
        assert_eq!(rt; disk.count(), count);
        let replaced = call == DiskCall::Reset || (call == DiskCall::Replace && done == 1);
        let before: &[u8] = if replaced { NEW } else { SAVED };
        assert!(rt; was_at(&disk, count.saturating_sub(2), before, 0)?);
        assert!(rt; is_at(&disk, (SAVED, 0, 0))?);
    }
    Ok(())
}

#[test]
fn a_failing_sync_loses_the_swap(rt: HostRuntime) -> Result<(), Fail> {
    let alloc = rt.alloc();
    let plan = DiskPlan {
        call: DiskCall::Sync,
        nth: 0,
        done: 0,
    };
    let mut disk = disk_of(alloc, &[plan])?;
    let mut swap = Swap::new(alloc, BASE);
    assert_eq!(rt; swap.sync(&mut disk), Err(SwapFault::Failed));
    assert_eq!(rt; swap.state(), SwapState::Lost);
    assert_eq!(rt; swap.sync(&mut disk), Err(SwapFault::Lost));
    assert_eq!(rt; disk.count(), 2);
    assert_eq!(rt; swap.save(&mut disk, SAVED), Ok(()));
    assert_eq!(rt; swap.sync(&mut disk), Ok(()));
    Ok(())
}

// Each primitive has its record, and a text outside ASCII its length in bytes.
#[test]
fn each_primitive_is_written(rt: HostRuntime) -> Result<(), Fail> {
    let alloc = rt.alloc();
    let mut batch = Batch::new(alloc);
    batch.push(Primitive::Wrap { line: 0, column: 2 })?;
    batch.push(Primitive::Insert {
        line: 1,
        column: 0,
        text: Line::from_utf8(alloc, "a\u{e9}\u{1F600}")?,
    })?;
    batch.push(Primitive::Unwrap { line: 1 })?;
    let mut disk = disk_of(alloc, &[])?;
    let mut swap = Swap::new(alloc, BASE);
    assert_eq!(rt; swap.finish(&mut disk, &batch), Ok(true));
    let (_, whole) = disk.cuts(1);
    let (_, bytes) = disk.image(1, whole)?;
    let records =
        b"SW\0\0\0\0\0\0\0\x02I\0\0\0\x01\0\0\0\0\0\0\0\x07a\xc3\xa9\xf0\x9f\x98\x80U\0\0\0\x01E";
    assert_eq!(rt; bytes.get(46..), Some(records.as_slice()));
    Ok(())
}
