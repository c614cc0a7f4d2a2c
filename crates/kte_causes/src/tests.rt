use crate::{
    CalmDisk, CalmSink, CalmSource, Disk, DiskCall, DiskFail, DiskPlan, FileDisk, MemDisk, MemSink,
    MemSource, ReadFault, Sink, SinkFail, Source, StdSink, StdSource, read_whole, write_whole,
};
use std::alloc::Global;
use std::fs::Permissions;
use std::io::{ErrorKind, Read, Write};
use std::os::unix::fs::{PermissionsExt, symlink};
use std::rt::Files;
use std::test::Fail;
use std::{fs, io};

const LIMIT: u64 = 10_000;

// Passes a source on to a sink, and to a disk. Returns the length of the swap file before it is
// emptied.
fn pass<S: Source, O: Sink, D: Disk>(
    alloc: Global,
    source: &mut S,
    sink: &mut O,
    disk: &mut D,
) -> Result<u64, Fail> {
    let bytes = read_whole(alloc, source, LIMIT)?;
    write_whole(sink, &bytes)?;
    Ok(swapped(disk, &bytes)?)
}

// Makes the calls of a save, after an append.
fn swapped<D: Disk>(disk: &mut D, bytes: &[u8]) -> Result<u64, DiskFail> {
    disk.append(bytes)?;
    disk.sync()?;
    disk.replace(bytes)?;
    let length = disk.swap_len()?;
    disk.reset()?;
    Ok(length)
}

#[test]
fn calm_objects_pass_the_bytes_on(rt: HostRuntime) -> Result<(), Fail> {
    let alloc = rt.alloc();
    let mut source = CalmSource::new(b"hello".to_vec(alloc)?);
    let mut sink = CalmSink::new(alloc);
    let mut disk = CalmDisk::new(b"saved".to_vec(alloc)?, b"ab".to_vec(alloc)?);
    assert_eq!(rt; pass(alloc, &mut source, &mut sink, &mut disk)?, 7);
    assert_eq!(rt; sink.bytes(), b"hello".as_slice());
    Ok(())
}

#[test]
fn objects_without_plans_pass_the_bytes_on(rt: HostRuntime) -> Result<(), Fail> {
    let alloc = rt.alloc();
    let mut source = MemSource::new(b"hello".to_vec(alloc)?, Vec::new(alloc));
    let mut sink = MemSink::new(alloc, Vec::new(alloc));
    let (saved, swap) = (b"saved".to_vec(alloc)?, b"ab".to_vec(alloc)?);
    let mut disk = MemDisk::new(saved, swap, Vec::new(alloc));
    assert_eq!(rt; pass(alloc, &mut source, &mut sink, &mut disk)?, 7);
    assert_eq!(rt; sink.bytes(), b"hello".as_slice());
    Ok(())
}

#[test]
fn a_source_is_read_up_to_the_limit(rt: HostRuntime) -> Result<(), Fail> {
    let alloc = rt.alloc();
    let table: [(&[u8], u64, Option<&[u8]>); 6] = [
        (b"", 0, Some(b"")),
        (b"", 3, Some(b"")),
        (b"abc", 4, Some(b"abc")),
        (b"abc", 3, Some(b"abc")),
        (b"abc", 2, None),
        (b"abc", 0, None),
    ];
    for (bytes, limit, want) in table {
        let mut source = CalmSource::new(bytes.to_vec(alloc)?);
        match read_whole(alloc, &mut source, limit) {
            Ok(read) => assert_eq!(rt; Some(read.as_slice()), want),
            Err(fault) => {
                assert_eq!(rt; fault, ReadFault::TooLong);
                assert_eq!(rt; want, None);
            }
        }
    }
    Ok(())
}

#[test]
fn a_read_that_fails_in_mid_stream_leaves_the_rest(rt: HostRuntime) -> Result<(), Fail> {
    let alloc = rt.alloc();
    let mut source = MemSource::new(vec![in alloc; 7; 5000]?, vec![in alloc; 1]?);
    assert_eq!(rt;
        read_whole(alloc, &mut source, LIMIT),
        Err(ReadFault::Failed)
    );
    // The first read took 4096 bytes.
    assert_eq!(rt;
        read_whole(alloc, &mut source, LIMIT)?,
        vec![in alloc; 7; 904]?
    );
    Ok(())
}

#[test]
fn a_write_that_fails_leaves_what_was_written(rt: HostRuntime) -> Result<(), Fail> {
    let alloc = rt.alloc();
    let mut sink = MemSink::new(alloc, vec![in alloc; 1]?);
    assert_eq!(rt; write_whole(&mut sink, b"ab"), Ok(()));
    assert_eq!(rt; write_whole(&mut sink, b"cd"), Err(SinkFail::Failed));
    assert_eq!(rt; write_whole(&mut sink, b"ef"), Ok(()));
    assert_eq!(rt; sink.bytes(), b"abef".as_slice());
    Ok(())
}

// Makes one call. An append adds "xyz", and a replace gives the saved file "new".
fn make(disk: &mut MemDisk, call: DiskCall) -> Result<(), DiskFail> {
    match call {
        DiskCall::SavedLen => disk.saved_len().map(|_| ()),
        DiskCall::SavedAt => disk.saved_at(0, &mut []),
        DiskCall::SwapLen => disk.swap_len().map(|_| ()),
        DiskCall::SwapAt => disk.swap_at(0, &mut []),
        DiskCall::Append => disk.append(b"xyz"),
        DiskCall::Sync => disk.sync(),
        DiskCall::Replace => disk.replace(b"new"),
        DiskCall::Reset => disk.reset(),
    }
}

// A moment: the saved file, the whole swap file, and how many bytes of it are synced.
type Shown<'a> = (&'a [u8], &'a [u8], u64);

// Whether a moment of a disk is this one.
fn is_at(disk: &MemDisk, moment: u64, shown: Shown<'_>) -> Result<bool, Fail> {
    if moment >= disk.count() {
        return Ok(false);
    }
    let (synced, whole) = disk.cuts(moment);
    let (saved, swap) = disk.image(moment, whole)?;
    Ok(saved.as_slice() == shown.0 && swap.as_slice() == shown.1 && synced == shown.2)
}

// Makes a call twice with a plan for it, on a disk with the saved file "old" and the swap file "ab" to
// which "c" was added. Gives the disk, and whether the two calls went well.
fn made_twice(
    alloc: Global,
    call: DiskCall,
    nth: u64,
    done: u64,
) -> Result<(MemDisk, [bool; 2]), Fail> {
    let saved = b"old".to_vec(alloc)?;
    let swap = b"ab".to_vec(alloc)?;
    // Of two plans for one call the first counts.
    let plans = [
        DiskPlan { call, nth, done },
        DiskPlan { call, nth, done: 1 },
    ];
    let mut disk = MemDisk::new(saved, swap, plans.to_vec(alloc)?);
    disk.append(b"c")?;
    let first = make(&mut disk, call).is_ok();
    let second = make(&mut disk, call).is_ok();
    Ok((disk, [first, second]))
}

// A row has the plan, whether the two calls went well, and the moments after them.
#[test]
fn planned_calls_fail_and_leave_what_they_are_to(rt: HostRuntime) -> Result<(), Fail> {
    let alloc = rt.alloc();
    let first: Shown<'_> = (b"old", b"ab", 2);
    let same: Shown<'_> = (b"old", b"abc", 2);
    let synced: Shown<'_> = (b"old", b"abc", 3);
    let new: Shown<'_> = (b"new", b"abc", 2);
    let empty: Shown<'_> = (b"old", b"", 0);
    let table: [(DiskCall, u64, u64, [bool; 2], [Shown<'_>; 2]); 18] = [
        (DiskCall::SavedLen, 0, 0, [false, true], [same, same]),
        (DiskCall::SavedAt, 1, 0, [true, false], [same, same]),
        (DiskCall::SwapLen, 1, 0, [true, false], [same, same]),
        (DiskCall::SwapAt, 0, 0, [false, true], [same, same]),
        (
            DiskCall::Append,
            1,
            0,
            [false, true],
            [same, (b"old", b"abcxyz", 2)],
        ),
        (
            DiskCall::Append,
            1,
            2,
            [false, true],
            [(b"old", b"abcxy", 2), (b"old", b"abcxyxyz", 2)],
        ),
        (
            DiskCall::Append,
            1,
            3,
            [false, true],
            [(b"old", b"abcxyz", 2), (b"old", b"abcxyzxyz", 2)],
        ),
        (
            DiskCall::Append,
            2,
            9,
            [true, false],
            [(b"old", b"abcxyz", 2), (b"old", b"abcxyzxyz", 2)],
        ),
        (
            DiskCall::Append,
            3,
            0,
            [true, true],
            [(b"old", b"abcxyz", 2), (b"old", b"abcxyzxyz", 2)],
        ),
        (DiskCall::Sync, 0, 1, [false, true], [same, synced]),
        (DiskCall::Sync, 1, 0, [true, false], [synced, synced]),
        (DiskCall::Replace, 0, 0, [false, true], [same, new]),
        (DiskCall::Replace, 0, 1, [false, true], [new, new]),
        (DiskCall::Replace, 1, 0, [true, false], [new, new]),
        (DiskCall::Reset, 0, 0, [false, true], [same, empty]),
        (DiskCall::Reset, 0, 7, [false, true], [empty, empty]),
        (DiskCall::Reset, 1, 0, [true, false], [empty, empty]),
        (DiskCall::Reset, 2, 1, [true, true], [empty, empty]),
    ];
    for (call, nth, done, went_well, after) in table {
        let (disk, ok) = made_twice(alloc, call, nth, done)?;
        assert_eq!(rt; ok, went_well);
        assert_eq!(rt; disk.count(), 4);
        for (moment, shown) in [(0, first), (1, same), (2, after[0]), (3, after[1])] {
            assert!(rt; is_at(&disk, moment, shown)?);
        }
    }
    Ok(())
}

// A reader that gives these pieces, or fails, in turn, and then ends.
#[derive(Drop)]
struct Reader<'a> {
    steps: &'a [Result<&'a [u8], ErrorKind>],
    at: usize,
}

impl Read for Reader<'_> {
    fn read(&mut self, buf: &mut [u8]) -> io::Result<usize> {
        let Some(step) = self.steps.get(self.at) else {
            return Ok(0);
        };
        self.at = self.at.saturating_add(1);
        match step {
            Ok(piece) => {
                let count = piece.len().min(buf.len());
                buf[..count].copy_from_slice(&piece[..count]);
                Ok(count)
            }
            Err(kind) => Err(io::Error::from(*kind)),
        }
    }
}

#[test]
fn no_read_of_std_is_lost_or_taken_for_the_end(rt: HostRuntime) -> Result<(), Fail> {
    let alloc = rt.alloc();
    let table: [(&[Result<&[u8], ErrorKind>], Result<&[u8], ReadFault>, &[u8]); 4] = [
        (
            &[
                Err(ErrorKind::Interrupted),
                Ok(b"he"),
                Err(ErrorKind::Interrupted),
                Ok(b"llo"),
            ],
            Ok(b"hello"),
            b"",
        ),
        (&[Ok(b"he"), Ok(b""), Ok(b"llo")], Ok(b"he"), b"llo"),
        (
            &[Ok(b"he"), Err(ErrorKind::Other), Ok(b"llo")],
            Err(ReadFault::Failed),
            b"llo",
        ),
        (
            &[Err(ErrorKind::OutOfMemory), Ok(b"hello")],
            Err(ReadFault::Failed),
            b"hello",
        ),
    ];
    for (steps, want, rest) in table {
        let mut source = StdSource::new(Reader { steps, at: 0 });
        match read_whole(alloc, &mut source, LIMIT) {
            Ok(read) => assert_eq!(rt; Ok(read.as_slice()), want),
            Err(fault) => assert_eq!(rt; Err(fault), want),
        }
        assert_eq!(rt; read_whole(alloc, &mut source, LIMIT)?.as_slice(), rest);
    }
    Ok(())
}

// A writer that takes so many bytes, or fails, in turn, and then takes all.
#[derive(Drop)]
struct Writer<'a> {
    steps: &'a [Result<usize, ErrorKind>],
    at: usize,
    got: &'a mut Vec<u8>,
}

impl Write for Writer<'_> {
    fn write(&mut self, buf: &[u8]) -> io::Result<usize> {
        let step = match self.steps.get(self.at) {
            Some(step) => *step,
            None => Ok(buf.len()),
        };
        self.at = self.at.saturating_add(1);
        let count = step.map_err(io::Error::from)?.min(buf.len());
        self.got.extend_from_slice(&buf[..count])?;
        Ok(count)
    }

    fn flush(&mut self) -> io::Result<()> {
        Ok(())
    }
}

#[test]
fn no_write_of_std_is_lost_or_taken_for_the_whole(rt: HostRuntime) -> Result<(), Fail> {
    let alloc = rt.alloc();
    let interrupted = Err(ErrorKind::Interrupted);
    let table: [(&[Result<usize, ErrorKind>], Result<(), SinkFail>, &[u8]); 4] = [
        (&[interrupted, Ok(2), interrupted, Ok(9)], Ok(()), b"hello"),
        (&[Ok(2), Ok(0)], Err(SinkFail::Failed), b"he"),
        (
            &[Ok(2), Err(ErrorKind::StorageFull)],
            Err(SinkFail::Failed),
            b"he",
        ),
        (
            &[Ok(1), Err(ErrorKind::OutOfMemory)],
            Err(SinkFail::NoMemory),
            b"h",
        ),
    ];
    for (steps, want, got) in table {
        let mut bytes = Vec::new(alloc);
        let mut sink = StdSink::new(Writer {
            steps,
            at: 0,
            got: &mut bytes,
        });
        assert_eq!(rt; write_whole(&mut sink, b"hello"), want);
        drop(sink);
        assert_eq!(rt; bytes.as_slice(), got);
    }
    Ok(())
}

// Asks a file for its length, for three bytes from the second on, and for more than it has.
fn read_file<R: Files>(
    disk: &mut FileDisk<'_, R>,
    buf: &mut [u8; 3],
) -> (
    Result<u64, DiskFail>,
    Result<(), DiskFail>,
    Result<(), DiskFail>,
) {
    let mut more = [0; 3];
    let length = disk.saved_len();
    let middle = disk.saved_at(1, buf);
    (length, middle, disk.saved_at(3, &mut more))
}

#[test]
fn a_file_is_a_disk(rt: HostRuntime) -> Result<(), Fail> {
    let path = "kte_causes_disk.tmp";
    let mut disk = FileDisk::new(rt.alloc(), &rt, path);
    let mut buf = [0; 3];
    let missing = read_file(&mut disk, &mut buf);
    fs::write(&rt, path, "hello")?;
    let there = read_file(&mut disk, &mut buf);
    fs::remove_file(&rt, path)?;
    let fault = Err(DiskFail::Failed);
    assert!(rt; missing == (Err(DiskFail::Failed), fault, fault));
    assert!(rt; there == (Ok(5), Ok(()), fault));
    assert_eq!(rt; buf.as_slice(), b"ell".as_slice());
    Ok(())
}

// Adds to a swap file that is not there, syncs it and reads it back.
fn write_swap<R: Files>(
    disk: &mut FileDisk<'_, R>,
    buf: &mut [u8; 3],
) -> (Result<u64, DiskFail>, bool, Result<u64, DiskFail>) {
    let missing = disk.swap_len();
    let first = disk.append(b"ab").is_ok();
    let second = disk.append(b"cde").is_ok();
    let synced = disk.sync().is_ok();
    let read = disk.swap_at(1, buf).is_ok();
    (missing, first && second && synced && read, disk.swap_len())
}

#[test]
fn the_swap_file_lies_beside_the_file(rt: HostRuntime) -> Result<(), Fail> {
    let folder = "kte_causes_swap.tmp";
    let path = "kte_causes_swap.tmp/a.txt";
    fs::create_dir(&rt, folder)?;
    let mut disk = FileDisk::new(rt.alloc(), &rt, path);
    let mut buf = [0; 3];
    let written = write_swap(&mut disk, &mut buf);
    let reset = disk.reset().is_ok() && disk.append(b"f").is_ok();
    let swap = fs::read_to_string(&rt, "kte_causes_swap.tmp/.a.txt.kate-swp");
    fs::remove_dir_all(&rt, folder)?;
    assert!(rt; written == (Ok(0), true, Ok(5)));
    assert_eq!(rt; buf.as_slice(), b"bcd".as_slice());
    assert!(rt; reset);
    assert_eq!(rt; swap?.as_str(), "f");
    let mut nowhere = FileDisk::new(rt.alloc(), &rt, path);
    assert!(rt; nowhere.append(b"x").is_err(), "the folder is not there");
    Ok(())
}

// Replaces a file through a link. Gives its length before and after.
fn replaced<R: Files>(
    disk: &mut FileDisk<'_, R>,
) -> (Result<u64, DiskFail>, bool, Result<u64, DiskFail>) {
    let before = disk.saved_len();
    let replaced = disk.replace(b"hi").is_ok();
    (before, replaced, disk.saved_len())
}

#[test]
fn a_replace_goes_to_the_file_that_a_link_names(rt: HostRuntime) -> Result<(), Fail> {
    let folder = "kte_causes_link.tmp";
    let file = "kte_causes_link.tmp/file.txt";
    let link = "kte_causes_link.tmp/link.txt";
    fs::create_dir(&rt, folder)?;
    fs::write(&rt, file, "hello")?;
    fs::set_permissions(&rt, file, Permissions::from_mode(0o640))?;
    symlink(&rt, "file.txt", link)?;
    let mut disk = FileDisk::new(rt.alloc(), &rt, link);
    let lengths = replaced(&mut disk);
    let text = fs::read_to_string(&rt, file)?;
    let mode = fs::metadata(&rt, file)?.permissions().mode();
    let is_link = fs::symlink_metadata(&rt, link)?.is_symlink();
    fs::remove_dir_all(&rt, folder)?;
    assert!(rt; lengths == (Ok(5), true, Ok(2)));
    assert_eq!(rt; text.as_str(), "hi");
    assert_eq!(rt; mode & 0o777, 0o640);
    assert!(rt; is_link);
    Ok(())
}
