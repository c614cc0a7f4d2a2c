use crate::{RecoverFault, Recovered, Tail, recover};
use kte_record::write_header;
use kte_text::{LoadFault, digest, save};
use std::alloc::{AllocError, Global};
use std::test::Fail;

/// What a recovery comes to, without the text.
#[derive(Clone, Copy, Debug, PartialEq, Eq)]
enum Outcome {
    NoSwap,
    Refused,
    Version,
    Changed,
    Damaged { at: u64, done: u64 },
    Torn { done: u64 },
    Clean { done: u64 },
    NoMemory,
}

fn told_by(found: &Result<Recovered, RecoverFault>) -> Outcome {
    match found {
        Ok(found) => match found.tail {
            Tail::Clean => Outcome::Clean { done: found.done },
            Tail::Torn => Outcome::Torn { done: found.done },
        },
        Err(RecoverFault::NoSwap) => Outcome::NoSwap,
        Err(RecoverFault::Load(_)) => Outcome::Refused,
        Err(RecoverFault::Version) => Outcome::Version,
        Err(RecoverFault::FileChanged { .. }) => Outcome::Changed,
        Err(RecoverFault::Damaged(damage)) => Outcome::Damaged {
            at: damage.at,
            done: damage.done,
        },
        Err(RecoverFault::NoMemory) => Outcome::NoMemory,
    }
}

// The bytes that the recovered text is saved as, or none if there is no text.
fn saved_as(alloc: Global, found: &Result<Recovered, RecoverFault>) -> Result<Vec<u8>, AllocError> {
    match found {
        Ok(found) => save(alloc, &found.text, found.eol, found.bom),
        Err(RecoverFault::Damaged(damage)) => { save(alloc, &damage.text, damage.eol, damage.bom) }
        Err(_) => Ok(Vec::new(alloc)),
    }
}

// The swap file with these records beside a saved file.
fn swap_of(alloc: Global, saved: &[u8], records: &[u8]) -> Result<Vec<u8>, AllocError> {
    let mut swap = Vec::new(alloc);
    write_header(&digest(saved), &mut swap)?;
    swap.extend_from_slice(records)?;
    Ok(swap)
}

const SAVED: &[u8; 6] = b"hello\n";

// Two transactions, with a record of each kind.
const RECORDS: &[u8; 45] =
    b"SI\0\0\0\0\0\0\0\x05\0\0\0\x01!ESW\0\0\0\0\0\0\0\x02U\0\0\0\x01R\0\0\0\0\0\0\0\0\0\0\0\x01E";

// The saved text after so many of them.
fn after(done: u64) -> &'static [u8] {
    match done {
        0 => b"hello\n",
        1 => b"hello!\n",
        _ => b"ello!\n",
    }
}

fn is_right(alloc: Global, swap: &[u8], want: Outcome) -> Result<bool, AllocError> {
    let result = recover(alloc, SAVED, swap);
    if told_by(&result) != want {
        return Ok(false);
    }
    let bytes = saved_as(alloc, &result)?;
    Ok(match want {
        Outcome::Damaged { done, .. } | Outcome::Torn { done } | Outcome::Clean { done } => {
            bytes.as_slice() == after(done)
        }
        _ => bytes.is_empty(),
    })
}

#[test]
fn a_swap_file_is_cut_at_each_length(rt: HostRuntime) -> Result<(), Fail> {
    let alloc = rt.alloc();
    let swap = swap_of(alloc, SAVED, RECORDS)?;
    let table = [
        (Outcome::NoSwap, 1),
        (Outcome::Torn { done: 0 }, 45),
        (Outcome::Clean { done: 0 }, 1),
        (Outcome::Torn { done: 0 }, 15),
        (Outcome::Clean { done: 1 }, 1),
        (Outcome::Torn { done: 1 }, 28),
        (Outcome::Clean { done: 2 }, 1),
    ];
    let mut length = 0usize;
    for (want, count) in table {
        for _ in 0..count {
            let front = swap.get(..length).unwrap_or(b"");
            assert!(rt; is_right(alloc, front, want)?, "at {length}");
            length = length.saturating_add(1);
        }
    }
    assert_eq!(rt; length, swap.len() + 1);
    Ok(())
}

#[test]
fn the_lowest_bit_of_each_byte_is_changed(rt: HostRuntime) -> Result<(), Fail> {
    let table = [
        (Outcome::Version, 26),
        (Outcome::Changed, 20),
        (Outcome::Damaged { at: 46, done: 0 }, 1),
        (Outcome::Damaged { at: 47, done: 0 }, 8),
        (Outcome::Clean { done: 2 }, 1),
        (Outcome::Torn { done: 0 }, 3),
        (Outcome::Damaged { at: 60, done: 0 }, 1),
        (Outcome::Clean { done: 2 }, 1),
        (Outcome::Damaged { at: 61, done: 0 }, 1),
        (Outcome::Damaged { at: 62, done: 1 }, 1),
        (Outcome::Damaged { at: 63, done: 1 }, 8),
        (Outcome::Clean { done: 2 }, 1),
        (Outcome::Damaged { at: 72, done: 1 }, 5),
        (Outcome::Damaged { at: 77, done: 1 }, 8),
        (Outcome::Clean { done: 2 }, 1),
        (Outcome::Damaged { at: 77, done: 1 }, 3),
        (Outcome::Clean { done: 2 }, 1),
        (Outcome::Damaged { at: 90, done: 1 }, 1),
    ];
    assert_eq!(rt; changed(rt.alloc(), 0x01, &table)?, 91);
    Ok(())
}

#[test]
fn the_highest_bit_of_each_byte_is_changed(rt: HostRuntime) -> Result<(), Fail> {
    let table = [
        (Outcome::Version, 26),
        (Outcome::Changed, 20),
        (Outcome::Damaged { at: 46, done: 0 }, 1),
        (Outcome::Damaged { at: 47, done: 0 }, 10),
        (Outcome::Torn { done: 0 }, 3),
        (Outcome::Damaged { at: 47, done: 0 }, 1),
        (Outcome::Damaged { at: 61, done: 0 }, 1),
        (Outcome::Damaged { at: 62, done: 1 }, 1),
        (Outcome::Damaged { at: 63, done: 1 }, 9),
        (Outcome::Damaged { at: 72, done: 1 }, 5),
        (Outcome::Damaged { at: 77, done: 1 }, 13),
        (Outcome::Damaged { at: 90, done: 1 }, 1),
    ];
    assert_eq!(rt; changed(rt.alloc(), 0x80, &table)?, 91);
    Ok(())
}

// Changes each byte of the swap file in turn, and returns how many outcomes are those of the table
// up to the first that is not.
fn changed(alloc: Global, mask: u8, table: &[(Outcome, usize)]) -> Result<usize, AllocError> {
    let mut at = 0usize;
    for (want, count) in table {
        for _ in 0..*count {
            let mut swap = swap_of(alloc, SAVED, RECORDS)?;
            if let Some(byte) = swap.get_mut(at) {
                *byte ^= mask;
            }
            // Where all records still fit, the text is another.
            let same = match want {
                Outcome::Damaged { .. } | Outcome::Torn { .. } => is_right(alloc, &swap, *want)?,
                _ => told_by(&recover(alloc, SAVED, &swap)) == *want,
            };
            if !same {
                return Ok(at);
            }
            at = at.saturating_add(1);
        }
    }
    Ok(at)
}

#[test]
fn malicious_records_are_told(rt: HostRuntime) -> Result<(), Fail> {
    let alloc = rt.alloc();
    let table: [(&[u8], Outcome); 12] = [
        (b"E", Outcome::Damaged { at: 46, done: 0 }),
        (b"U\0\0\0\x01", Outcome::Damaged { at: 46, done: 0 }),
        (b"U\0\0\0", Outcome::Torn { done: 0 }),
        (b"SS", Outcome::Damaged { at: 47, done: 0 }),
        (b"SW\x80\0\0\0", Outcome::Damaged { at: 47, done: 0 }),
        (
            b"SR\0\0\0\0\0\0\0\x05\0\0\0\x04",
            Outcome::Damaged { at: 47, done: 0 },
        ),
        (
            b"SI\0\0\0\0\0\0\0\x05\0\0\0\x02\xc3\x28",
            Outcome::Damaged { at: 47, done: 0 },
        ),
        (
            b"SI\0\0\0\0\0\0\0\x05\0\0\0\x01\n",
            Outcome::Damaged { at: 47, done: 0 },
        ),
        (
            b"SI\0\0\0\0\0\0\0\x05\xff\xff\xff\xff",
            Outcome::Damaged { at: 47, done: 0 },
        ),
        (
            b"SI\0\0\0\0\0\0\0\x05\x0c\0\0\x01",
            Outcome::Damaged { at: 47, done: 0 },
        ),
        (b"SI\0\0\0\0\0\0\0\x05\x0c\0\0\0", Outcome::Torn { done: 0 }),
        (
            b"SI\0\0\0\0\0\0\0\x05\0\0\0\x01!EX",
            Outcome::Damaged { at: 62, done: 1 },
        ),
    ];
    for (records, want) in table {
        let swap = swap_of(alloc, SAVED, records)?;
        assert!(rt; is_right(alloc, &swap, want)?);
    }
    // Transactions that change nothing count.
    for records in [
        &b"SESE"[..],
        b"SI\0\0\0\0\0\0\0\x05\0\0\0\0R\0\0\0\x01\0\0\0\0\0\0\0\0ESE",
    ] {
        let swap = swap_of(alloc, SAVED, records)?;
        let result = recover(alloc, SAVED, &swap);
        assert_eq!(rt; told_by(&result), Outcome::Clean { done: 2 });
        assert_eq!(rt; saved_as(alloc, &result)?.as_slice(), &SAVED[..]);
    }
    Ok(())
}

#[test]
fn other_files_are_told(rt: HostRuntime) -> Result<(), Fail> {
    let alloc = rt.alloc();
    let swap = swap_of(alloc, SAVED, RECORDS)?;
    match recover(alloc, b"", &swap) {
        Err(RecoverFault::FileChanged { kept, found }) => {
            let kept = kept.hex(alloc)?;
            assert_eq!(rt; kept.as_str(), "ce013625030ba8dba906f756967f9e9ca394464a");
            let found = found.hex(alloc)?;
            assert_eq!(rt; found.as_str(), "e69de29bb2d1d6434b8b29ae775ad8c2e48c5391");
        }
        _ => assert!(rt; false),
    }
    // A saved file that is refused comes before a swap file of another version.
    let refused = recover(alloc, b"a\xff", b"X");
    assert!(rt;
        matches!(
            refused,
            Err(RecoverFault::Load(LoadFault::NotUtf8 { at: 1 }))
        )
    );
    Ok(())
}

// Swap files that KTextEditor 5.103 wrote: the saved file, the digest and the records, and the text
// that was edited.
#[test]
fn swap_files_of_ktexteditor_are_recovered(rt: HostRuntime) -> Result<(), Fail> {
    let alloc = rt.alloc();
    let table: [(&[u8], &[u8], &[u8], u64); 3] = [
        (
            b"hello\n",
            b"\xce\x016%\x03\x0b\xa8\xdb\xa9\x06\xf7V\x96\x7f\x9e\x9c\xa3\x94FJSI\0\0\0\0\0\0\0\x05\0\0\0\x01!E",
            b"hello!\n",
            1,
        ),
        (
            b"one\ntwo\nthree\n",
            b"L\xb2\x9e\xa3\x8fp\xd7\xc6\x1b*:%\xb0.;\xdfD\x90T\x02SW\0\0\0\0\0\0\0\x01ESU\0\0\0\x03ESR\0\0\0\x01\0\0\0\0\0\0\0\x01ESI\0\0\0\0\0\0\0\0\0\0\0\x06\xc3\xa9\xf0\x9f\x98\x80E",
            b"\xc3\xa9\xf0\x9f\x98\x80o\ne\ntwothree\n",
            4,
        ),
        (
            b"a\r\nb",
            b"\x0c\x99\x1f\xcbO\xe1s\x92$\xd4\xa0\xdf)s\xdf-\xe4\xee\xf4\xadSI\0\0\0\x01\0\0\0\x01\0\0\0\x03xyzW\0\0\0\x01\0\0\0\x02E",
            b"a\r\nbx\r\nyz",
            1,
        ),
    ];
    for (saved, rest, text, done) in table {
        let mut swap = Vec::new(alloc);
        swap.extend_from_slice(b"\0\0\0\x12Kate Swap File 2.0\0\0\0\x14")?;
        swap.extend_from_slice(rest)?;
        let result = recover(alloc, saved, &swap);
        assert_eq!(rt; told_by(&result), Outcome::Clean { done });
        assert_eq!(rt; saved_as(alloc, &result)?.as_slice(), text);
    }
    Ok(())
}
