use crate::{Header, Reading, Record, read, read_header, write, write_header};
use kte_text::Digest;
use std::test::Fail;

const BEGUN: [u8; 20] = [7; 20];

#[test]
fn records_are_read(rt: HostRuntime) {
    let insert = Record::Insert {
        line: 0,
        column: 5,
        text: b"!",
    };
    let table: [(&[u8], Record, u64); 7] = [
        (b"S", Record::Start, 1),
        (b"ES", Record::Finish, 1),
        (
            b"W\0\0\x01\0\x7f\xff\xff\xff",
            Record::Wrap {
                line: 256,
                column: 2_147_483_647,
            },
            9,
        ),
        (b"U\0\0\0\x01U", Record::Unwrap { line: 1 }, 5),
        (b"I\0\0\0\0\0\0\0\x05\0\0\0\x01!E", insert, 14),
        (
            b"I\0\0\0\0\0\0\0\x05\0\0\0\0",
            Record::Insert {
                line: 0,
                column: 5,
                text: b"",
            },
            13,
        ),
        (
            b"R\0\0\0\0\0\0\0\x05\0\0\0\x04",
            Record::Remove {
                line: 0,
                start: 5,
                end: 4,
            },
            13,
        ),
    ];
    for (bytes, item, used) in table {
        assert_eq!(rt; read(bytes), Reading::Got { item, used });
    }
}

#[test]
fn fronts_and_faults_are_told_apart(rt: HostRuntime) {
    let fronts: [&[u8]; 9] = [
        b"",
        b"W",
        b"W\x7f\xff\xff\xff\0\0\0",
        b"U\0\0\0",
        b"R\0\0\0\0\0\0\0\0\0\0\0",
        b"I\0\0\0\0\0\0\0\x05\0\0\0\x02!",
        b"I\0\0\0\0\0\0\0\0\x0c",
        b"I\0\0\0\0\0\0\0\0\x0c\0\0",
        b"I\0\0\0\0\0\0\0\0\x0c\0\0\0",
    ];
    for bytes in fronts {
        assert_eq!(rt; read(bytes), Reading::Part);
    }
    let faults: [(&[u8], u64); 12] = [
        (b"s", 0),
        (b"\0S", 0),
        (b"W\x80", 1),
        (b"W\xff\xff\xff\xff\0\0\0\0", 1),
        (b"W\0\0\0\0\x80\0\0\0", 5),
        (b"U\x80\0\0\0", 1),
        (b"R\0\0\0\0\0\0\0\0\x80", 9),
        (b"I\0\0\0\0\xff", 5),
        (b"I\0\0\0\0\0\0\0\0\x0c\0\0\x01", 9),
        (b"I\0\0\0\0\0\0\0\0\x0c\x01", 9),
        (b"I\0\0\0\0\0\0\0\0\x0d", 9),
        (b"I\0\0\0\0\0\0\0\0\xff\xff\xff\xff", 9),
    ];
    for (bytes, at) in faults {
        assert_eq!(rt; read(bytes), Reading::Bad { at });
    }
}

#[test]
fn a_swap_file_is_written(rt: HostRuntime) -> Result<(), Fail> {
    let mut swap = Vec::new(rt.alloc());
    write_header(&Digest(BEGUN), &mut swap)?;
    write(&Record::Start, &mut swap)?;
    let remove = Record::Remove {
        line: 0,
        start: 5,
        end: 6,
    };
    write(&remove, &mut swap)?;
    write(&Record::Finish, &mut swap)?;
    let head = b"\0\0\0\x12Kate Swap File 2.0\0\0\0\x14";
    assert!(rt; swap[..26] == head[..]);
    assert!(rt; swap[26..46] == BEGUN[..]);
    assert!(rt; swap[46..] == b"SR\0\0\0\0\0\0\0\x05\0\0\0\x06E"[..]);
    assert_eq!(rt;
        read_header(&swap),
        Header::Got {
            kept: Digest(BEGUN)
        }
    );
    assert_eq!(rt; read_header(&swap[..45]), Header::Part);
    assert_eq!(rt; read_header(&swap[1..]), Header::Version);
    Ok(())
}
