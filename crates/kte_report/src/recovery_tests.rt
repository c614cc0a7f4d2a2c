use crate::{push_damaged, push_recovered, push_tail};
use kte_recover::{Damage, Recovered, Tail};
use kte_text::load;
use std::test::Fail;

/// Of a file with a byte order mark, a line end CR LF and a surrogate pair.
const MARKED: &[u8] = b"\xEF\xBB\xBFa\r\n\xF0\x9F\x98\x80";

#[test]
fn a_recovered_text_is_printed(rt: HostRuntime) -> Result<(), Fail> {
    let alloc = rt.alloc();
    let table: [(&[u8], u64, Tail, &[u8]); 3] = [
        (
            b"hello!\n",
            1,
            Tail::Clean,
            b"transactions 1\ntail clean\ndigest 4effa19f4f75f846c3229b9dbdbad14eff362f32\n\
                text\n|hello!\n|\n",
        ),
        (
            b"",
            0,
            Tail::Torn,
            b"transactions 0\ntail torn\ndigest e69de29bb2d1d6434b8b29ae775ad8c2e48c5391\n\
                text\n|\n",
        ),
        (
            MARKED,
            u64::MAX,
            Tail::Clean,
            b"transactions 18446744073709551615\ntail clean\n\
                digest 0cd53b0cc387b368ffe0932aec6d7bd5cc2edf24\n\
                text\n|a\n|\xF0\x9F\x98\x80\n",
        ),
    ];
    for (file, done, tail, expected) in table {
        let loaded = load(alloc, file)?;
        let found = Recovered {
            text: loaded.text,
            eol: loaded.eol,
            bom: loaded.bom,
            done,
            tail,
        };
        let mut out = b"x".to_vec(alloc)?;
        push_recovered(&found, &mut out)?;
        assert_eq!(rt; &out[..1], b"x".as_slice());
        assert_eq!(rt; &out[1..], expected);
    }
    Ok(())
}

#[test]
fn a_text_recovered_up_to_a_record_at_fault_is_printed(rt: HostRuntime) -> Result<(), Fail> {
    let alloc = rt.alloc();
    let loaded = load(alloc, MARKED)?;
    let damage = Damage {
        at: 61,
        done: 2,
        text: loaded.text,
        eol: loaded.eol,
        bom: loaded.bom,
    };
    let mut out = b"x".to_vec(alloc)?;
    push_damaged(&damage, &mut out)?;
    let expected: &[u8] = b"xtransactions 2\ntail damaged 61\n\
        digest 0cd53b0cc387b368ffe0932aec6d7bd5cc2edf24\ntext\n|a\n|\xF0\x9F\x98\x80\n";
    assert_eq!(rt; out.as_slice(), expected);
    Ok(())
}

#[test]
fn the_first_two_lines_are_printed_alone(rt: HostRuntime) -> Result<(), Fail> {
    let mut out = Vec::new(rt.alloc());
    push_tail(1, Tail::Clean, &mut out)?;
    push_tail(20, Tail::Torn, &mut out)?;
    let expected: &[u8] = b"transactions 1\ntail clean\ntransactions 20\ntail torn\n";
    assert_eq!(rt; out.as_slice(), expected);
    Ok(())
}
