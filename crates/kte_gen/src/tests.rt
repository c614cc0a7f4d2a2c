//! The expected scripts were computed by another program, written from the rules alone.
use crate::make_script;
use std::test::Fail;

#[test]
fn number_0_begins_with_a_search(rt: HostRuntime) -> Result<(), Fail> {
    let script = make_script(rt.alloc(), 0, 1)?;
    assert_eq!(rt; script.as_slice(), b"find 0 0 \"a\" case part\n".as_slice());
    Ok(())
}

#[test]
fn each_kind_of_command_is_made(rt: HostRuntime) -> Result<(), Fail> {
    let alloc = rt.alloc();
    let lines: [&str; 40] = [
        "insert 0 0 \"ireqmnnc\"",
        "wrap 0 0",
        "check repeat",
        "insert 0 0 \"nxhwtc\"",
        "range 1 6 1 8 both allow",
        "insert 1 3 \"suv\"",
        "wrap 0 6",
        "check repeat",
        "find 0 0 \"a\" case part",
        "insert 2 0 \"reh\"",
        "check repeat",
        "insert 2 6 \"yvb\"",
        "wrap 2 12",
        "insert 1 0 \"tdima\"",
        "wrap 0 2",
        "range 2 3 2 3 left void",
        "remove 1 2 1 3",
        "wrap 3 1",
        "insert 3 1 \"sv\"",
        "find 0 0 \"a\" case part",
        "check repeat",
        "insert 0 0 \"ltdjepj\"",
        "insert 1 0 \"jalrudqg\"",
        "remove 4 6 4 6",
        "find 0 0 \"a\" case part",
        "insert 3 2 \"can\"",
        "insert 5 1 \"tnuhexpj\"",
        "find 0 0 \"a\" case part",
        "insert 5 2 \"hugxzmhm\"",
        "unwrap 1",
        "insert 1 4 \"ytkruae\"",
        "wrap 3 10",
        "insert 2 6 \"vjjew\"",
        "insert 3 6 \"zvvvkh\"",
        "insert 2 11 \"lvh\"",
        "insert 0 10 \"trzmhpxw\"",
        "insert 1 11 \"mrnjgdpd\"",
        "insert 2 5 \"nnvnl\"",
        "insert 4 0 \"eikxieoy\"",
        "insert 5 2 \"eutw\"",
    ];
    let mut want = Vec::new(alloc);
    for line in lines {
        want.extend_from_slice(line.as_bytes())?;
        want.push(b'\n')?;
    }
    let script = make_script(alloc, 6, 40)?;
    assert_eq!(rt; script.as_slice(), want.as_slice());
    Ok(())
}
