//! Saved files, lines in UTF-8, digests and words.
use super::pair;
use crate::{
    Eol, Lines, digest, digest_of_saved, is_word_unit, load, matches_at, push_utf8, save, to_utf8,
};
use std::test::Fail;

#[test]
fn texts_are_saved_as_these_files(rt: HostRuntime) -> Result<(), Fail> {
    let alloc = rt.alloc();
    for (file, eol, bom, want) in [
        (&b""[..], Eol::Lf, false, &b""[..]),
        (b"", Eol::Lf, true, b"\xEF\xBB\xBF"),
        (b"a", Eol::Cr, false, b"a"),
        (b"a\nb\nc", Eol::CrLf, true, b"\xEF\xBB\xBFa\r\nb\r\nc"),
        (b"a\n\n", Eol::Cr, false, b"a\r\r"),
        (b"a\n\n", Eol::Lf, false, b"a\n\n"),
    ] {
        let text = load(alloc, file)?.text;
        assert_eq!(rt; save(alloc, &text, eol, bom)?.as_slice(), want);
        assert_eq!(rt; digest_of_saved(&text, eol, bom), digest(want));
    }
    Ok(())
}

#[test]
fn a_line_in_utf8_has_these_bytes(rt: HostRuntime) -> Result<(), Fail> {
    let alloc = rt.alloc();
    let line = pair(alloc)?;
    let want = b"\xF0\x9F\x98\x80";
    let mut out = vec![in alloc; b'-'; 1]?;
    push_utf8(line.units(), &mut out)?;
    assert_eq!(rt; to_utf8(alloc, line.units())?.as_bytes(), &want[..]);
    assert_eq!(rt; &out[1..], &want[..]);
    Ok(())
}

// By `git hash-object`.
#[test]
fn a_digest_is_the_name_that_git_gives(rt: HostRuntime) -> Result<(), Fail> {
    let alloc = rt.alloc();
    let hello = digest(b"hello\n").hex(alloc)?;
    assert_eq!(rt; hello.as_str(), "ce013625030ba8dba906f756967f9e9ca394464a");
    for (length, want) in [
        (0, "e69de29bb2d1d6434b8b29ae775ad8c2e48c5391"),
        (47, "5e3bf7e629b4908cce461530c17a64365cb47303"),
        (48, "12d42395b020f44bb7710113b31f688d0ebeda7c"),
        (55, "d1985ddc2983785702b9a90effd5aff2f7cfdca4"),
        (56, "1f973e890f52da1f22fa7e5620a628bc4ee74cb3"),
        (63, "487e57f9763ebddbed2027c4452510c0ae0f95ff"),
        (64, "71b7a71962774fa5c721e1163f935cb61a0e09e6"),
        (119, "1325c3d76ea6a66e75dce490a0b8cb8b12233ee0"),
        (1000, "a50be72b20f0e3f078d252e8e56b11b4bec67509"),
    ] {
        let bytes = vec![in alloc; b'a'; length]?;
        assert_eq!(rt; digest(&bytes).hex(alloc)?.as_str(), want, "{length} bytes");
    }
    Ok(())
}

#[test]
fn a_word_matches_alone(rt: HostRuntime) -> Result<(), Fail> {
    let alloc = rt.alloc();
    let text = load(alloc, b"foo Foo food")?.text;
    let word = load(alloc, b"foo")?.text;
    for (column, fold, whole, want) in [
        (0, false, true, true),
        (4, false, false, false),
        (4, true, true, true),
        (8, true, false, true),
        (8, true, true, false),
        (10, false, false, false),
        (u64::MAX, true, false, false),
    ] {
        let is_match = matches_at(text.line(0), column, word.line(0), fold, whole);
        assert_eq!(rt; is_match, want, "column {column}");
    }
    assert!(rt; is_word_unit(0x5F) && !is_word_unit(0x2D));
    Ok(())
}
