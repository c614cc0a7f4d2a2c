use crate::push::{
    push_closes, push_number_or_none, push_span_or_invalid, push_spans, push_succeeds,
};
use crate::words::Words;
use crate::{Limits, MAX_COMMANDS, Script, ScriptFault, read_script, read_spelling, spell};
use kte_command::Command;
use kte_edit::Change;
use kte_place::{Place, Span};
use kte_text::{Loaded, load};
use std::alloc::Global;
use std::test::Fail;

/// Returns the spellings of a script's commands, each followed by LF; or its fault.
fn spelled(alloc: Global, script: &[u8]) -> Result<String, Fail> {
    let script = match read_script(alloc, script) {
        Ok(script) => script,
        Err(fault) => return Ok(format!(in alloc; "{fault}")?),
    };
    let mut out = Vec::new(alloc);
    for n in 0..script.len() {
        spell(script.get(n), &mut out)?;
        out.push(b'\n')?;
    }
    Ok(String::from_utf8(out)?)
}

#[test]
fn scripts_are_read(rt: HostRuntime) -> Result<(), Fail> {
    let alloc = rt.alloc();
    let table: [(&[u8], &str); 35] = [
        (b"", ""),
        (b"\n  \n\r\n# insert 0 0 \"a\n  #", ""),
        (b"insert 0 5 \"!\"", "insert 0 5 \"!\"\n"),
        (b"  insert   00 05  \"!\"  \r\n", "insert 0 5 \"!\"\n"),
        (
            b"wrap 1073741824 0000000009\nunwrap 1",
            "wrap 1073741824 9\nunwrap 1\n",
        ),
        (b"remove 1 5 1 2", "remove 1 2 1 5\n"),
        (b"remove 2 1 0 3", "remove 0 3 2 1\n"),
        (b"unwrap 1073741824", "unwrap 1073741824\n"),
        (b"replace 0 0 2 0 \"z\"", "replace 0 0 2 0 \"z\"\n"),
        (
            b" replace 2 0 00 0  \"z\\n\" ",
            "replace 0 0 2 0 \"z\\n\"\n",
        ),
        (b"begin\nundo\n redo \nend\r\n", "begin\nundo\nredo\nend\n"),
        (b"insert 0 1 \"a\\nb\"", "insert 0 1 \"a\\nb\"\n"),
        (b"insert 0 0 \"\\n\"", "insert 0 0 \"\\n\"\n"),
        (b"insert 0 0 \"a\\n\\n\"", "insert 0 0 \"a\\n\\n\"\n"),
        (b"insert 0 0 \"\"", "insert 0 0 \"\"\n"),
        (
            b"insert 0 0 \"\xC3\xA9\\n\\x1f\\n\\\\n\"",
            "insert 0 0 \"\u{E9}\\n\\x1f\\n\\\\n\"\n",
        ),
        (b"range 2 0 1 3 left void", "range 1 3 2 0 left void\n"),
        (b"range 0 0 0 0 none allow\n", "range 0 0 0 0 none allow\n"),
        (b"range 0 0 0 1 both void\n", "range 0 0 0 1 both void\n"),
        (
            b"setrange 4294967295 3 1 2 1",
            "setrange 4294967295 2 1 3 1\n",
        ),
        (b"droprange 7\nwhere 0", "droprange 7\nwhere 0\n"),
        (
            b"lock\nunlock 4294967295\nland 3 2 0 1 3 right allow",
            "lock\nunlock 4294967295\nland 3 1 3 2 0 right allow\n",
        ),
        (
            b"insert 0 0 \"\\t\\\\\\\"\\x00\\x1f\t\"",
            "insert 0 0 \"\\t\\\\\\\"\\x00\\x1f\\t\"\n",
        ),
        (
            b"insert 0 0 \"\xC3\xA9 \xF0\x9F\x98\x80#\x7F\"",
            "insert 0 0 \"\u{E9} \u{1F600}#\u{7F}\"\n",
        ),
        (b"insert 0 0 \"\\x0a\"", "line 1 column 12"),
        (
            b"check word \"a \\t\"\ncheck blanks",
            "check word \"a \\t\"\ncheck blanks\n",
        ),
        (
            b"check  long 0001073741824\ncheck long 0",
            "line 1 column 13",
        ),
        (
            b"check  long 0000000080\n check pairs\ncheck repeat ",
            "check long 80\ncheck pairs\ncheck repeat\n",
        ),
        (
            b"wrap 0 0\nsync\n  save \r\nsave",
            "wrap 0 0\nsync\nsave\nsave\n",
        ),
        (b"fold 2 0 1 0", "fold 1 0 2 0\n"),
        (
            b" fold  0 3 000 1073741824 \nunfold 4294967295\nunfold 0000000000",
            "fold 0 3 0 1073741824\nunfold 4294967295\nunfold 0\n",
        ),
        (
            b"find 0 0 \"a\" case part\n  find  01 1073741824  \" \\t\"  nocase  word \r\n",
            "find 0 0 \"a\" case part\nfind 1 1073741824 \" \\t\" nocase word\n",
        ),
        (
            b"findback 3 7 \"\xC3\xA9\\\"\\x1f\" case word",
            "findback 3 7 \"\u{E9}\\\"\\x1f\" case word\n",
        ),
        (
            b"findback 1073741824 0 \"word\" nocase part",
            "findback 1073741824 0 \"word\" nocase part\n",
        ),
        (
            b"all \"ab\" nocase part\nall \"\t\" case word",
            "all \"ab\" nocase part\nall \"\\t\" case word\n",
        ),
    ];
    for (script, want) in table {
        let text = spelled(alloc, script)?;
        assert_eq!(rt; text.as_str(), want);
    }
    Ok(())
}

#[test]
fn the_first_fault_is_named(rt: HostRuntime) -> Result<(), Fail> {
    let alloc = rt.alloc();
    let table: [(&[u8], u64, u64); 111] = [
        (b"lock 0", 1, 6),
        (b"unlock 4294967296", 1, 8),
        (b"land 0 0 0 0 1 none", 1, 20),
        (b"insert 0 x \"a\"", 1, 10),
        (b"insert 0 0 \"a", 1, 12),
        (b"insert 0", 1, 9),
        (b"insert 0 00000000000 \"a\"", 1, 10),
        (b"insert", 1, 7),
        (b"insert  ", 1, 9),
        (b"insert 1073741825 0 \"a\"", 1, 8),
        (b"insert 0 -1 \"a\"", 1, 10),
        (b"insert 0 0", 1, 11),
        (b"insert 0 0 a", 1, 12),
        (b"insert 0 0 \"a\"b", 1, 12),
        (b"insert 0 0 \"a\\q\"", 1, 12),
        (b"insert 0 0 \"a\\\"", 1, 12),
        (b"insert 0 0 \"a\nb\"", 1, 12),
        (b"insert 0 0 \"a\rb\"", 1, 12),
        (b"insert 0 0 \"a\\n", 1, 12),
        (b"insert 0 0 \"a\\N\"", 1, 12),
        (b"insert 0 0 \"a\\r\"", 1, 12),
        (b"insert 0 0 \"a\\\n\"", 1, 12),
        (b"insert 0 0 \"\\n\\x0a\"", 1, 12),
        (b"insert 0 0 \"\\x0d\"", 1, 12),
        (b"insert 0 0 \"\\x1F\"", 1, 12),
        (b"insert 0 0 \"\\x20\"", 1, 12),
        (b"insert 0 0 \"\x1F\"", 1, 12),
        (b"insert 0 0 \"a\" b", 1, 16),
        (b"Insert 0 0 \"a\"", 1, 1),
        (b"  begun", 1, 3),
        (b"begin 1", 1, 7),
        (b"begin\nend begin", 2, 5),
        (b"undo \"a\"", 1, 6),
        (b"redo\nredo  0\n", 2, 7),
        (b"end\"", 1, 1),
        (b"wrap x 0", 1, 6),
        (b"wrap 0  ", 1, 9),
        (b"wrap 0  \r\n", 1, 9),
        (b"wrap 0 0 0", 1, 10),
        (b"wrap\t0 0", 1, 1),
        (b"wrap 0 0\r", 1, 8),
        (b"wrap 0 0\r\r\n", 1, 8),
        (b"unwrap 12345678901", 1, 8),
        (b"unwrap 1073741825", 1, 8),
        (b"remove 0 0 1", 1, 13),
        (b"remove 0 0 1 0 \"z\"", 1, 16),
        (b"replace", 1, 8),
        (b"replace 0 0", 1, 12),
        (b"replace 0 0 \"z\"", 1, 13),
        (b"replace 0 0 0 \"z\"", 1, 15),
        (b"replace 0 0 0 0", 1, 16),
        (b"replace 0 0 0 0 z", 1, 17),
        (b"replace 0 0 0 0 \"z\" 1", 1, 21),
        (b"replace 0 1073741825 0 0 \"z\"", 1, 11),
        (b"replace 0 0 1073741825 0 \"z\"", 1, 13),
        (b"remove 0 0 x 0", 1, 12),
        (b"remove 0 0 1073741825 0", 1, 12),
        (b"remove 0 0 0 y", 1, 14),
        (b"range 0 0 0 0 None void", 1, 15),
        (b"range 0 0 0 0 none", 1, 19),
        (b"range 0 0 0 0 none empty", 1, 20),
        (b"setrange 4294967296 0 0 0 0", 1, 10),
        (b"setrange 1 0 0 0", 1, 17),
        (b"droprange", 1, 10),
        (b"where 1 2", 1, 9),
        (b"check", 1, 6),
        (b"check foo", 1, 7),
        (b"check word", 1, 11),
        (b"check word a", 1, 12),
        (b"check word \"\"", 1, 12),
        (b"check word \"a\\nb\"", 1, 12),
        (b"check word \"a\" b", 1, 16),
        (b"check long ", 1, 12),
        (b"check long 1073741825", 1, 12),
        (b"check blanks x", 1, 14),
        (b"check Pairs", 1, 7),
        (b"fold", 1, 5),
        (b"fold 0 0 1", 1, 11),
        (b"fold 0 0 1073741825 0", 1, 10),
        (b"fold 0 0 1 0 1", 1, 14),
        (b"Fold 0 0 1 0", 1, 1),
        (b"unfold", 1, 7),
        (b"unfold 4294967296", 1, 8),
        (b"unfold 1 2", 1, 10),
        (b"find 0", 1, 7),
        (b"find 0 x \"a\" case part", 1, 8),
        (b"find 0 1073741825 \"a\" case part", 1, 8),
        (b"find 0 0 a case part", 1, 10),
        (b"find 0 0 \"\" case part", 1, 10),
        (b"find 0 0 \"a\\nb\" case part", 1, 10),
        (b"find 0 0 \"a\"case part", 1, 10),
        (b"find 0 0 \"a\" Case part", 1, 14),
        (b"find 0 0 \"a\" part case", 1, 14),
        (b"find 0 0 \"a\" case", 1, 18),
        (b"find 0 0 \"a\" case Part", 1, 19),
        (b"find 0 0 \"a\" case words", 1, 19),
        (b"findback 0 0 \"a\" nocase word 1", 1, 30),
        (b"findback 1073741825 0 \"a\" case part", 1, 10),
        (b"all", 1, 4),
        (b"all \"a\" case", 1, 13),
        (b"all \"\" nocase word", 1, 5),
        (b"all 0 0 \"a\" case part", 1, 5),
        (b"sync 1", 1, 6),
        (b"lock\n save  \"\"", 2, 8),
        (b"Sync", 1, 1),
        (b"sync\nsaved", 2, 1),
        (b"save\n sync\t", 2, 2),
        (b"# \xC3", 1, 3),
        (b"\xEF\xBB\xBFwrap 0 0", 1, 1),
        (b"wrap 0 0\n\nbad \xFF\nbad", 3, 5),
        (b"where 1\n#\nwhere\nwhere x\n", 3, 6),
    ];
    for (script, line, column) in table {
        let fault = read_script(alloc, script).err();
        assert_eq!(rt; fault, Some(ScriptFault::Bad { line, column }));
    }
    Ok(())
}

#[test]
fn a_script_has_at_most_so_many_commands(rt: HostRuntime) -> Result<(), Fail> {
    let alloc = rt.alloc();
    let mut bytes = Vec::new(alloc);
    bytes.extend_from_slice(b"# no command\n")?;
    for _ in 0..MAX_COMMANDS {
        bytes.extend_from_slice(b"where 1\n")?;
    }
    let count = read_script(alloc, &bytes).ok().map(|script| script.len());
    assert_eq!(rt; count, Some(100_000));
    bytes.extend_from_slice(b"#\nwhere 1\n")?;
    let fault = read_script(alloc, &bytes).err();
    assert_eq!(rt; fault, Some(ScriptFault::TooMany { line: 100_003 }));
    bytes.extend_from_slice(b"where\n")?;
    let fault = read_script(alloc, &bytes).err();
    assert_eq!(rt; fault, Some(ScriptFault::TooMany { line: 100_003 }));
    Ok(())
}

#[test]
fn a_script_grows_by_its_commands(rt: HostRuntime) -> Result<(), Fail> {
    let alloc = rt.alloc();
    let Loaded { text, .. } = load(alloc, b"\x07\nb")?;
    let mut script = Script::new(alloc);
    assert!(rt; script.is_empty());
    let at = Place {
        line: 0,
        column: 10,
    };
    script.push(Command::Edit {
        change: Change::Insert { at, text },
    })?;
    let far = Place {
        line: 3,
        column: u64::MAX,
    };
    script.push(Command::Edit {
        change: Change::Remove {
            span: Span::new(far, at),
        },
    })?;
    assert_eq!(rt; script.len(), 2);
    let mut out = Vec::new(alloc);
    spell(script.get(0), &mut out)?;
    assert_eq!(rt; out.as_slice(), b"insert 0 10 \"\\x07\\nb\"".as_slice());
    out.clear();
    spell(script.get(1), &mut out)?;
    assert_eq!(rt;
        out.as_slice(),
        b"remove 0 10 3 18446744073709551615".as_slice()
    );
    Ok(())
}

/// Returns the length of the spelling that the bytes begin with.
fn spelling_len(alloc: Global, bytes: &[u8]) -> Result<Option<u64>, Fail> {
    Ok(read_spelling(alloc, bytes)?.map(|found| found.1))
}

#[test]
fn spellings_are_found(rt: HostRuntime) -> Result<(), Fail> {
    let alloc = rt.alloc();
    let table: [(&[u8], Option<u64>); 32] = [
        (b"", None),
        (b" ", None),
        (b"sync ", Some(4)),
        (b"save = asked", Some(4)),
        (b"save= asked", None),
        (b" save = asked", None),
        (b"check word \"a b\" = posted 0", Some(16)),
        (b"check word \"\" = posted 0", None),
        (b"check repeat = posted 0", Some(12)),
        (b"wrap 1 2  = edited 1 1 0", Some(8)),
        (b"wrap 1  2 = edited 1 1 0", None),
        (b"wrap 01 2 = edited 1 1 0", None),
        (b"wrap 4294967295 18446744073709551615 ", Some(36)),
        (b"wrap 4294967296 0 ", None),
        (b"wrap 0 18446744073709551616 ", None),
        (b"droprange 99999999999999999999 ", None),
        (b"unlock 000000000000000000000 ", None),
        (b"remove 0 1 0 2 = ", Some(14)),
        (b"remove 0 2 0 1 = ", None),
        (b"insert 0 0 \"\\t\\x00\xC3\xA9\" = ", Some(21)),
        (b"insert 0 0 \"\t\" = ", None),
        (b"insert 0 0 \"\\x09\" = ", None),
        (b"insert 0 0 \"\xC3\" = ", None),
        (b"sync\n", None),
        (b"fold 1 0 2 0 = range 1 1 0 2 0", Some(12)),
        (b"fold 2 0 1 0 = ", None),
        (b"unfold 18446744073709551615 = dropped 1", Some(27)),
        (b"find 0 0 \"a\" case part = found", Some(22)),
        (b"find 0 0 \"a\" case  part = found", None),
        (b"findback 0 10 \"\\t\" nocase word = ", Some(30)),
        (b"all \"\" case part = found", None),
        (b"all \"a\" case part\n", None),
    ];
    for (bytes, want) in table {
        assert_eq!(rt; spelling_len(alloc, bytes)?, want);
    }
    Ok(())
}

#[test]
fn a_spelling_that_is_cut_is_none(rt: HostRuntime) -> Result<(), Fail> {
    let alloc = rt.alloc();
    let bytes = b"replace 0 10 2 345 \"a\\n\\x1f\xC3\xA9\" ".as_slice();
    for len in 0..bytes.len() {
        assert_eq!(rt; spelling_len(alloc, &bytes[..len])?, None);
    }
    assert_eq!(rt; spelling_len(alloc, bytes)?, Some(30));
    Ok(())
}

/// Reads the fields of a journal in these bytes, and returns what follows them and their spelling.
fn spelled_fields(alloc: Global, bytes: &[u8]) -> Result<(String, String), Fail> {
    let mut words = Words { rest: bytes };
    let spans = words.spans(alloc, Limits::Journal)?;
    let number = words.long_or_none(Limits::Journal)?;
    let span = words.span_or_invalid(Limits::Journal)?;
    let ok = words.succeeds()?;
    let closed = words.closes()?;
    let mut out = Vec::new(alloc);
    push_spans(&mut out, &spans)?;
    push_number_or_none(&mut out, number)?;
    push_span_or_invalid(&mut out, &span)?;
    push_succeeds(&mut out, ok)?;
    push_closes(&mut out, closed)?;
    let rest = String::from_utf8(words.rest.to_vec(alloc)?)?;
    Ok((rest, String::from_utf8(out)?))
}

#[test]
fn fields_of_a_journal_are_read(rt: HostRuntime) -> Result<(), Fail> {
    let alloc = rt.alloc();
    let table: [(&[u8], &str, &str); 3] = [
        (
            b" 1 2 3 4 5 6 7 8 none invalid ok closed = 1",
            " = 1",
            " 1 2 3 4 5 6 7 8 none invalid ok closed",
        ),
        (b"none 1 0 0 9 failed open", "", " none 0 9 1 0 failed open"),
        (
            b" 0 0 0 1  none 4294967295 0 4294967295 1 ok open ",
            " ",
            " 0 0 0 1 none 4294967295 0 4294967295 1 ok open",
        ),
    ];
    for (bytes, rest, want) in table {
        let fields = spelled_fields(alloc, bytes)?;
        assert_eq!(rt; fields.0.as_str(), rest);
        assert_eq!(rt; fields.1.as_str(), want);
    }
    Ok(())
}
