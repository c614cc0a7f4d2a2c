use crate::{BadWords, Word, Words, parse};
use std::alloc::{AllocError, Global};
use std::test::Fail;

fn read(alloc: Global, texts: &[&str]) -> Result<Result<Words, BadWords>, AllocError> {
    let mut words = Vec::new(alloc);
    for text in texts {
        words.push(Word::new(text.to_string(alloc)?))?;
    }
    Ok(parse(&words))
}

#[test]
fn words_are_read(rt: HostRuntime) -> Result<(), Fail> {
    let alloc = rt.alloc();
    let table: [(&[&str], Result<Words, BadWords>); 16] = [
        (&["edit", "notes.txt"], Ok(Words::Edit { file: 1 })),
        (&["edit", "edit"], Ok(Words::Edit { file: 1 })),
        (&["edit", " "], Ok(Words::Edit { file: 1 })),
        (&["recover", "notes.txt"], Ok(Words::Recover { file: 1 })),
        (&["recover", "edit"], Ok(Words::Recover { file: 1 })),
        (&[], Err(BadWords { at: 0 })),
        (&[""], Err(BadWords { at: 0 })),
        (&["Edit", "notes.txt"], Err(BadWords { at: 0 })),
        (&["edit ", "notes.txt"], Err(BadWords { at: 0 })),
        (&["recovers", "notes.txt"], Err(BadWords { at: 0 })),
        (&["notes.txt", "recover"], Err(BadWords { at: 0 })),
        (&["edit"], Err(BadWords { at: 1 })),
        (&["edit", ""], Err(BadWords { at: 1 })),
        (&["edit", "", "notes.txt"], Err(BadWords { at: 1 })),
        (&["recover", ""], Err(BadWords { at: 1 })),
        (&["edit", "notes.txt", "", ""], Err(BadWords { at: 2 })),
    ];
    for (texts, want) in table {
        assert_eq!(rt; read(alloc, texts)?, want);
    }
    Ok(())
}

#[test]
fn numbers_are_read(rt: HostRuntime) -> Result<(), Fail> {
    let alloc = rt.alloc();
    let table: [(&[&str], Result<Words, BadWords>); 16] = [
        (
            &["gen", "7", "20000"],
            Ok(Words::Gen {
                number: 7,
                count: 20_000,
            }),
        ),
        (
            &["gen", "18446744073709551615", "100000"],
            Ok(Words::Gen {
                number: u64::MAX,
                count: 100_000,
            }),
        ),
        (
            &["gen", "00000000000000000000", "00000000000000000001"],
            Ok(Words::Gen {
                number: 0,
                count: 1,
            }),
        ),
        (&["gen"], Err(BadWords { at: 1 })),
        (&["gen", "7"], Err(BadWords { at: 2 })),
        (&["gen", "", "1"], Err(BadWords { at: 1 })),
        (&["gen", "x", "1"], Err(BadWords { at: 1 })),
        (&["gen", "+7", "1"], Err(BadWords { at: 1 })),
        (&["gen", " 7", "x"], Err(BadWords { at: 1 })),
        (
            &["gen", "18446744073709551616", "1"],
            Err(BadWords { at: 1 }),
        ),
        (
            &["gen", "000000000000000000007", "1"],
            Err(BadWords { at: 1 }),
        ),
        (&["gen", "0", "0"], Err(BadWords { at: 2 })),
        (&["gen", "0", "100001"], Err(BadWords { at: 2 })),
        (
            &["gen", "0", "000000000000000000001"],
            Err(BadWords { at: 2 }),
        ),
        (&["gen", "0", "1", "x"], Err(BadWords { at: 3 })),
        (&["gens", "0", "1"], Err(BadWords { at: 0 })),
    ];
    for (texts, want) in table {
        assert_eq!(rt; read(alloc, texts)?, want);
    }
    Ok(())
}

#[test]
fn checkers_are_read(rt: HostRuntime) -> Result<(), Fail> {
    let alloc = rt.alloc();
    let table: [(&[&str], Result<Words, BadWords>); 16] = [
        (
            &["check", "1", "notes.txt"],
            Ok(Words::Check {
                workers: 1,
                file: 2,
            }),
        ),
        (
            &["check", "00000000000000000016", "check"],
            Ok(Words::Check {
                workers: 16,
                file: 2,
            }),
        ),
        (&["check"], Err(BadWords { at: 1 })),
        (&["check", "", "notes.txt"], Err(BadWords { at: 1 })),
        (&["check", "0", "notes.txt"], Err(BadWords { at: 1 })),
        (&["check", "17", "notes.txt"], Err(BadWords { at: 1 })),
        (&["check", "-1", "notes.txt"], Err(BadWords { at: 1 })),
        (&["check", "1x", "notes.txt"], Err(BadWords { at: 1 })),
        (&["check", "notes.txt"], Err(BadWords { at: 1 })),
        (
            &["check", "4294967297", "notes.txt"],
            Err(BadWords { at: 1 }),
        ),
        (
            &["check", "000000000000000000003", "notes.txt"],
            Err(BadWords { at: 1 }),
        ),
        (&["check", "3"], Err(BadWords { at: 2 })),
        (&["check", "3", ""], Err(BadWords { at: 2 })),
        (&["check", "3", "", "notes.txt"], Err(BadWords { at: 2 })),
        (&["check", "3", "notes.txt", ""], Err(BadWords { at: 3 })),
        (&["Check", "3", "notes.txt"], Err(BadWords { at: 0 })),
    ];
    for (texts, want) in table {
        assert_eq!(rt; read(alloc, texts)?, want);
    }
    Ok(())
}

#[test]
fn the_file_is_a_word(rt: HostRuntime) -> Result<(), Fail> {
    let alloc = rt.alloc();
    for name in ["edit", "recover"] {
        let words = [
            Word::new(name.to_string(alloc)?),
            Word::new("notes.txt".to_string(alloc)?),
        ];
        let file = parse(&words).ok().and_then(|command| command.file());
        assert_eq!(rt; file, Some(1));
        assert_eq!(rt; words[1].as_str(), "notes.txt");
    }
    let checked = Words::Check {
        workers: 3,
        file: 2,
    };
    assert_eq!(rt; checked.file(), Some(2));
    let script = Words::Gen {
        number: 0,
        count: 1,
    };
    assert_eq!(rt; script.file(), None);
    Ok(())
}

#[test]
fn a_misfit_is_told_by_its_index(rt: HostRuntime) -> Result<(), Fail> {
    let text = format!(in rt.alloc(); "{}", BadWords { at: 2 })?;
    assert_eq!(rt; text.as_str(), "word 2 does not fit");
    Ok(())
}
