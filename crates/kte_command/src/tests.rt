use crate::Command;
use kte_edit::Change;
use kte_place::{Empty, Expand, Place, Span};
use kte_search::Query;
use kte_text::{Line, load};
use std::test::Fail;

#[test]
fn commands_are_copied(rt: HostRuntime) -> Result<(), Fail> {
    let alloc = rt.alloc();
    let insert = Command::Edit {
        change: Change::Insert {
            at: Place { line: 3, column: 5 },
            text: load(alloc, b"a")?.text,
        },
    };
    let shown = format!(in alloc; "{:?}", insert.copy(alloc)?)?;
    let want = format!(in alloc; "{insert:?}")?;
    assert_eq!(rt; shown.as_str(), want.as_str());

    let from = Place { line: 2, column: 7 };
    let to = Place { line: 1, column: 0 };
    let range = Command::MakeRange {
        span: Span::new(from, to),
        expand: Expand {
            left: true,
            right: false,
        },
        empty: Empty::Void,
    };
    let shown = format!(in alloc; "{:?}", range.copy(alloc)?)?;
    let want = format!(in alloc; "{range:?}")?;
    assert_eq!(rt; shown.as_str(), want.as_str());
    Ok(())
}

#[test]
fn a_search_is_copied(rt: HostRuntime) -> Result<(), Fail> {
    let alloc = rt.alloc();
    let find = Command::Find {
        from: Place { line: 1, column: 0 },
        query: Query {
            pattern: Line::from_utf8(alloc, "word")?,
            fold_case: false,
            whole: true,
        },
    };
    let shown = format!(in alloc; "{:?}", find.copy(alloc)?)?;
    let want = format!(in alloc; "{find:?}")?;
    assert_eq!(rt; shown.as_str(), want.as_str());
    Ok(())
}
