ghost use Rattle.std.specs.Prelude.{◌≡◌, ◌+◌, ◌<◌, OnOk};
ghost use Rattle.kte_place.specs.Place.{at};
ghost use Rattle.kte_place.specs.Span.{between};
ghost use Rattle.kte_place.specs.Entry.{insertion};

use crate::*;
use kte_place::{Empty, Entry, EntryKind, Expand, Place, Span};
use std::test::Fail;

const NEITHER: Expand = Expand {
    left: false,
    right: false,
};

/// An insertion of one unit at the start of line 0, which has so many.
fn typed(old: u64) -> Entry
    ensures { result ≡ insertion 0 0 1 old }
{
    Entry {
        kind: EntryKind::Insert,
        line: 0,
        column: 0,
        length: 1,
        old,
    }
}

/// Carries the second unit of the text at revision 0 to the present.
fn second_unit(history: &History) -> Result<Option<Span>, NotLocked> {
    let span = on_line(1, 2);
    history.carry_span(0, span, NEITHER, Empty::Void)
}

/// A span on line 0.
fn on_line(start: u64, end: u64) -> Span
    ensures { result ≡ between (at 0 start) (at 0 end) }
{
    Span::new(
        Place {
            line: 0,
            column: start,
        },
        Place {
            line: 0,
            column: end,
        },
    )
}

/// Adds an insertion to the history.
fn type_one(history: &mut History) -> Result<(), Fail>
    requires { history.old.revision < history.old.limit }
    ensures { OnOk result (history.new.revision ≡ history.old.revision + 1
        × (history.new.limit ≡ history.old.limit)) }
{
    history.reserve()?;
    history.add(typed(4));
    Ok(())
}

#[test]
fn a_revision_locked_twice_is_unlocked_twice(rt: HostRuntime) -> Result<(), Fail> {
    let mut history = History::new(rt.alloc(), 8);
    assert_eq!(rt; history.lock(Owner::Editor)?, 0);
    assert_eq!(rt; history.lock(Owner::Job { job: 7 })?, 0);
    type_one(&mut history)?;
    assert_eq!(rt; history.unlock(Owner::Editor, 0), Ok(()));
    assert_eq!(rt;
        history.unlock(Owner::Editor, 0),
        Err(NotOwned { revision: 0 })
    );
    assert_eq!(rt; second_unit(&history), Ok(Some(on_line(2, 3))));
    assert_eq!(rt; history.unlock(Owner::Job { job: 7 }, 0), Ok(()));
    let unlocked = NotLocked {
        revision: 0,
        oldest: None,
    };
    assert_eq!(rt; second_unit(&history), Err(unlocked));
    assert_eq!(rt; history.stored().len(), 0);
    Ok(())
}

#[test]
fn what_the_oldest_lock_needs_is_kept(rt: HostRuntime) -> Result<(), Fail> {
    let mut history = History::new(rt.alloc(), 8);
    type_one(&mut history)?;
    assert_eq!(rt; history.stored().len(), 0);
    assert_eq!(rt; history.lock(Owner::Editor)?, 1);
    type_one(&mut history)?;
    type_one(&mut history)?;
    assert_eq!(rt; history.lock(Owner::Job { job: 2 })?, 3);
    type_one(&mut history)?;
    assert_eq!(rt; history.stored().len(), 3);
    assert_eq!(rt; history.unlock(Owner::Editor, 1), Ok(()));
    assert_eq!(rt; history.stored().len(), 1);
    type_one(&mut history)?;
    assert_eq!(rt; history.stored().len(), 2);
    assert_eq!(rt; history.revision(), 5);
    Ok(())
}

#[test]
fn revisions_are_counted_up_to_the_limit(rt: HostRuntime) -> Result<(), Fail> {
    let mut history = History::new(rt.alloc(), 2);
    assert_eq!(rt; history.room(2), Ok(()));
    assert_eq!(rt; history.room(3), Err(RevisionsFull { revision: 0 }));
    type_one(&mut history)?;
    type_one(&mut history)?;
    assert_eq!(rt; history.room(0), Ok(()));
    assert_eq!(rt; history.room(u64::MAX), Err(RevisionsFull { revision: 2 }));
    Ok(())
}

#[test]
fn errors_name_the_revision(rt: HostRuntime) -> Result<(), Fail> {
    let alloc = rt.alloc();
    let locked = NotLocked {
        revision: 3,
        oldest: Some(5),
    };
    assert_eq!(rt;
        format!(in alloc; "{locked}")?.as_str(),
        "revision 3 is not locked"
    );
    let owned = format!(in alloc; "{}", NotOwned { revision: 3 })?;
    assert_eq!(rt; owned.as_str(), "revision 3 is not locked by this owner");
    let full = format!(in alloc; "{}", RevisionsFull { revision: 3 })?;
    assert_eq!(rt; full.as_str(), "no more revisions after 3");
    Ok(())
}
