ghost use Rattle.std.specs.Prelude.{◌≡◌, ◌<◌, ℕ, [], ◌∷◌, Contains, nat_lt, Some};
ghost use Rattle.kte_place.specs.Place.{at};
ghost use Rattle.kte_ranges.specs.Cursors.{Hangs, StartIsReady};
ghost use Rattle.kte_ranges.specs.Examples.{range, pegs};

use crate::*;
use kte_place::{Cursors, Empty, Expand, Place, Span};
use std::alloc::{AllocError, Global};
use std::test::Fail;

/// A place on line 0.
fn place(column: u8) -> Place
    ensures place { result ≡ at 0 column }
    ensures bound { result.column < 256 }
{
    Place {
        line: 0,
        column: u64::from(column),
    }
}

/// The user's range with these cursors, made at the beginning of the text.
fn info(empty: Empty, cursors: Option<(u64, u64)>) -> RangeInfo
    ensures { result ≡ range empty cursors }
{
    RangeInfo {
        expand: Expand {
            left: false,
            right: false,
        },
        empty,
        kind: RangeKind::User,
        origin: Origin {
            revision: 0,
            span: Span::new(place(0), place(0)),
        },
        cursors,
    }
}

/// Where a range is set after it was made.
fn later() -> Origin {
    Origin {
        revision: 7,
        span: Span::new(place(2), place(3)),
    }
}

/// Two cursors, of numbers 0 and 1, in a text of one line.
#[derive(Drop)]
struct Pegs {
    start: Place,
    start_hangs: bool,
    end: Place,
    end_hangs: bool,
}

impl Cursors for Pegs {
    ghost hung = { λ p. pegs p.start_hangs p.start p.end_hangs p.end };

    ghost ready = { λ p line. nat_lt line 1 };

    ghost near = { λ p. 0 ∷ 1 ∷ [] };

    ghost Rest = { ℕ };

    ghost rest = { λ p. 0 };

    fn place(&self, id: u64) -> Place {
        if id == 0 { self.start } else { self.end }
    }

    fn near_len(&self) -> u64 {
        2
    }

    fn near_at(&self, n: u64) -> u64 {
        n
    }

    fn rehome(&mut self, id: u64, place: Place) {
        if id == 0 {
            self.start = place;
        } else {
            self.end = place;
        }
    }

    fn unhang(&mut self, id: u64) {
        if id == 0 {
            self.start_hangs = false;
        } else {
            self.end_hangs = false;
        }
    }
}

impl Pegs {
    /// From the start's column to the end's, if both hang.
    fn columns(&self) -> Option<(u64, u64)> {
        if self.start_hangs && self.end_hangs {
            Some((self.start.column, self.end.column))
        } else {
            None
        }
    }
}

/// Settles a table with one range, of cursors 0 and 1, and returns what it is then: all ranges, or
/// those that start near.
fn settle_lone<C: Cursors>(
    alloc: Global,
    cursors: &mut C,
    empty: Empty,
    all: bool,
) -> Result<Option<RangeInfo>, AllocError>
    requires hang { Hangs (C.hung cursors.old) (range empty (Some (0, 1))) }
    requires near { Contains (C.near cursors.old) 0 }
    requires ready { StartIsReady (C.hung cursors.old) (C.ready cursors.old)
        (range empty (Some (0, 1))) }
{
    let mut table = RangeTable::new(alloc);
    table.reserve(1)?;
    let id = table.make(info(empty, Some((0, 1))));
    if all {
        table.settle(cursors);
    } else {
        table.settle_near(cursors);
    }
    Ok(table.get(id))
}

#[test]
fn numbers_rise_and_are_not_used_again(rt: HostRuntime) -> Result<(), Fail> {
    let mut table = RangeTable::new(rt.alloc());
    table.reserve(3)?;
    let plain = info(Empty::Allow, None);
    assert_eq!(rt; table.make(plain), 1);
    assert_eq!(rt; table.make(plain), 2);
    assert_eq!(rt; table.drop_range(2), Ok(None));
    assert_eq!(rt; table.drop_range(2), Err(NoRange { id: 2 }));
    assert_eq!(rt; table.make(plain), 3);
    assert_eq!(rt; table.ids(rt.alloc())?.as_slice(), [1, 3].as_slice());
    assert_eq!(rt; table.next_id(), 4);
    assert_eq!(rt; table.get(2), None);
    Ok(())
}

#[test]
fn a_range_that_is_set_has_the_new_origin(rt: HostRuntime) -> Result<(), Fail> {
    let mut table = RangeTable::new(rt.alloc());
    table.reserve(1)?;
    let id = table.make(info(Empty::Void, Some((4, 5))));
    assert_eq!(rt; table.set(id, later(), Some((6, 8))), Ok(Some((4, 5))));
    let mut set = info(Empty::Void, Some((6, 8)));
    set.origin = later();
    assert_eq!(rt; table.get(id), Some(set));
    assert_eq!(rt; table.set(9, later(), None), Err(NoRange { id: 9 }));
    Ok(())
}

#[test]
fn a_range_settles_to_where_its_cursors_stand(rt: HostRuntime) -> Result<(), Fail> {
    let rows = [
        (true, Empty::Allow, 2, 5, Some((2, 5))),
        (true, Empty::Allow, 5, 2, Some((5, 5))),
        (true, Empty::Void, 2, 5, Some((2, 5))),
        (true, Empty::Void, 5, 5, None),
        (false, Empty::Allow, 2, 5, Some((2, 5))),
        (false, Empty::Allow, 5, 5, Some((5, 5))),
        (false, Empty::Allow, 5, 2, Some((5, 5))),
        (false, Empty::Void, 2, 5, Some((2, 5))),
        (false, Empty::Void, 5, 5, None),
        (false, Empty::Void, 5, 2, None),
    ];
    for (all, empty, start, end, want) in rows {
        let mut pegs = Pegs {
            start: place(start),
            start_hangs: true,
            end: place(end),
            end_hangs: true,
        };
        let after = settle_lone(rt.alloc(), &mut pegs, empty, all)?;
        assert_eq!(rt; pegs.columns(), want);
        let cursors = if want.is_some() { Some((0, 1)) } else { None };
        assert_eq!(rt; after, Some(info(empty, cursors)));
    }
    Ok(())
}
