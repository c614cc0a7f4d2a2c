ghost use Rattle.std.specs.Prelude.{◌≡◌, ℕ, false};
ghost use Rattle.std.specs.FinMap as map;
ghost use Rattle.kte_ranges.specs.Cursors.{holds_cursor, Hangs, HoldsTwo, StartIsReady};
ghost use Rattle.kte_ranges.specs.Starts.{starts_with};
ghost use Rattle.kte_ranges.specs.Settling.{settled_info, CursorsFollow};

use kte_place::{Cursors, Empty, Expand, Span, settle};

/// Whose a range is.
#[derive(Clone, Copy, Debug, PartialEq, Eq, Hash)]
pub enum RangeKind {
    /// The user's.
    User,
    /// A fold's.
    Fold,
    /// A job's.
    Job { job: u32 },
}

/// Where a range was made or last set.
#[derive(Clone, Copy, Debug, PartialEq, Eq, Hash)]
pub struct Origin {
    /// The revision of the text that the span is of.
    pub revision: u64,
    /// The span as it was passed, before it settled.
    pub span: Span,
}

/// What a range is.
#[derive(Clone, Copy, Debug, PartialEq, Eq, Hash)]
pub struct RangeInfo {
    /// Whether it takes in text that is inserted exactly at its ends.
    pub expand: Expand,
    /// What happens if it becomes empty.
    pub empty: Empty,
    /// Whose it is.
    pub kind: RangeKind,
    /// Where it was made or last set.
    pub origin: Origin,
    /// The numbers of the cursors at its start and at its end, or `None` if it is invalid.
    pub cursors: Option<(u64, u64)>,
}

impl RangeInfo {
    /// Returns whether the range starts with the cursor of this number.
    pub(crate) fn starts_with(&self, cursor: u64) -> bool
        ensures { result ≡ starts_with self.now cursor }
    {
        match self.cursors {
            Some((start, _)) => start == cursor,
            None => false,
        }
    }

    /// Settles the range after its cursors have moved. Other cursors are unchanged.
    pub(crate) fn settle<C: Cursors>(&mut self, cursors: &mut C)
        requires hang { Hangs (C.hung cursors.old) self.old }
        requires two { HoldsTwo self.old }
        requires ready { StartIsReady (C.hung cursors.old) (C.ready cursors.old) self.old }
        ensures info { self.new ≡ settled_info (C.hung cursors.old) self.old }
        ensures cursors { CursorsFollow (C.hung cursors.old) (C.hung cursors.new) self.old }
        ensures others { (n : ℕ) → holds_cursor self.old n ≡ false →
            map.get (C.hung cursors.new) n ≡ map.get (C.hung cursors.old) n }
        ensures lines { C.ready cursors.new ≡ C.ready cursors.old }
        ensures near { C.near cursors.new ≡ C.near cursors.old }
        ensures rest { C.rest cursors.new ≡ C.rest cursors.old }
    {
        let Some((start, end)) = self.cursors else {
            return;
        };
        let (first, last) = (cursors.place(start), cursors.place(end));
        match settle(first, last, self.empty) {
            None => {
                cursors.unhang(start);
                cursors.unhang(end);
                self.cursors = None;
            }
            Some(span) => {
                if span.end != last {
                    cursors.rehome(end, span.end);
                }
            }
        }
    }
}
