ghost use Rattle.std.specs.Prelude.{◌≡◌, ℕ, false, None, IfSome, IfNone, IsTrue, All, AllPairs, map as map_list};
ghost use Rattle.std.specs.Ordering.{nat_cmp};
ghost use Rattle.std.specs.FinMap as map;
ghost use Rattle.kte_ranges.specs.Cursors.{holds_cursor, Hangs, HoldsTwo, StartIsReady};
ghost use Rattle.kte_ranges.specs.Settling.{CursorsFollow};
ghost use Rattle.kte_ranges.specs.Starts.{AreLed, IsNearOrSettled};
ghost use Rattle.kte_ranges.specs.Rows.{IsRising, IsAt, ShareNone, settled_row};

use crate::info::RangeInfo;
use crate::starts::Starts;
use kte_place::Cursors;

/// Returns the index of the row of this number, if there is one. The rows are in the order of their
/// numbers.
pub(crate) fn position(rows: &[(u64, RangeInfo)], id: u64) -> Option<usize>
    requires { IsRising rows.now }
    ensures found { IfSome result (IsAt rows.now id) }
    ensures absent { IfNone result (map.get (map.from_entries {R = nat_cmp} rows.now) id ≡ None) }
{
    rows.binary_search_by_key(&id, |row| row.0).ok()
}

/// Settles the range of each row after its cursors have moved. Other cursors are unchanged.
pub(crate) fn settle_rows<C: Cursors>(rows: &mut [(u64, RangeInfo)], cursors: &mut C)
    requires hang { All (λ row. Hangs (C.hung cursors.old) row.1) rows.old }
    requires two { All (λ row. HoldsTwo row.1) rows.old }
    requires apart { AllPairs ShareNone rows.old }
    requires ready { All
        (λ row. StartIsReady (C.hung cursors.old) (C.ready cursors.old) row.1) rows.old }
    ensures rows { rows.new ≡ map_list (settled_row (C.hung cursors.old)) rows.old }
    ensures cursors { All
        (λ row. CursorsFollow (C.hung cursors.old) (C.hung cursors.new) row.1) rows.old }
    ensures others { (n : ℕ) → All (λ row. holds_cursor row.1 n ≡ false) rows.old →
        map.get (C.hung cursors.new) n ≡ map.get (C.hung cursors.old) n }
    ensures lines { C.ready cursors.new ≡ C.ready cursors.old }
    ensures near { C.near cursors.new ≡ C.near cursors.old }
    ensures rest { C.rest cursors.new ≡ C.rest cursors.old }
{
    for row in rows {
        row.1.settle(cursors);
    }
}

/// Settles the ranges that start with a cursor on the lines that were last touched, where all other
/// ranges are settled. Other cursors are unchanged.
pub(crate) fn settle_near<C: Cursors>(
    rows: &mut [(u64, RangeInfo)],
    starts: &Starts,
    cursors: &mut C,
)
    requires rising { IsRising rows.old }
    requires whole { starts.now.far ≡ false }
    requires led { AreLed starts.now rows.old }
    requires hang { All (λ row. Hangs (C.hung cursors.old) row.1) rows.old }
    requires two { All (λ row. HoldsTwo row.1) rows.old }
    requires apart { AllPairs ShareNone rows.old }
    requires ready { All
        (λ row. StartIsReady (C.hung cursors.old) (C.ready cursors.old) row.1) rows.old }
    requires others { All
        (λ row. IsNearOrSettled (C.hung cursors.old) (C.near cursors.old) row.1) rows.old }
    ensures rows { rows.new ≡ map_list (settled_row (C.hung cursors.old)) rows.old }
    ensures cursors { All
        (λ row. CursorsFollow (C.hung cursors.old) (C.hung cursors.new) row.1) rows.old }
    ensures others { (n : ℕ) → All (λ row. holds_cursor row.1 n ≡ false) rows.old →
        map.get (C.hung cursors.new) n ≡ map.get (C.hung cursors.old) n }
    ensures lines { C.ready cursors.new ≡ C.ready cursors.old }
    ensures near { C.near cursors.new ≡ C.near cursors.old }
    ensures rest { C.rest cursors.new ≡ C.rest cursors.old }
{
    for n in 0..cursors.near_len() {
        let start = cursors.near_at(n);
        if let Some(i) = starts.find(rows, start) {
            let row = &mut rows[i];
            row.1.settle(cursors);
        }
    }
}
