ghost use Rattle.std.specs.Prelude.{◌≡◌, ◌≢◌, [], false, length, slice_set, slice_index_or, not, ◌<◌, IsTrue, All, IfSome, IfNone};
ghost use Rattle.kte_ranges.specs.Rows.{IsRising};
ghost use Rattle.kte_ranges.specs.Starts.{starts_with, LeadTo, AreLed, StartsAt};

use crate::info::RangeInfo;
use crate::rows::position;
use std::alloc::{AllocError, Global};

/// An index from the cursors at which ranges start to the numbers of those ranges.
///
/// An entry may be stale: a caller that follows it checks the range that it leads to.
#[derive(Debug, Drop)]
pub(crate) struct Starts {
    /// By a cursor's number, the number of the range that starts with it.
    ids: Vec<u64>,
    /// Whether a range may start with a cursor that leads elsewhere, or that is beyond the index.
    far: bool,
}

impl Starts {
    /// Returns the index of no ranges. This does not allocate.
    pub(crate) fn new(alloc: Global) -> Self
        ensures { result.ids.items ≡ [] }
    {
        Starts {
            ids: Vec::new(alloc),
            far: false,
        }
    }

    /// Makes room for cursors with numbers below `cursors`. Fails if out of memory. The entries are
    /// unchanged, even on error.
    pub(crate) fn reserve(&mut self, cursors: usize) -> Result<(), AllocError>
        ensures far { self.new.far ≡ self.old.far }
        ensures leads { (row : _) → LeadTo self.old.ids.items row → LeadTo self.new.ids.items row }
    {
        if self.ids.len() < cursors {
            self.ids.resize(cursors, 0)?;
        }
        Ok(())
    }

    /// Whether the index leads from the start of every range to the range.
    pub(crate) fn is_whole(&self) -> bool
        ensures { result ≡ not self.now.far }
    {
        !self.far
    }

    /// Records that a range starts with the first of these cursors, if it has any. The entries of
    /// other ranges are unchanged. This does not allocate.
    pub(crate) fn note(&mut self, rows: &[(u64, RangeInfo)], id: u64, cursors: Option<(u64, u64)>)
        requires rising { IsRising rows.now }
        requires led { AreLed self.old rows.now }
        ensures own { self.new.far ≡ false → StartsAt self.new.ids.items id cursors }
        ensures others { self.new.far ≡ false
            → All (λ row. row.0 ≢ id → LeadTo self.new.ids.items row) rows.now }
    {
        let Some((start, _)) = cursors else {
            return;
        };
        if self.far {
            return;
        }
        match self.find(rows, start) {
            Some(i) if rows[i].0 != id => self.far = true,
            _ => self.lead(start, id),
        }
    }

    /// Sets the entry of a cursor to a range. This does not allocate.
    fn lead(&mut self, cursor: u64, id: u64)
        ensures far { self.new.far ≡ false → cursor < length self.new.ids.items }
        ensures ids { self.new.far ≡ false
            → self.new.ids.items ≡ slice_set self.old.ids.items cursor id }
    {
        match self.ids.get_mut(cursor as usize) {
            Some(led) => *led = id,
            None => self.far = true,
        }
    }

    /// Returns the index of the row whose range starts with this cursor, if there is one.
    pub(crate) fn find(&self, rows: &[(u64, RangeInfo)], cursor: u64) -> Option<usize>
        requires rising { IsRising rows.now }
        requires whole { self.now.far ≡ false }
        requires led { AreLed self.now rows.now }
        ensures found { IfSome result (λ i. i < length rows.now) }
        ensures starts { IfSome result (λ i. (d : _)
            → IsTrue (starts_with (slice_index_or rows.now i d).1 cursor)) }
        ensures absent { IfNone result (All (λ row. starts_with row.1 cursor ≡ false) rows.now) }
    {
        let id = *self.ids.get(cursor as usize)?;
        let i = position(rows, id)?;
        rows[i].1.starts_with(cursor).then_some(i)
    }
}
