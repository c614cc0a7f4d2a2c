ghost use Rattle.std.specs.Prelude.{◌≡◌, ℕ, ◌+◌, ◌<◌, ◌≤◌, ◌^◌, Some, None, OnOk, OnErr, IfOk};
ghost use Rattle.std.specs.Option.{ok_or, option_map};
ghost use Rattle.std.specs.List.Sorted.{IsStrictlyIncreasing};
ghost use Rattle.std.specs.FinMap as map;
ghost use Rattle.kte_ranges.specs.Table.{AllInfos, NumbersBelow, reset};
ghost use Rattle.kte_ranges.specs.Cursors.{IsFree, CursorsHang, CursorsApart, StartsAreReady, span_of};
ghost use Rattle.kte_ranges.specs.Starts.{IsNearOrSettled};
ghost use Rattle.kte_ranges.specs.Settling.{settled_info, settled_span, CursorsFollow};

use crate::info::{Origin, RangeInfo};
use crate::rows::{position, settle_near, settle_rows};
use crate::starts::Starts;
use kte_place::Cursors;
use std::alloc::{AllocError, Global};
use std::marker::Model;
use thiserror::Error;

/// There is no range of this number.
#[derive(Clone, Copy, Debug, Drop, Error, PartialEq, Eq)]
#[error("no range {id}")]
pub struct NoRange {
    /// The number that was asked for.
    pub id: u64,
}

/// Ranges, each under a number. Numbers rise from 1, and none is used again.
///
/// Contracts see a table as a record: the ranges by their numbers, the number that the next one
/// gets, and how many more can be made without memory.
#[derive(Debug, Drop)]
pub struct RangeTable {
    /// In the order of the numbers.
    rows: Vec<(u64, RangeInfo)>,
    starts: Starts,
    next: u64,
}

impl Model for RangeTable {
    ghost use Rattle.std.specs.Prelude.{◌-◌, vec_len};
    ghost use Rattle.std.specs.Vec.{vec_capacity};
    ghost use Rattle.std.specs.FinMap as map;
    ghost use Rattle.kte_ranges.specs.Table.{Table, table_code};
    ghost use Rattle.kte_ranges.specs.Rows.{RowsFit};

    ghost Value = { Table };

    ghost coded = { table_code };

    ghost view = { λ t. record {
      ranges = map.from_entries t.rows.items;
      next = t.next;
      room = vec_capacity t.rows - vec_len t.rows;
    } };

    ghost invariant = { λ t. RowsFit t.rows.items t.next t.starts };
}

impl RangeTable {
    /// Returns a table without ranges. This does not allocate.
    pub fn new(alloc: Global) -> Self
        ensures ranges { result.ranges ≡ map.empty }
        ensures next { result.next ≡ 1 }
    {
        RangeTable {
            rows: Vec::new(alloc),
            starts: Starts::new(alloc),
            next: 1,
        }
    }

    /// Makes room for `ranges` calls of [`RangeTable::make`]. Fails if out of memory; the ranges
    /// are then unchanged.
    pub fn reserve(&mut self, ranges: u64) -> Result<(), AllocError>
        ensures room { OnOk result (ranges ≤ self.new.room) }
        ensures kept { self.old.room ≤ self.new.room }
        ensures ranges { self.new.ranges ≡ self.old.ranges }
        ensures next { self.new.next ≡ self.old.next }
    {
        self.rows.reserve(ranges as usize)?;
        // Two cursors a range, and two more for one that is set while its own still hang.
        let cursors = self.rows.capacity().saturating_mul(2).saturating_add(2);
        self.starts.reserve(cursors)
    }

    /// Adds a range, and returns its number. This does not allocate.
    pub fn make(&mut self, info: RangeInfo) -> u64
        requires room { 1 ≤ self.old.room }
        requires number { self.old.next < 2 ^ 63 }
        ensures id { result ≡ self.old.next }
        ensures unused { map.get self.old.ranges self.old.next ≡ None }
        ensures ranges { self.new.ranges ≡ map.insert self.old.ranges self.old.next info }
        ensures next { self.new.next ≡ self.old.next + 1 }
        ensures room { self.new.room + 1 ≡ self.old.room }
    {
        let id = self.next;
        self.starts.note(self.rows.as_slice(), id, info.cursors);
        self.rows.push_reserved((id, info));
        self.next = id + 1;
        id
    }

    /// Sets the origin and the cursors of a range, and returns the cursors that it had. Fails if
    /// there is no such range; the table is then unchanged. This does not allocate.
    pub fn set(
        &mut self,
        id: u64,
        origin: Origin,
        cursors: Option<(u64, u64)>,
    ) -> Result<Option<(u64, u64)>, NoRange>
        ensures cursors { result ≡ ok_or
            (option_map (λ info. info.cursors) (map.get self.old.ranges id)) (record { id = id }) }
        ensures set { (info : RangeInfo) → map.get self.old.ranges id ≡ Some info →
            self.new.ranges ≡ map.insert self.old.ranges id (reset info origin cursors) }
        ensures err { OnErr result (self.new ≡ self.old) }
        ensures next { self.new.next ≡ self.old.next }
        ensures room { self.new.room ≡ self.old.room }
    {
        let Some(i) = position(self.rows.as_slice(), id) else {
            return Err(NoRange { id });
        };
        self.starts.note(self.rows.as_slice(), id, cursors);
        let info = &mut self.rows[i].1;
        let had = info.cursors;
        info.origin = origin;
        info.cursors = cursors;
        Ok(had)
    }

    /// Removes a range, and returns the cursors that it had. Its number is not reused. Fails if
    /// there is no such range; the table is then unchanged.
    pub fn drop_range(&mut self, id: u64) -> Result<Option<(u64, u64)>, NoRange>
        ensures cursors { result ≡ ok_or
            (option_map (λ info. info.cursors) (map.get self.old.ranges id)) (record { id = id }) }
        ensures ok { OnOk result (self.new.ranges ≡ map.remove self.old.ranges id) }
        ensures err { OnErr result (self.new ≡ self.old) }
        ensures next { self.new.next ≡ self.old.next }
        ensures room { self.old.room ≤ self.new.room }
    {
        let Some(i) = position(self.rows.as_slice(), id) else {
            return Err(NoRange { id });
        };
        Ok(self.rows.remove(i).1.cursors)
    }

    /// Restores start ≤ end in every range after its cursors have moved, or invalidates the range,
    /// as KTextEditor's MovingRange. If a range may be empty, an end before its start is moved to
    /// the start; if it may not, an end at or before the start makes it invalid, and its cursors
    /// are taken out. Other cursors are unchanged. This does not allocate.
    pub fn settle<C: Cursors>(&mut self, cursors: &mut C)
        requires hang { CursorsHang (C.hung cursors.old) self.old.ranges }
        requires apart { CursorsApart self.old.ranges }
        requires ready { StartsAreReady (C.hung cursors.old) (C.ready cursors.old) self.old.ranges }
        ensures ranges { (id : ℕ) → map.get self.new.ranges id ≡
            option_map (settled_info (C.hung cursors.old)) (map.get self.old.ranges id) }
        // Each range stands where it settled to.
        ensures spans { AllInfos (λ info.
            span_of (C.hung cursors.new) (settled_info (C.hung cursors.old) info) ≡
            settled_span (C.hung cursors.old) info) self.old.ranges }
        ensures cursors { AllInfos
            (CursorsFollow (C.hung cursors.old) (C.hung cursors.new)) self.old.ranges }
        ensures others { (n : ℕ) → IsFree self.old.ranges n →
            map.get (C.hung cursors.new) n ≡ map.get (C.hung cursors.old) n }
        ensures hang { CursorsHang (C.hung cursors.new) self.new.ranges }
        ensures apart { CursorsApart self.new.ranges }
        ensures lines { C.ready cursors.new ≡ C.ready cursors.old }
        ensures near { C.near cursors.new ≡ C.near cursors.old }
        ensures rest { C.rest cursors.new ≡ C.rest cursors.old }
        ensures next { self.new.next ≡ self.old.next }
        ensures room { self.new.room ≡ self.old.room }
    {
        settle_rows(self.rows.as_mut_slice(), cursors);
    }

    /// Does the same as [`RangeTable::settle`], if every range is settled already that does not
    /// start on one of the lines that were last touched. Its cost is that of the cursors on those
    /// lines, unless a range was given a cursor whose number [`RangeTable::reserve`] made no room
    /// for, or one cursor was the start of two ranges. This does not allocate.
    pub fn settle_near<C: Cursors>(&mut self, cursors: &mut C)
        requires hang { CursorsHang (C.hung cursors.old) self.old.ranges }
        requires apart { CursorsApart self.old.ranges }
        requires ready { StartsAreReady (C.hung cursors.old) (C.ready cursors.old) self.old.ranges }
        requires others { AllInfos
            (IsNearOrSettled (C.hung cursors.old) (C.near cursors.old)) self.old.ranges }
        ensures ranges { (id : ℕ) → map.get self.new.ranges id ≡
            option_map (settled_info (C.hung cursors.old)) (map.get self.old.ranges id) }
        // Each range stands where it settled to.
        ensures spans { AllInfos (λ info.
            span_of (C.hung cursors.new) (settled_info (C.hung cursors.old) info) ≡
            settled_span (C.hung cursors.old) info) self.old.ranges }
        ensures cursors { AllInfos
            (CursorsFollow (C.hung cursors.old) (C.hung cursors.new)) self.old.ranges }
        ensures others { (n : ℕ) → IsFree self.old.ranges n →
            map.get (C.hung cursors.new) n ≡ map.get (C.hung cursors.old) n }
        ensures hang { CursorsHang (C.hung cursors.new) self.new.ranges }
        ensures apart { CursorsApart self.new.ranges }
        ensures lines { C.ready cursors.new ≡ C.ready cursors.old }
        ensures near { C.near cursors.new ≡ C.near cursors.old }
        ensures rest { C.rest cursors.new ≡ C.rest cursors.old }
        ensures next { self.new.next ≡ self.old.next }
        ensures room { self.new.room ≡ self.old.room }
    {
        if !self.starts.is_whole() {
            self.settle(cursors);
            return;
        }
        settle_near(self.rows.as_mut_slice(), &self.starts, cursors);
    }

    /// Returns the range of this number, if there is one.
    pub fn get(&self, id: u64) -> Option<RangeInfo>
        ensures { result ≡ map.get self.now.ranges id }
    {
        let i = position(self.rows.as_slice(), id)?;
        Some(self.rows[i].1)
    }

    /// Returns the numbers of the ranges, rising. Fails if out of memory.
    pub fn ids(&self, alloc: Global) -> Result<Vec<u64>, AllocError>
        ensures ids { IfOk result (λ ids. ids.items ≡ map.keys self.now.ranges) }
        ensures rising { IfOk result (λ ids. IsStrictlyIncreasing ids.items) }
    {
        self.rows.iter().map(|row| row.0).collect(alloc)
    }

    /// Returns the number that the next range gets, which is above every number in use.
    pub fn next_id(&self) -> u64
        ensures next { result ≡ self.now.next }
        ensures first { 1 ≤ self.now.next }
        ensures bound { self.now.next ≤ 2 ^ 63 }
        ensures numbers { NumbersBelow self.now.next self.now.ranges }
    {
        self.next
    }
}
