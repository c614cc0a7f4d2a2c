ghost use Rattle.std.specs.Prelude.{◌≡◌, ℕ, ◌+◌, ◌-◌, ◌<◌, ◌≤◌, ◌↔◌, ◌^◌, [], length, min, IfOk, OnOk, OnErr, Ok, Err};
ghost use Rattle.kte_undo.specs.Steps.{IsOfText, redo_of, step, undo_of, units_of};
ghost use Rattle.kte_undo.specs.Groups.{begun, ended, gone_back, gone_forth, last_of, noted};
ghost use Rattle.kte_undo.specs.declared.groups.UndoFault.TheVariants as UndoFault;

use crate::group::Group;
use crate::step::{Step, units_in};
use kte_text::{Batch, Primitive};
use std::alloc::{AllocError, Global};
use std::marker::Model;
use std::mem;
use thiserror::Error;

/// The depth of nested transactions, the group of the open one, and the groups that may be undone and
/// redone.
#[derive(Debug, Drop)]
pub struct Undo {
    depth: u32,
    current: Vec<Step>,
    // The next group to be undone is the last one, and so is the next one to be redone.
    undo: Vec<Group>,
    redo: Vec<Group>,
    // An empty vector with room for the units of the next step.
    units: Vec<u16>,
    // An empty vector with room for the steps that are cut from a group.
    steps: Vec<Step>,
    alloc: Global,
}

impl Model for Undo {
    ghost use Rattle.std.specs.Prelude.{ℕ, ◌-◌, length, min, vec_len, vec_capacity};
    ghost use Rattle.kte_undo.specs.Groups.{Kept};
    ghost use Rattle.kte_undo.specs.Inside.{IsSound};

    ghost Value = { Kept };

    ghost view = { λ u. record {
      edits = record {
        depth = u.depth;
        current = u.current.items;
        undo = u.undo.items;
        redo = u.redo.items;
      };
      room = record {
        notes = min (vec_capacity u.current - length u.current.items)
            (vec_capacity u.undo - length u.undo.items);
        units = vec_capacity u.units;
        backs = vec_capacity u.redo - length u.redo.items;
        forths = vec_capacity u.undo - length u.undo.items;
        steps = vec_capacity u.steps;
      };
    } };

    ghost invariant = { λ u. IsSound u.depth (length u.current.items) (length u.undo.items)
        (vec_capacity u.undo) (length u.units.items) (length u.steps.items) };
}

/// Why no group is undone or redone.
#[derive(Clone, Copy, Debug, PartialEq, Eq, Drop, Error)]
pub enum UndoFault {
    /// A transaction is open, at this depth.
    #[error("a transaction is open at depth {depth}")]
    StillOpen { depth: u32 },
    /// There is no group to undo, or to redo.
    #[error("there is nothing to undo or redo")]
    Nothing,
    /// Out of memory.
    #[error("out of memory")]
    NoMemory,
}

/// No transaction is open.
#[derive(Clone, Copy, Debug, PartialEq, Eq, Drop, Error)]
#[error("no transaction is open")]
pub struct NotOpen;

impl From<AllocError> for UndoFault {
    ghost from_gives = { λ _ fault. fault ≡ UndoFault.NoMemory };

    fn from(_error: AllocError) -> UndoFault {
        UndoFault::NoMemory
    }
}

impl Undo {
    /// Creates what is kept before the first transaction, without allocating.
    pub fn new(alloc: Global) -> Undo
        ensures { result.edits ≡ record { depth = 0; current = []; undo = []; redo = [] } }
    {
        Undo {
            depth: 0,
            current: Vec::new(alloc),
            undo: Vec::new(alloc),
            redo: Vec::new(alloc),
            units: Vec::new(alloc),
            steps: Vec::new(alloc),
            alloc,
        }
    }

    /// Returns how many transactions are open, each in the one before.
    pub fn depth(&self) -> u32
        ensures { result ≡ self.now.edits.depth }
    {
        self.depth
    }

    /// Returns how many groups may be undone, and how many may be redone.
    pub fn counts(&self) -> (u64, u64)
        ensures undo { result.0 ≡ length self.now.edits.undo }
        ensures redo { result.1 ≡ length self.now.edits.redo }
    {
        (self.undo.len() as u64, self.redo.len() as u64)
    }

    /// Opens a transaction, and returns the depth after. Takes no memory.
    pub fn begin(&mut self) -> u32
        requires { self.old.edits.depth + 1 < 2 ^ 32 }
        ensures depth { result ≡ self.new.edits.depth }
        ensures begun { self.new ≡ record self.old { edits = begun self.old.edits } }
    {
        self.depth += 1;
        self.depth
    }

    /// Closes the innermost transaction, and returns the depth after. The end of the outermost one
    /// closes its group: unless it is empty it may be undone next, and nothing is left to be redone.
    /// Takes no memory. Fails if no transaction is open; nothing is changed then.
    pub fn end(&mut self) -> Result<u32, NotOpen>
        ensures not_open { OnErr result (self.old.edits.depth ≡ 0) }
        ensures inside { OnOk result (0 < self.old.edits.depth) }
        ensures depth { IfOk result (λ depth. depth ≡ self.new.edits.depth) }
        ensures ended { OnOk result (self.new.edits ≡ ended self.old.edits) }
        ensures err { OnErr result (self.new ≡ self.old) }
    {
        if self.depth == 0 {
            return Err(NotOpen);
        }
        self.depth -= 1;
        if self.depth == 0 && !self.current.is_empty() {
            let steps = mem::replace(&mut self.current, Vec::new(self.alloc));
            self.undo.push_reserved(Group::new(steps));
            self.redo.clear();
        }
        Ok(self.depth)
    }

    /// Makes room for one `note` of a primitive, and for the `end` that closes its group. `cut` holds
    /// the units that a Remove takes.
    pub fn reserve(&mut self, primitive: &Primitive, cut: &[u16]) -> Result<(), AllocError>
        ensures notes { OnOk result (0 < self.new.room.notes) }
        ensures units { OnOk result (units_of primitive.now cut.now ≤ self.new.room.units) }
        ensures edits { self.new.edits ≡ self.old.edits }
    {
        self.current.reserve(1)?;
        self.undo.reserve(1)?;
        self.units.reserve(units_in(primitive, cut))?;
        Ok(())
    }

    /// Adds a primitive that was applied to the open group. `cut` holds the units that a Remove took,
    /// and `old` is the length of the line to which an Unwrap joined its own. Takes no memory.
    pub fn note(&mut self, primitive: &Primitive, cut: &[u16], old: u64)
        requires inside { 0 < self.old.edits.depth }
        requires notes { 0 < self.old.room.notes }
        requires units { units_of primitive.now cut.now ≤ self.old.room.units }
        requires text { IsOfText primitive.now cut.now old }
        ensures { self.new.edits ≡ noted (step primitive.now cut.now old) self.old.edits }
    {
        let step = Step::of(primitive, cut, old, &mut self.units, self.alloc);
        self.current.push_reserved(step);
    }

    /// Returns the primitives that undo the last group, and makes room for one `went_back`. Fails if
    /// a transaction is open, and then if there is no group to undo. What is kept is unchanged.
    pub fn back(&mut self) -> Result<Batch, UndoFault>
        ensures still_open { (depth : ℕ) → (result ≡ Err (UndoFault.StillOpen depth))
            ↔ ((depth ≡ self.old.edits.depth) × (0 < depth)) }
        ensures nothing { (result ≡ Err UndoFault.Nothing)
            ↔ ((self.old.edits.depth ≡ 0) × (self.old.edits.undo ≡ [])) }
        ensures steps { IfOk result (λ batch. batch ≡ undo_of (last_of self.old.edits.undo)) }
        ensures backs { OnOk result (0 < self.new.room.backs) }
        ensures room { OnOk result (length (last_of self.old.edits.undo) ≤ self.new.room.steps) }
        ensures edits { self.new.edits ≡ self.old.edits }
    {
        if self.depth > 0 {
            return Err(UndoFault::StillOpen { depth: self.depth });
        }
        let count = self.undo.len();
        if count == 0 {
            return Err(UndoFault::Nothing);
        }
        let group = &self.undo[count - 1];
        let length = group.len();
        let batch = group.back(self.alloc)?;
        self.redo.reserve(1)?;
        self.steps.reserve(length)?;
        Ok(batch)
    }

    /// Returns the primitives that redo the last group, and makes room for one `went_forth`. Fails if
    /// a transaction is open, and then if there is no group to redo. What is kept is unchanged.
    pub fn forth(&mut self) -> Result<Batch, UndoFault>
        ensures still_open { (depth : ℕ) → (result ≡ Err (UndoFault.StillOpen depth))
            ↔ ((depth ≡ self.old.edits.depth) × (0 < depth)) }
        ensures nothing { (result ≡ Err UndoFault.Nothing)
            ↔ ((self.old.edits.depth ≡ 0) × (self.old.edits.redo ≡ [])) }
        ensures steps { IfOk result (λ batch. batch ≡ redo_of (last_of self.old.edits.redo)) }
        ensures forths { OnOk result (0 < self.new.room.forths) }
        ensures room { OnOk result (length (last_of self.old.edits.redo) ≤ self.new.room.steps) }
        ensures edits { self.new.edits ≡ self.old.edits }
    {
        if self.depth > 0 {
            return Err(UndoFault::StillOpen { depth: self.depth });
        }
        let count = self.redo.len();
        if count == 0 {
            return Err(UndoFault::Nothing);
        }
        let group = &self.redo[count - 1];
        let length = group.len();
        let batch = group.forth(self.alloc)?;
        self.undo.reserve(1)?;
        self.steps.reserve(length)?;
        Ok(batch)
    }

    /// Moves the last `done` steps of the group that was undone last to a group to be redone. Steps
    /// that were not undone are left in their group. Takes no memory.
    pub fn went_back(&mut self, done: u64)
        requires shut { self.old.edits.depth ≡ 0 }
        requires some { 0 < length self.old.edits.undo }
        requires one { 0 < done }
        requires done { done ≤ length (last_of self.old.edits.undo) }
        requires backs { 0 < self.old.room.backs }
        requires room { length (last_of self.old.edits.undo) ≤ self.old.room.steps }
        ensures { self.new.edits ≡ gone_back done self.old.edits }
    {
        if let Some(group) = self.undo.pop() {
            let room = mem::replace(&mut self.steps, Vec::new(self.alloc));
            let at = group.len() - done as usize;
            let (left, moved) = group.cut(at, room);
            if left.len() > 0 {
                self.undo.push_reserved(left);
            }
            self.redo.push_reserved(moved);
        }
    }

    /// Moves the first `done` steps of the group that was redone last to a group to be undone. Steps
    /// that were not redone are left in their group. Takes no memory.
    pub fn went_forth(&mut self, done: u64)
        requires shut { self.old.edits.depth ≡ 0 }
        requires some { 0 < length self.old.edits.redo }
        requires one { 0 < done }
        requires done { done ≤ length (last_of self.old.edits.redo) }
        requires forths { 0 < self.old.room.forths }
        requires room { length (last_of self.old.edits.redo) ≤ self.old.room.steps }
        ensures { self.new.edits ≡ gone_forth done self.old.edits }
    {
        if let Some(group) = self.redo.pop() {
            let room = mem::replace(&mut self.steps, Vec::new(self.alloc));
            let (moved, left) = group.cut(done as usize, room);
            if left.len() > 0 {
                self.redo.push_reserved(left);
            }
            self.undo.push_reserved(moved);
        }
    }
}
