ghost use Rattle.std.specs.Prelude.{◌≡◌, ◌-◌, ◌<◌, ◌≤◌, [], length, IfOk, vec_capacity};
ghost use Rattle.kte_text.specs.Units.{IsLine};
ghost use Rattle.kte_undo.specs.Steps.{IsOfText, back_of, forth_of, step, units_of};

use kte_text::{Line, Primitive};
use std::alloc::{AllocError, Global};
use std::marker::Model;
use std::mem;

/// The units of a line.
#[derive(Debug, Drop)]
pub struct Units {
    units: Vec<u16>,
}

impl Model for Units {
    ghost use Rattle.std.specs.Prelude.{ℕ, List};
    ghost use Rattle.kte_text.specs.Units.{IsLine};

    ghost Value = { List ℕ };

    ghost view = { λ units. units.units.items };

    ghost invariant = { λ units. IsLine units.units.items };
}

impl Units {
    // Copies units into an empty vector that has room for them, and leaves another one without room.
    fn copied(units: &[u16], room: &mut Vec<u16>, alloc: Global) -> Units
        requires line { IsLine units.now }
        requires empty { room.old.items ≡ [] }
        requires room { length units.now ≤ vec_capacity room.old }
        ensures units { result ≡ units.now }
        ensures empty { room.new.items ≡ [] }
    {
        let mut copy = mem::replace(room, Vec::new(alloc));
        copy.extend_from_slice(units).unwrap();
        Units { units: copy }
    }

    // Returns the line of these units.
    fn line(&self, alloc: Global) -> Result<Line, AllocError>
        ensures { IfOk result (λ line. line ≡ self.now) }
    {
        Line::of_units(alloc, &self.units)
    }

    // Returns the number of units.
    fn len(&self) -> u64
        ensures { result ≡ length self.now }
    {
        self.units.len() as u64
    }
}

/// The number of a line that has one before it.
#[derive(Debug, Drop)]
pub struct Later {
    line: u32,
}

impl Model for Later {
    ghost use Rattle.std.specs.Prelude.{ℕ, ◌<◌};

    ghost Value = { ℕ };

    ghost view = { λ later. later.line };

    ghost invariant = { λ later. 0 < later.line };
}

impl Later {
    // Creates the number of a line, which is not the first.
    fn new(line: u32) -> Later
        requires { 0 < line }
        ensures { result ≡ line }
    {
        Later { line }
    }

    // Returns the number of the line.
    fn line(&self) -> u32
        ensures { result ≡ self.now }
    {
        self.line
    }

    // Returns the number of the line before it.
    fn before(&self) -> u32
        ensures { result ≡ self.now - 1 }
    {
        self.line - 1
    }
}

/// A primitive that was applied, with what its inverse needs: of an Unwrap the length of the line
/// that another was joined to, and of a Remove the units that it took.
#[derive(Debug, Drop)]
pub enum Step {
    /// The line before `next` was split in two at the column.
    Wrap {
        next: Later,
        column: u64,
    },
    /// The line was joined to the line before it, which had `old` units.
    Unwrap {
        line: Later,
        old: u64,
    },
    /// The units were inserted at the column.
    Insert {
        line: u32,
        column: u64,
        units: Units,
    },
    /// The units were removed from the column on.
    Remove {
        line: u32,
        column: u64,
        units: Units,
    },
}

impl Step {
    /// Creates the step of a primitive. Its units are copied into the vector `room`, which is empty,
    /// has room for them, and is empty afterwards.
    pub(crate) fn of(
        primitive: &Primitive,
        cut: &[u16],
        old: u64,
        room: &mut Vec<u16>,
        alloc: Global,
    ) -> Step
        requires text { IsOfText primitive.now cut.now old }
        requires empty { room.old.items ≡ [] }
        requires room { units_of primitive.now cut.now ≤ vec_capacity room.old }
        ensures step { result ≡ step primitive.now cut.now old }
        ensures empty { room.new.items ≡ [] }
    {
        match primitive {
            Primitive::Wrap { line, column } => Step::Wrap {
                next: Later::new(*line + 1),
                column: *column,
            },
            Primitive::Unwrap { line } => Step::Unwrap {
                line: Later::new(*line),
                old,
            },
            Primitive::Insert { line, column, text } => Step::Insert {
                line: *line,
                column: *column,
                units: Units::copied(text.units(), room, alloc),
            },
            Primitive::Remove { line, column, .. } => Step::Remove {
                line: *line,
                column: *column,
                units: Units::copied(cut, room, alloc),
            },
        }
    }

    /// Returns the primitive.
    pub(crate) fn forth(&self, alloc: Global) -> Result<Primitive, AllocError>
        ensures { IfOk result (λ primitive. primitive ≡ forth_of self.now) }
    {
        match self {
            Step::Wrap { next, column } => Ok(Primitive::Wrap {
                line: next.before(),
                column: *column,
            }),
            Step::Unwrap { line, .. } => Ok(Primitive::Unwrap { line: line.line() }),
            Step::Insert {
                line,
                column,
                units,
            } => Ok(Primitive::Insert {
                line: *line,
                column: *column,
                text: units.line(alloc)?,
            }),
            Step::Remove {
                line,
                column,
                units,
            } => Ok(Primitive::Remove {
                line: *line,
                column: *column,
                length: units.len(),
            }),
        }
    }

    /// Returns the inverse of the primitive.
    pub(crate) fn back(&self, alloc: Global) -> Result<Primitive, AllocError>
        ensures { IfOk result (λ primitive. primitive ≡ back_of self.now) }
    {
        match self {
            Step::Wrap { next, .. } => Ok(Primitive::Unwrap { line: next.line() }),
            Step::Unwrap { line, old } => Ok(Primitive::Wrap {
                line: line.before(),
                column: *old,
            }),
            Step::Insert {
                line,
                column,
                units,
            } => Ok(Primitive::Remove {
                line: *line,
                column: *column,
                length: units.len(),
            }),
            Step::Remove {
                line,
                column,
                units,
            } => Ok(Primitive::Insert {
                line: *line,
                column: *column,
                text: units.line(alloc)?,
            }),
        }
    }
}

/// Returns how many units the step of a primitive keeps.
pub(crate) fn units_in(primitive: &Primitive, cut: &[u16]) -> usize
    ensures { result ≡ units_of primitive.now cut.now }
{
    match primitive {
        Primitive::Wrap { .. } | Primitive::Unwrap { .. } => 0,
        Primitive::Insert { text, .. } => text.units().len(),
        Primitive::Remove { .. } => cut.len(),
    }
}
