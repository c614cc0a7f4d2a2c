ghost use Rattle.std.specs.Prelude.{◌≡◌, ℕ, ◌+◌, ◌-◌, ◌≤◌, [], length, take, drop, IfOk, vec_capacity};
ghost use Rattle.kte_undo.specs.Steps.{redo_of, undo_of};

use crate::step::Step;
use kte_text::Batch;
use std::alloc::{AllocError, Global};
use std::marker::Model;

/// The steps of an outermost transaction, or a part of them, in their order.
#[derive(Debug, Drop)]
pub struct Group {
    steps: Vec<Step>,
}

impl Model for Group {
    ghost use Rattle.std.specs.Prelude.{List};
    ghost use Rattle.kte_undo.specs.declared.step.Step.{Step};

    ghost Value = { List Step };

    ghost view = { λ group. group.steps.items };
}

impl Group {
    /// Creates the group of these steps.
    pub(crate) fn new(steps: Vec<Step>) -> Group
        ensures { result ≡ steps.items }
    {
        Group { steps }
    }

    /// Returns the number of steps.
    pub(crate) fn len(&self) -> usize
        ensures { result ≡ length self.now }
    {
        self.steps.len()
    }

    /// Returns the primitives that undo the group.
    pub(crate) fn back(&self, alloc: Global) -> Result<Batch, AllocError>
        ensures { IfOk result (λ batch. batch ≡ undo_of self.now) }
    {
        let mut batch = Batch::new(alloc);
        let mut left = self.steps.len();
        while left > 0 {
            left -= 1;
            batch.push(self.steps[left].back(alloc)?)?;
        }
        Ok(batch)
    }

    /// Returns the primitives that redo the group.
    pub(crate) fn forth(&self, alloc: Global) -> Result<Batch, AllocError>
        ensures { IfOk result (λ batch. batch ≡ redo_of self.now) }
    {
        let mut batch = Batch::new(alloc);
        for step in &self.steps {
            batch.push(step.forth(alloc)?)?;
        }
        Ok(batch)
    }

    /// Cuts the group in two, the second part being put into an empty vector that has room for it.
    pub(crate) fn cut(self, at: usize, room: Vec<Step>) -> (Group, Group)
        requires at { at ≤ length self }
        requires empty { room.items ≡ [] }
        requires room { length self - at ≤ vec_capacity room }
        ensures first { result.0 ≡ take at self }
        ensures second { result.1 ≡ drop at self }
    {
        let Group { mut steps } = self;
        let mut rest = room;
        while steps.len() > at {
            if let Some(step) = steps.pop() {
                rest.push_reserved(step);
            }
        }
        rest.reverse();
        (Group { steps }, Group { steps: rest })
    }
}
