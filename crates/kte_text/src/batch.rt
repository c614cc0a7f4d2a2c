ghost use Rattle.std.specs.Prelude.{◌≡◌, ℕ, ◌<◌, ◌≤◌, ◌↔◌, List, [], ◌∷◌, ◌++◌, length, take, IfOk, OnOk, OnErr, IsTrue, slice_get, Some};

use crate::primitive::Primitive;
use std::alloc::{AllocError, Global};
use std::marker::Model;

/// A list of primitives, in the order in which they are applied.
#[derive(Debug, Drop)]
pub struct Batch {
    primitives: Vec<Primitive>,
}

impl Model for Batch {
    ghost use Rattle.std.specs.Prelude.{List};
    ghost use Rattle.kte_text.specs.declared.primitive.Primitive.{Primitive};

    ghost Value = { List Primitive };

    ghost view = { λ batch. batch.primitives.items };
}

impl Batch {
    /// Creates an empty list, without allocating.
    pub fn new(alloc: Global) -> Batch
        ensures { result ≡ [] }
    {
        Batch {
            primitives: Vec::new(alloc),
        }
    }

    /// Appends a primitive. If out of memory, the list is unchanged.
    pub fn push(&mut self, primitive: Primitive) -> Result<(), AllocError>
        ensures ok { OnOk result (self.new ≡ self.old ++ primitive ∷ []) }
        ensures err { OnErr result (self.new ≡ self.old) }
    {
        self.primitives.push(primitive)?;
        Ok(())
    }

    /// Returns the number of primitives.
    pub fn len(&self) -> u64
        ensures { result ≡ length self.now }
    {
        self.primitives.len() as u64
    }

    /// Returns `true` if the list is empty.
    pub fn is_empty(&self) -> bool
        ensures { IsTrue result ↔ (self.now ≡ []) }
    {
        self.primitives.is_empty()
    }

    /// Returns primitive `n`, from 0.
    pub fn get(&self, n: u64) -> &Primitive
        requires { n < length self.now }
        ensures { slice_get self.now n ≡ Some result.now }
    {
        &self.primitives[n as usize]
    }

    /// Keeps the first `n` primitives and drops the others. Takes no memory.
    pub fn truncate(&mut self, n: u64)
        requires { n ≤ length self.old }
        ensures { self.new ≡ take n self.old }
    {
        self.primitives.truncate(n as usize);
    }

    /// Returns an equal list.
    pub fn copy(&self, alloc: Global) -> Result<Batch, AllocError>
        ensures { IfOk result (λ batch. batch ≡ self.now) }
    {
        let mut primitives = Vec::with_capacity(alloc, self.primitives.len())?;
        for primitive in &self.primitives {
            primitives.push(primitive.copy(alloc)?)?;
        }
        Ok(Batch { primitives })
    }
}
