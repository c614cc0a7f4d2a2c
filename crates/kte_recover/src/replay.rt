ghost use Rattle.std.specs.Prelude.{◌≡◌, ◌≢◌, ◌+◌, ◌-◌, ◌≤◌, ◌<◌, ◌^◌, ℕ, List, true, false, length, drop, IfOk, OnOk, Ok, None};
ghost use Rattle.kte_text.specs.Texts.{IsText};
ghost use Rattle.kte_text.specs.Primitives.{HasLine, is_empty, misfit};
ghost use Rattle.kte_record.specs.Grammar.{item_of, starts, finishes, IsRecord};
ghost use Rattle.kte_recover.specs.Inverse.{CanUndo, undone};
ghost use Rattle.kte_record.specs.declared.header.TheConstants.{HEADER_LENGTH};

use crate::inverse::inverse;
use crate::primitive::primitive_of;
use kte_buffer::Buffer;
use kte_record::{HEADER_LENGTH, Reading, Record, read};
use kte_text::{Primitive, Text};
use std::alloc::{AllocError, Global};

/// A replay of the records of a swap file over the saved text.
#[derive(Drop)]
pub(crate) struct Replay {
    pub(crate) buffer: Buffer,
    // What takes back the primitives of the transaction that is open, the last one first.
    pub(crate) undo: Vec<Primitive>,
    // Whether a transaction is begun.
    pub(crate) is_open: bool,
    // The number of transactions with an end.
    pub(crate) done: u64,
}

/// How the records of a swap file end.
#[derive(Clone, Copy, Drop)]
pub(crate) enum End {
    /// After the header or after the end of a transaction.
    Clean,
    /// Within a transaction or a record.
    Torn,
    /// At a record that is none, or may not come, or does not fit: at this offset of the file.
    Damaged { at: u64 },
}

impl Replay {
    ghost use Rattle.kte_recover.specs.Replay.{Applied, Ends, HasNoCursors, IsPlain, MayNotCome, Stands, Took};

    /// Starts a replay over the saved text.
    pub(crate) fn new(alloc: Global, text: Text) -> Result<Replay, AllocError>
        requires { IsText text }
        ensures stands { IfOk result (λ replay. (body : List ℕ) → Stands replay text body body) }
        ensures plain { IfOk result (λ replay. IsPlain replay.buffer) }
        ensures done { IfOk result (λ replay. replay.done ≡ 0) }
    {
        Ok(Replay {
            buffer: Buffer::new(alloc, text)?,
            undo: Vec::new(alloc),
            is_open: false,
            done: 0,
        })
    }

    /// Replays the records after the header. The file has a whole header.
    pub(crate) fn run(&mut self, alloc: Global, swap: &[u8]) -> Result<End, AllocError>
        requires header { HEADER_LENGTH ≤ length swap.now }
        requires plain { IsPlain self.old.buffer }
        requires done { self.old.done ≡ 0 }
        ensures plain { OnOk result (IsPlain self.new.buffer) }
        ensures ends { (text : List (List ℕ))
            → Stands self.old text (drop HEADER_LENGTH swap.now) (drop HEADER_LENGTH swap.now)
            → IfOk result (λ end. Ends text (drop HEADER_LENGTH swap.now) end self.new) }
    {
        let mut at = HEADER_LENGTH;
        while at < swap.len() {
            match read(&swap[at..]) {
                Reading::Got { item, used } => {
                    let may_come = self.take(alloc, &item)?;
                    if !may_come {
                        return Ok(End::Damaged { at: at as u64 });
                    }
                    at += used as usize;
                }
                Reading::Part => return Ok(End::Torn),
                Reading::Bad { .. } => return Ok(End::Damaged { at: at as u64 }),
            }
        }
        if self.is_open {
            return Ok(End::Torn);
        }
        Ok(End::Clean)
    }

    /// Takes the next record. Returns `false` if it may not come, or does not fit; the replay is
    /// then unchanged.
    fn take(&mut self, alloc: Global, item: &Record) -> Result<bool, AllocError>
        requires is_record { IsRecord (item_of item.now) }
        requires plain { IsPlain self.old.buffer }
        requires few { self.old.done < 2 ^ 64 - 1 }
        ensures took { result ≡ Ok true → Took (item_of item.now) self.old self.new }
        ensures refused { result ≡ Ok false
            → MayNotCome (item_of item.now) self.old × (self.new ≡ self.old) }
        ensures plain { OnOk result (IsPlain self.new.buffer) }
        ensures count { OnOk result (self.new.done ≤ self.old.done + 1) }
    {
        match item {
            Record::Start => Ok(self.start()),
            Record::Finish => Ok(self.finish()),
            edit => self.edit(alloc, edit),
        }
    }

    fn start(&mut self) -> bool
        ensures took { result ≡ true → Took starts self.old self.new }
        ensures refused { result ≡ false → MayNotCome starts self.old × (self.new ≡ self.old) }
        ensures buffer { self.new.buffer ≡ self.old.buffer }
        ensures count { self.new.done ≡ self.old.done }
    {
        if self.is_open {
            return false;
        }
        self.is_open = true;
        true
    }

    fn finish(&mut self) -> bool
        requires { self.old.done < 2 ^ 64 - 1 }
        ensures took { result ≡ true → Took finishes self.old self.new }
        ensures refused { result ≡ false → MayNotCome finishes self.old × (self.new ≡ self.old) }
        ensures buffer { self.new.buffer ≡ self.old.buffer }
        ensures count { self.new.done ≤ self.old.done + 1 }
    {
        if !self.is_open {
            return false;
        }
        self.is_open = false;
        self.done += 1;
        self.undo.clear();
        true
    }

    fn edit(&mut self, alloc: Global, item: &Record) -> Result<bool, AllocError>
        requires is_record { IsRecord (item_of item.now) }
        requires no_start { item_of item.now ≢ starts }
        requires no_finish { item_of item.now ≢ finishes }
        requires plain { IsPlain self.old.buffer }
        ensures took { result ≡ Ok true → Took (item_of item.now) self.old self.new }
        ensures refused { result ≡ Ok false
            → MayNotCome (item_of item.now) self.old × (self.new ≡ self.old) }
        ensures plain { OnOk result (IsPlain self.new.buffer) }
        ensures count { self.new.done ≡ self.old.done }
    {
        if !self.is_open {
            return Ok(false);
        }
        let Some(primitive) = primitive_of(alloc, item)? else {
            return Ok(false);
        };
        let empty = primitive.is_empty();
        if self.buffer.fits(&primitive).is_err() {
            return Ok(false);
        }
        if empty {
            return Ok(true);
        }
        self.apply(alloc, &primitive)?;
        Ok(true)
    }

    // Applies a primitive that fits and changes the text.
    fn apply(&mut self, alloc: Global, primitive: &Primitive) -> Result<(), AllocError>
        requires fits { misfit primitive.now self.old.buffer.text ≡ None }
        requires changes { is_empty primitive.now ≡ false }
        requires line { HasLine primitive.now }
        requires plain { IsPlain self.old.buffer }
        ensures applied { OnOk result (Applied primitive.now self.old self.new) }
        ensures opened { self.new.is_open ≡ self.old.is_open }
        ensures count { self.new.done ≡ self.old.done }
    {
        self.undo.push(inverse(alloc, &self.buffer, primitive)?)?;
        self.buffer.reserve(primitive)?;
        self.buffer.apply(primitive);
        Ok(())
    }

    /// Takes back the primitives of the transaction that is begun, and returns the text.
    pub(crate) fn close(mut self, alloc: Global) -> Result<Text, AllocError>
        requires undo { CanUndo self.undo.items self.buffer.text }
        requires cursors { HasNoCursors self.buffer }
        ensures { IfOk result (λ text. text ≡ undone self.undo.items self.buffer.text) }
    {
        while let Some(primitive) = self.undo.pop() {
            self.buffer.reserve(&primitive)?;
            self.buffer.apply(&primitive);
        }
        self.buffer.copy_text(alloc)
    }
}
