ghost use Rattle.std.specs.Prelude.{◌≡◌, ℕ, ◌≤◌, ◌<◌, List, [], length, OnOk, OnErr, IfOk, None, false};
ghost use Rattle.std.specs.FinMap as map;
ghost use Rattle.std.specs.Option.{option_map};
ghost use Rattle.std.specs.Result.{result_err};
ghost use Rattle.kte_text.specs.Primitives.{HasEnd, misfit, after, is_empty};
ghost use Rattle.kte_place.specs.declared.place.TheConstants.{MAX_COLUMN};
ghost use Rattle.kte_buffer.specs.Entries.{entry};

use crate::cursors::Cursor;
use crate::{cursors, rows};
use kte_place::{Cursors, Entry, OnInsert, Place};
use kte_text::{Lines, Misfit, Primitive, Text};
use slab::Slab;
use std::alloc::{AllocError, Global};
use std::marker::Model;

/// What a buffer is ready for, so that it cannot fail.
#[derive(Clone, Copy)]
pub enum Ready {
    /// Nothing.
    Nothing,
    /// Applying the primitive of this entry.
    ToApply(Entry),
    /// Moving cursors to the lines that the primitive of this entry touched.
    ToRehome(Entry),
}

/// A text, and the cursors that hang in it, each under a number of its own.
///
/// Contracts see its text as lines of UTF-16 units, the place of each cursor, with lines and
/// columns from 0, what the buffer is ready for, and which cursors are near: on the lines that the
/// last primitive touched. Moving a cursor and taking one out keep what it is ready for, and any
/// other change ends that.
#[derive(Drop)]
pub struct Buffer {
    rows: Vec<Vec<u16>>,
    // An empty row with room for the units that a cut moves.
    fresh: Vec<u16>,
    // The units of all rows, and one for the end between each two.
    size: u64,
    cursors: Slab<Cursor>,
    near: Vec<u64>,
    ready: Ready,
}

impl Model for Buffer {
    ghost use Rattle.kte_buffer.specs.Buffer.{Contents, contents_code};

    ghost Value = { Contents };

    ghost coded = { contents_code };

    ghost use Rattle.kte_buffer.specs.Inside.{contents_of, IsSound};

    ghost view = { contents_of };

    ghost invariant = { IsSound };
}

impl Buffer {
    ghost use Rattle.kte_buffer.specs.Buffer.{IsReadyFor, ColumnsFit, ListsNear};
    ghost use Rattle.kte_buffer.specs.Cursors.{carried, hanging};

    /// Returns the buffer of a text, without cursors. Fails if out of memory.
    pub fn new(alloc: Global, text: Text) -> Result<Buffer, AllocError>
        ensures { IfOk result (λ buffer. buffer
            ≡ record { text = text; hung = map.empty; ready = Ready.Nothing; near = [] }) }
    {
        let size = text.size();
        let rows = rows::of_lines(alloc, text.into_lines())?;
        Ok(Buffer {
            rows,
            fresh: Vec::new(alloc),
            size,
            cursors: Slab::new(alloc),
            near: Vec::new(alloc),
            ready: Ready::Nothing,
        })
    }

    /// Whether a primitive fits the text. Fails with the first cause in the order of [`Misfit`].
    pub fn fits(&self, primitive: &Primitive) -> Result<(), Misfit>
        requires { HasEnd primitive.now }
        ensures { result_err result ≡ misfit primitive.now self.now.text }
    {
        kte_text::fits(self, primitive)
    }

    /// Makes the buffer ready for a primitive, so that [`Buffer::apply`] cannot fail. Fails if out
    /// of memory; the buffer is then unchanged.
    pub fn reserve(&mut self, primitive: &Primitive) -> Result<(), AllocError>
        requires fits { misfit primitive.now self.old.text ≡ None }
        requires changes { is_empty primitive.now ≡ false }
        ensures ready { OnOk result (IsReadyFor primitive.now self.new) }
        ensures kept { self.new ≡ record self.old { ready = self.new.ready } }
        ensures err { OnErr result (self.new ≡ self.old) }
    {
        rows::reserve(&mut self.rows, &mut self.fresh, primitive)?;
        let missing = self.cursors.capacity().saturating_sub(self.near.len());
        self.near.try_reserve(missing)?;
        self.ready = Ready::ToApply(rows::entry_of(self.rows.as_slice(), primitive));
        Ok(())
    }

    /// Applies a primitive, as KTextEditor's Document does, carries every cursor as by
    /// [`Entry::carry`], and returns the primitive's entry. The buffer is then ready for moving
    /// cursors to the lines that the primitive touched, and lists the cursors on them.
    pub fn apply(&mut self, primitive: &Primitive) -> Entry
        requires ready { IsReadyFor primitive.now self.old }
        requires columns { ColumnsFit self.old.hung }
        ensures entry { result ≡ entry primitive.now self.old.text }
        ensures text { self.new.text ≡ after primitive.now self.old.text }
        ensures hung { (id : ℕ)
            → map.get self.new.hung id ≡ option_map (carried result) (map.get self.old.hung id) }
        ensures ready { self.new.ready ≡ Ready.ToRehome result }
        ensures near { ListsNear self.new }
    {
        let Ready::ToApply(entry) = self.ready else {
            unreachable!()
        };
        rows::apply(&mut self.rows, &mut self.fresh, primitive);
        self.size = rows::size_after(self.size, primitive);
        cursors::carry(&mut self.cursors, &mut self.near, &entry);
        self.ready = Ready::ToRehome(entry);
        entry
    }

    /// Hangs a cursor on a line of the text, at a column of it or beyond its end, and returns its
    /// number, which may be that of a cursor that was taken out. Fails if out of memory; the buffer
    /// is then unchanged.
    pub fn hang(&mut self, place: Place, on_insert: OnInsert) -> Result<u64, AllocError>
        requires line { place.line < length self.old.text }
        requires column { place.column ≤ MAX_COLUMN }
        ensures free { IfOk result (λ id. map.get self.old.hung id ≡ None) }
        ensures ok { IfOk result (λ id. self.new ≡ record self.old {
          hung = map.insert self.old.hung id (hanging place on_insert);
          ready = Ready.Nothing;
        }) }
        ensures err { OnErr result (self.new ≡ self.old) }
    {
        let id = self.cursors.insert(Cursor { place, on_insert })?;
        self.ready = Ready::Nothing;
        Ok(id as u64)
    }

    /// Returns a copy of the text. Fails if out of memory.
    pub fn copy_text(&self, alloc: Global) -> Result<Text, AllocError>
        ensures { IfOk result (λ text. text ≡ self.now.text) }
    {
        rows::copy_text(alloc, self.rows.as_slice())
    }
}

impl Lines for Buffer {
    ghost text = { λ buffer. buffer.text };

    fn lines(&self) -> u32 {
        self.rows.len() as u32
    }

    fn line(&self, n: u32) -> &[u16] {
        self.rows[n as usize].as_slice()
    }

    fn line_hinted(&self, n: u32, _hint: &mut u64) -> &[u16] {
        self.line(n)
    }

    fn size(&self) -> u64 {
        self.size
    }
}

impl Cursors for Buffer {
    ghost use Rattle.std.specs.Prelude.{List, ℕ, IsSome, IsTrue};
    ghost use Rattle.kte_place.specs.Cursors.{with_place};
    ghost use Rattle.kte_buffer.specs.Buffer.{is_home};

    ghost hung = { λ buffer. buffer.hung };

    ghost ready = { λ buffer. is_home buffer.ready };

    ghost near = { λ buffer. buffer.near };

    ghost Rest = { List (List ℕ) };

    ghost rest = { λ buffer. buffer.text };

    fn place(&self, id: u64) -> Place {
        self.cursors[id as usize].place
    }

    fn near_len(&self) -> u64 {
        self.near.len() as u64
    }

    fn near_at(&self, n: u64) -> u64 {
        self.near[n as usize]
    }

    fn rehome(&mut self, id: u64, place: Place)
        requires hangs { IsSome (map.get self.old.hung id) }
        requires line { IsTrue (is_home self.old.ready place.line) }
        requires column { place.column ≤ MAX_COLUMN }
        ensures moved { self.new ≡ record self.old { hung = with_place self.old.hung id place } }
    {
        self.cursors[id as usize].place = place;
    }

    fn unhang(&mut self, id: u64)
        requires { IsSome (map.get self.old.hung id) }
        ensures gone { self.new ≡ record self.old { hung = map.remove self.old.hung id } }
    {
        self.cursors.remove(id as usize);
    }
}
