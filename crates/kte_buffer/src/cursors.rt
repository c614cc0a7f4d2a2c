//! The cursors of a buffer, in a slab whose keys are their numbers.
ghost use Rattle.std.specs.Prelude.{◌≡◌, ℕ, ◌≤◌, length, IfSome, IsTrue, vec_capacity};
ghost use Rattle.std.specs.List.{Contains};
ghost use Rattle.std.specs.Option.{option_map};
ghost use Rattle.slab.specs.Slab as slots;
ghost use Rattle.kte_place.specs.Entry.{EntryFits, PlaceFits};
ghost use Rattle.kte_buffer.specs.Entries.{is_touched};
ghost use Rattle.kte_buffer.specs.Cursors.{cursor_after};

use kte_place::{Entry, EntryKind, OnInsert, Place};
use slab::Slab;

/// A cursor of a buffer.
#[derive(Clone, Copy)]
pub(crate) struct Cursor {
    pub(crate) place: Place,
    pub(crate) on_insert: OnInsert,
}

/// Whether an entry touched a line of the text after it.
fn is_touched(entry: &Entry, line: u32) -> bool
    requires { EntryFits entry.now }
    ensures { result ≡ is_touched entry.now line }
{
    match entry.kind {
        EntryKind::Wrap => entry.line <= line && line - entry.line <= 1,
        EntryKind::Unwrap => line == entry.line - 1,
        EntryKind::Insert | EntryKind::Remove => line == entry.line,
    }
}

/// Carries every cursor over an entry, and lists the numbers of the cursors that are then on a line
/// that it touched. There is room for them.
pub(crate) fn carry(cursors: &mut Slab<Cursor>, near: &mut Vec<u64>, entry: &Entry)
    requires entry { EntryFits entry.now }
    requires places { (key : ℕ)
        → IfSome (slots.get cursors.old key) (λ cursor. PlaceFits cursor.place) }
    requires room { length cursors.old.slots ≤ vec_capacity near.old }
    ensures carried { (key : ℕ)
        → slots.get cursors.new key
        ≡ option_map (cursor_after entry.now) (slots.get cursors.old key) }
    ensures near { (key : ℕ) → IfSome (slots.get cursors.new key)
        (λ cursor. IsTrue (is_touched entry.now cursor.place.line) → Contains near.new.items key) }
{
    near.clear();
    // Every key is below the capacity, even after removals.
    for key in 0..cursors.capacity() {
        if let Some(cursor) = cursors.get_mut(key) {
            cursor.place = entry.carry(cursor.place, cursor.on_insert);
            if is_touched(entry, cursor.place.line) {
                near.push_reserved(key as u64);
            }
        }
    }
}
