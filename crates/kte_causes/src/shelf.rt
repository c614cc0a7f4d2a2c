//! The moments of a disk in memory.
ghost use Rattle.std.specs.Prelude.{◌≡◌, ◌^◌, ◌+◌, ◌<◌, ◌≤◌, [], ◌∷◌, ◌++◌, length, is_ok, take, slice_get, slice_index_or, IfOk, OnOk, OnErr, Some, if◌then◌else◌};
ghost use Rattle.kte_causes.specs.Moments.{latest, nowhere};
ghost use Rattle.kte_causes.specs.Shelf.{changed, left_by, counted, first_moment, saved_bytes, swap_bytes, place_after};

use std::alloc::AllocError;
use std::marker::Model;

/// A moment, as a place in what is kept.
#[derive(Clone, Copy)]
pub(crate) struct Place {
    /// Where its saved file begins, in bytes from 0.
    pub(crate) saved_from: usize,
    /// The length of its saved file, in bytes.
    pub(crate) saved_len: usize,
    /// Where its swap file begins, in bytes from 0.
    pub(crate) swap_from: usize,
    /// The length of its swap file, in bytes.
    pub(crate) swap_len: usize,
    /// How many of the first bytes of the swap file a crash keeps.
    pub(crate) synced: usize,
    /// How many calls had failed.
    pub(crate) faults: u64,
}

/// What a call does to the two files.
#[derive(Clone, Copy)]
pub(crate) enum Change<'a> {
    /// Nothing.
    Keep,
    /// Adds bytes to the end of the swap file.
    Append(&'a [u8]),
    /// Makes all of the swap file safe from a crash.
    Sync,
    /// Gives the saved file these bytes.
    Replace(&'a [u8]),
    /// Empties the swap file.
    Empty,
}

impl<'a> Change<'a> {
    /// Returns what a call that fails leaves of a change: `done` of the bytes of an append, no
    /// sync, and a replace or an emptying where `done` is not 0.
    pub(crate) fn left(self, done: u64) -> Change<'a>
        ensures { (moment : _) → changed result moment ≡ left_by self.entry done moment }
    {
        match self {
            Change::Append(bytes) => Change::Append(&bytes[..bytes.len().min(done as usize)]),
            Change::Replace(_) | Change::Empty if done != 0 => self,
            _ => Change::Keep,
        }
    }
}

/// Keeps the bytes of a change after those of the saved files or those of the swap files.
/// Changes nothing if memory runs out.
fn keep_bytes(saved: &mut Vec<u8>, swap: &mut Vec<u8>, change: Change<'_>) -> Result<(), AllocError>
    ensures saved { saved.new.items
        ≡ (if is_ok result then saved.old.items ++ saved_bytes change.entry else saved.old.items) }
    ensures swap { swap.new.items
        ≡ (if is_ok result then swap.old.items ++ swap_bytes change.entry else swap.old.items) }
{
    match change {
        Change::Append(bytes) => swap.extend_from_slice(bytes),
        Change::Replace(bytes) => saved.extend_from_slice(bytes),
        Change::Keep | Change::Sync | Change::Empty => Ok(()),
    }
}

impl Place {
    /// Returns the place after a change, with one fault more where the call has failed. `saved` and
    /// `swap` are how many bytes of saved files and of swap files were kept before the change.
    fn after(self, change: Change<'_>, failed: bool, saved: usize, swap: usize) -> Place
        requires faults { self.faults + 1 < 2 ^ 64 }
        requires grows { self.swap_len + length (swap_bytes change) < 2 ^ 64 }
        ensures { result ≡ place_after self change.entry failed saved swap }
    {
        let place = Place {
            faults: self.faults + u64::from(failed),
            ..self
        };
        match change {
            Change::Keep => place,
            Change::Append(bytes) => Place {
                swap_len: self.swap_len + bytes.len(),
                ..place
            },
            Change::Sync => Place {
                synced: self.swap_len,
                ..place
            },
            Change::Replace(bytes) => Place {
                saved_from: saved,
                saved_len: bytes.len(),
                ..place
            },
            Change::Empty => Place {
                swap_from: swap,
                swap_len: 0,
                synced: 0,
                ..place
            },
        }
    }
}

/// Returns the place of a moment, counted from 0, the last of which is the present one.
fn place_at(past: &[Place], present: Place, moment: usize) -> Place
    requires { moment ≤ length past.now }
    ensures { slice_get (past.now ++ present ∷ []) moment ≡ Some result }
{
    if moment < past.len() {
        past[moment]
    } else {
        present
    }
}

/// What a disk in memory held at each of its moments. It is seen as the list of these.
///
/// Saved files and swap files are kept one after another, so a moment is six numbers.
#[derive(Drop)]
pub(crate) struct Shelf {
    saved: Vec<u8>,
    swap: Vec<u8>,
    past: Vec<Place>,
    present: Place,
}

impl Model for Shelf {
    ghost use Rattle.std.specs.Prelude.{List};
    ghost use Rattle.kte_causes.specs.Moments.{Moment};
    ghost use Rattle.kte_causes.specs.Inside.{moments_in, InOrder};

    ghost Value = { List Moment };

    ghost view = { moments_in };

    ghost invariant = { InOrder };
}

impl Shelf {
    /// Begins with one moment, all of whose swap file is synced. Takes no memory.
    pub(crate) fn new(saved: Vec<u8>, swap: Vec<u8>) -> Self
        ensures { result ≡ first_moment saved.items swap.items ∷ [] }
    {
        let present = Place {
            saved_from: 0,
            saved_len: saved.len(),
            swap_from: 0,
            swap_len: swap.len(),
            synced: swap.len(),
            faults: 0,
        };
        let past = Vec::new(*saved.allocator());
        Shelf {
            saved,
            swap,
            past,
            present,
        }
    }

    /// Adds the moment after a change, with one fault more where the call has failed.
    /// Changes nothing if memory runs out.
    pub(crate) fn add(&mut self, change: Change<'_>, failed: bool) -> Result<(), AllocError>
        ensures ok { OnOk result (self.new ≡ self.old
            ++ counted failed (changed change.entry (latest self.old)) ∷ []) }
        ensures err { OnErr result (self.new ≡ self.old) }
        ensures bound { OnOk result ((latest self.new).faults < 2 ^ 64) }
        ensures synced { (latest self.old).synced ≤ length (latest self.old).swap }
    {
        self.past.reserve(1)?;
        let (saved, swap) = (self.saved.len(), self.swap.len());
        keep_bytes(&mut self.saved, &mut self.swap, change)?;
        let next = self.present.after(change, failed, saved, swap);
        self.past.push_reserved(self.present);
        self.present = next;
        Ok(())
    }

    /// Returns the bytes of the saved file.
    pub(crate) fn saved(&self) -> &[u8]
        ensures { result.now ≡ (latest self.now).saved }
    {
        let place = self.present;
        &self.saved[place.saved_from..place.saved_from + place.saved_len]
    }

    /// Returns the bytes of the swap file.
    pub(crate) fn swap(&self) -> &[u8]
        ensures { result.now ≡ (latest self.now).swap }
    {
        let place = self.present;
        &self.swap[place.swap_from..place.swap_from + place.swap_len]
    }

    /// Returns the number of moments.
    pub(crate) fn len(&self) -> usize
        ensures { result ≡ length self.now }
    {
        self.past.len() + 1
    }

    /// Returns how many bytes of the swap file are synced at a moment, and the swap file's length.
    pub(crate) fn cuts(&self, moment: usize) -> (u64, u64)
        requires { moment < length self.now }
        ensures synced { result.0 ≡ (slice_index_or self.now moment nowhere).synced }
        ensures whole { result.1 ≡ length (slice_index_or self.now moment nowhere).swap }
        ensures ordered { result.0 ≤ result.1 }
    {
        let place = place_at(&self.past, self.present, moment);
        (place.synced as u64, place.swap_len as u64)
    }

    /// Returns the saved file of a moment, and the first `cut` bytes of its swap file.
    pub(crate) fn image(&self, moment: usize, cut: usize) -> Result<(Vec<u8>, Vec<u8>), AllocError>
        requires moment { moment < length self.now }
        requires within { cut ≤ length (slice_index_or self.now moment nowhere).swap }
        ensures saved { IfOk result (λ image. image.0.items
            ≡ (slice_index_or self.now moment nowhere).saved) }
        ensures swap { IfOk result (λ image. image.1.items
            ≡ take cut (slice_index_or self.now moment nowhere).swap) }
    {
        let place = place_at(&self.past, self.present, moment);
        let alloc = *self.saved.allocator();
        let saved = self.saved[place.saved_from..place.saved_from + place.saved_len].to_vec(alloc)?;
        let swap = self.swap[place.swap_from..place.swap_from + cut].to_vec(alloc)?;
        Ok((saved, swap))
    }
}
