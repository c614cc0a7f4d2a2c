ghost use Rattle.std.specs.Prelude.{◌≡◌, ◌+◌, ◌<◌, ◌≤◌, Some, Ok, Err, OnOk, OnErr, IfOk, IfSome, IsSome, IsTrue, IsOk, All, ◌↔◌, length, nat_le, if◌then◌else◌};
ghost use Rattle.kte_place.specs.Entry.{EntryFits};
ghost use Rattle.kte_place.specs.Place.{IsInReach};
ghost use Rattle.kte_history.specs.Locks.{oldest, has_lock};
ghost use Rattle.kte_history.specs.Revisions.{begun, with_entry, with_lock, without_lock, entries_since, can_land, landed};
ghost use Rattle.kte_history.specs.Landing.{HasLanded};

use crate::fault::{NotLocked, NotOwned, RevisionsFull};
use crate::landing::{carry_all, last};
use crate::lock::{Lock, Owner, is_locked, oldest, remove_first};
use kte_place::{Empty, Entry, Expand, Span, settle};
use std::alloc::{AllocError, Global};
use std::marker::Model;

/// The greatest limit of revisions: 2^31.
pub const MAX_REVISIONS: u64 = 1 << 31;

/// The entries since the oldest locked revision, the locks, and the count of revisions.
///
/// Contracts see a history as a record: the kept entries, the locks, the current revision, the
/// greatest one that there may be, and the number of entries for which [`History::add`] has room.
#[derive(Debug, Drop)]
pub struct History {
    /// The last entries, the kept ones among them.
    entries: Vec<Entry>,
    /// In the order in which they were taken, and so in that of their revisions.
    locks: Vec<Lock>,
    revision: u64,
    limit: u64,
}

impl Model for History {
    ghost use Rattle.std.specs.Prelude.{◌-◌, vec_len};
    ghost use Rattle.std.specs.Vec.{vec_capacity};
    ghost use Rattle.kte_history.specs.Revisions.{Revisions, kept_since};
    ghost use Rattle.kte_history.specs.Locks.{oldest};
    ghost use Rattle.kte_history.specs.Inside.{IsSound};

    ghost Value = { Revisions };

    ghost view = { λ h. record {
      kept = kept_since h.revision (oldest h.locks.items) h.entries.items;
      locks = h.locks.items;
      revision = h.revision;
      limit = h.limit;
      reserved = vec_capacity h.entries - vec_len h.entries;
    } };

    ghost invariant = { λ h. IsSound h.entries.items h.locks.items h.revision h.limit };
}

impl History {
    /// Returns the history of a text that was just loaded: nothing is locked, and there may be
    /// revisions up to this limit. This does not allocate.
    pub fn new(alloc: Global, limit: u64) -> Self
        requires { limit ≤ MAX_REVISIONS }
        ensures { result ≡ begun limit }
    {
        History {
            entries: Vec::new(alloc),
            locks: Vec::new(alloc),
            revision: 0,
            limit,
        }
    }

    /// Whether there may be `n` more revisions. This does not allocate.
    pub fn room(&self, n: u64) -> Result<(), RevisionsFull>
        ensures { result ≡ (if nat_le (self.now.revision + n) self.now.limit
            then Ok tt else Err (record { revision = self.now.revision })) }
    {
        if n > self.limit - self.revision {
            return Err(RevisionsFull {
                revision: self.revision,
            });
        }
        Ok(())
    }

    /// Makes room for one call of [`History::add`]. Room never shrinks, even on error. Fails if out
    /// of memory, and never if there is room already.
    pub fn reserve(&mut self) -> Result<(), AllocError>
        ensures ok { OnOk result (1 ≤ self.new.reserved) }
        ensures grows { self.old.reserved ≤ self.new.reserved }
        ensures ready { 1 ≤ self.old.reserved → IsOk result }
        ensures same { self.new ≡ record self.old { reserved = self.new.reserved } }
    {
        self.entries.reserve(1)
    }

    /// Counts one more revision, and keeps its entry if any revision is locked. This does not
    /// allocate.
    pub fn add(&mut self, entry: Entry)
        requires reserved { 1 ≤ self.old.reserved }
        requires room { self.old.revision < self.old.limit }
        requires entry { EntryFits entry }
        ensures added { self.new ≡ record (with_entry entry self.old) { reserved = self.new.reserved } }
        ensures reserved { self.old.reserved ≤ self.new.reserved + 1 }
    {
        self.forget();
        self.revision += 1;
        if !self.locks.is_empty() {
            self.entries.push_reserved(entry);
        }
    }

    /// Returns the current revision: the number of entries that were added. It is at most the
    /// limit.
    pub fn revision(&self) -> u64
        ensures revision { result ≡ self.now.revision }
        ensures within { result ≤ self.now.limit }
        ensures small { self.now.limit ≤ MAX_REVISIONS }
    {
        self.revision
    }

    /// Returns the kept entries: those after the oldest lock, and none if nothing is locked.
    pub fn stored(&self) -> &[Entry]
        ensures { result.now ≡ self.now.kept }
    {
        last(&self.entries, self.kept_len())
    }

    /// Locks the current revision, and returns it. A revision may be locked more than once. Fails
    /// if out of memory; nothing is then changed.
    pub fn lock(&mut self, owner: Owner) -> Result<u64, AllocError>
        ensures revision { IfOk result (λ revision. revision ≡ self.old.revision) }
        ensures ok { OnOk result (self.new ≡ with_lock owner self.old) }
        ensures err { OnErr result (self.new ≡ self.old) }
    {
        let revision = self.revision;
        self.locks.push(Lock { owner, revision })?;
        Ok(revision)
    }

    /// Removes one lock of this owner on this revision. Fails if there is none; nothing is then
    /// changed. This does not allocate.
    pub fn unlock(&mut self, owner: Owner, revision: u64) -> Result<(), NotOwned>
        ensures owned { result ≡ (if has_lock self.old.locks owner revision
            then Ok tt else Err (record { revision = revision })) }
        ensures ok { OnOk result (self.new
            ≡ record (without_lock owner revision self.old) { reserved = self.new.reserved }) }
        ensures err { OnErr result (self.new ≡ self.old) }
        ensures reserved { self.old.reserved ≤ self.new.reserved }
    {
        if !remove_first(&mut self.locks, owner, revision) {
            return Err(NotOwned { revision });
        }
        Ok(())
    }

    /// Returns the span in the present text of a range that was made at this span of the text at
    /// this revision, or `None` if the range became invalid: the span is settled, then carried over
    /// each later entry and settled after each. Fails if the revision is neither locked nor the
    /// current one. This does not allocate.
    pub fn carry_span(
        &self,
        revision: u64,
        span: Span,
        expand: Expand,
        empty: Empty,
    ) -> Result<Option<Span>, NotLocked>
        requires start { IsInReach span.start }
        requires end { IsInReach span.end }
        ensures landed { result ≡ (if can_land self.now revision
            then Ok (landed self.now revision span expand empty)
            else Err (record { revision = revision; oldest = oldest self.now.locks })) }
        ensures span { IfOk result (λ span. IfSome span (HasLanded self.now.revision empty)) }
    {
        let Some(since) = self.since(revision) else {
            return Err(NotLocked {
                revision,
                oldest: oldest(&self.locks),
            });
        };
        match settle(span.start, span.end, empty) {
            Some(span) => Ok(carry_all(since, span, expand, empty)),
            None => Ok(None),
        }
    }

    /// Returns the entries after a revision, if it is locked or the current one.
    fn since(&self, revision: u64) -> Option<&[Entry]>
        ensures some { IsSome result ↔ IsTrue (can_land self.now revision) }
        ensures since { IfSome result (λ since.
            since.now ≡ entries_since self.now.revision revision self.now.kept) }
        ensures fit { IfSome result (λ since. All EntryFits since.now) }
        ensures count { IfSome result (λ since. length since.now ≤ self.now.revision) }
        ensures small { IfSome result (λ since. length since.now ≤ MAX_REVISIONS) }
    {
        if !self.can_land(revision) {
            return None;
        }
        Some(last(&self.entries, self.revision - revision))
    }

    /// Whether a span at this revision can be carried to the present.
    fn can_land(&self, revision: u64) -> bool
        ensures { result ≡ can_land self.now revision }
    {
        revision == self.revision || is_locked(&self.locks, revision)
    }

    /// Returns the number of the kept entries.
    fn kept_len(&self) -> u64
        ensures { result ≡ length self.now.kept }
    {
        match oldest(&self.locks) {
            Some(oldest) => self.revision - oldest,
            None => 0,
        }
    }

    /// Drops the entries that are not kept, if they are more than the kept ones, so that each entry
    /// is moved once at most on average.
    fn forget(&mut self)
        ensures same { self.new ≡ record self.old { reserved = self.new.reserved } }
        ensures reserved { self.old.reserved ≤ self.new.reserved }
    {
        let kept = self.kept_len() as usize;
        let gone = self.entries.len() - kept;
        if gone > kept {
            self.entries.drain(..gone);
        }
    }
}
