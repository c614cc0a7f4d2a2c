ghost use Rattle.std.specs.Prelude.{◌≡◌, ℕ, ◌+◌, ◌^◌, ◌<◌, ◌≤◌, [], ◌∷◌, ◌++◌, false, length, All, IsTrue, IsFalse, None, Some, Ok, Err, nat_le, if◌then◌else◌, IfSome, IfOk, IsOk, OnOk, OnErr, IsErrOf};
ghost use Rattle.std.specs.Option.{ok_or, option_map};
ghost use Rattle.std.specs.List.Sorted.{IsStrictlyIncreasing};
ghost use Rattle.std.specs.FinMap as map;
ghost use Rattle.kte_text.specs.Primitives.{HasEnd, is_empty, misfit, after};
ghost use Rattle.kte_place.specs.Span.{made};
ghost use Rattle.kte_buffer.specs.Entries.{entry};
ghost use Rattle.kte_history.specs.Locks.{oldest, has_lock, unlocked};
ghost use Rattle.kte_history.specs.Revisions.{kept_since, can_land, landed};
ghost use Rattle.kte_ranges.specs.Table.{NumbersBelow};

use crate::batch::{Batch, land, make_all};
use crate::cursors::{hang, unhang};
use crate::fault::{DocFault, MakeFault, SetFault};
use kte_buffer::Buffer;
use kte_history::{History, NotLocked, NotOwned, Owner, RevisionsFull};
use kte_place::{Cursors, Empty, Entry, Expand, Place, Span, Spanned, Spans};
use kte_ranges::{NoRange, Origin, RangeInfo, RangeKind, RangeTable};
use kte_text::{Lines, Primitive, Text};
use std::alloc::{AllocError, Global};
use std::marker::Model;

/// A document: a text that primitives change, and the ranges that move with it.
///
/// Contracts see it as its text, its revision, which is the number of primitives made since
/// loading, the greatest revision, its ranges by number, the number that the next range gets, the
/// locks on revisions, and the entries since the oldest locked one. `CameBy` says that it came from
/// a loaded text by a list of primitives, the trail: then each range is where they put it. Every
/// call keeps that.
#[derive(Drop)]
pub struct Doc {
    buffer: Buffer,
    ranges: RangeTable,
    history: History,
}

impl Model for Doc {
    ghost use Rattle.kte_doc.specs.Documents.{Document, document_code};

    ghost Value = { Document };

    ghost coded = { document_code };

    ghost use Rattle.kte_doc.specs.Inside.{document_of, IsSound};

    ghost view = { document_of };

    ghost invariant = { IsSound };
}

impl Doc {
    ghost use Rattle.kte_doc.specs.Documents.{CameBy, KeepsTrail, ExtendsTrail, history_of, kept_further, made_of};
    ghost use Rattle.kte_doc.specs.Trail.{in_text, stand};
    ghost use Rattle.kte_place.specs.Ends.{SpanIsInReach};
    ghost use Rattle.kte_doc.specs.Standings.{Tells, new_range, reset_to, moved_over};

    /// Returns the document of a loaded text, at revision 0 and without ranges, whose revision can
    /// rise to `limit`. Fails if out of memory.
    pub fn new(alloc: Global, text: Text, limit: u64) -> Result<Doc, AllocError>
        requires { limit ≤ 2 ^ 31 }
        ensures ok { IfOk result (λ doc. doc ≡ record {
          text = text;
          revision = 0;
          limit = limit;
          ranges = map.empty;
          next = 1;
          locks = [];
          kept = [];
        }) }
        ensures came { IfOk result (CameBy text []) }
    {
        Ok(Doc {
            buffer: Buffer::new(alloc, text)?,
            ranges: RangeTable::new(alloc),
            history: History::new(alloc, limit),
        })
    }

    /// Makes a primitive, as KTextEditor's Document does, and returns its entry. The revision rises
    /// by one, and every range is carried over the entry and settled.
    ///
    /// Fails if the primitive does not fit the text, if the revision is the greatest, or if out of
    /// memory, with the first of these causes. After an error nothing has changed.
    pub fn primitive(&mut self, primitive: &Primitive) -> Result<Entry, DocFault>
        requires end { HasEnd primitive.now }
        requires some { is_empty primitive.now ≡ false }
        ensures entry { IfOk result (λ made. made ≡ entry primitive.now self.old.text) }
        ensures ok { OnOk result (self.new ≡ record self.old {
          text = after primitive.now self.old.text;
          revision = self.old.revision + 1;
          ranges = self.new.ranges;
          kept = kept_further self.old (entry primitive.now self.old.text);
        }) }
        ensures ranges { OnOk result ((id : ℕ) → map.get self.new.ranges id
            ≡ option_map (moved_over (entry primitive.now self.old.text))
            (map.get self.old.ranges id)) }
        ensures trail { OnOk result (ExtendsTrail primitive.now self.old self.new) }

        // Each cause brings its error, whether there is memory or not, and only its error.
        ensures fits { OnOk result (misfit primitive.now self.old.text ≡ None) }
        ensures room { OnOk result (self.old.revision < self.old.limit) }
        ensures misfit { (m : _) → IsErrOf result (DocFault.Misfit m)
            → misfit primitive.now self.old.text ≡ Some m }
        ensures full { (r : _) → IsErrOf result (DocFault.RevisionsFull r)
            → (misfit primitive.now self.old.text ≡ None)
            × (r ≡ self.old.revision) × (self.old.limit ≤ self.old.revision) }
        ensures misfits { (m : _) → misfit primitive.now self.old.text ≡ Some m
            → result ≡ Err (DocFault.Misfit m) }
        ensures fills { misfit primitive.now self.old.text ≡ None
            → self.old.limit ≤ self.old.revision
            → result ≡ Err (DocFault.RevisionsFull self.old.revision) }
        ensures err { OnErr result (self.new ≡ self.old) }
    {
        if let Err(misfit) = self.buffer.fits(primitive) {
            return Err(DocFault::Misfit(misfit));
        }
        if let Err(RevisionsFull { revision }) = self.history.room(1) {
            return Err(DocFault::RevisionsFull { revision });
        }
        // A text has at most the greatest size, which bounds the lengths of the entry.
        let _lines = self.buffer.lines();
        if self.history.reserve().is_err() {
            return Err(DocFault::NoMemory);
        }
        if self.buffer.reserve(primitive).is_err() {
            return Err(DocFault::NoMemory);
        }
        let entry = self.buffer.apply(primitive);
        self.ranges.settle_near(&mut self.buffer);
        self.history.add(entry);
        Ok(entry)
    }

    /// Makes a range at a span of the present text, and returns its number. It is invalid at once
    /// if a line of the span is not in the text, or if the span is empty and the range may not be.
    /// Fails if out of memory; then nothing has changed, the next number included.
    pub fn make_range(
        &mut self,
        span: Span,
        expand: Expand,
        empty: Empty,
        kind: RangeKind,
    ) -> Result<u64, AllocError>
        requires span { SpanIsInReach span }
        requires number { self.old.next < 2 ^ 63 }
        ensures id { IfOk result (λ id. id ≡ self.old.next) }
        ensures ok { OnOk result (self.new ≡ record self.old {
          ranges = map.insert self.old.ranges self.old.next
              (new_range self.old.text self.old.revision span expand empty kind);
          next = self.old.next + 1;
        }) }
        ensures trail { KeepsTrail self.old self.new }
        ensures err { OnErr result (self.new ≡ self.old) }
    {
        self.ranges.reserve(1)?;
        let cursors = hang(&mut self.buffer, span, expand, empty)?;
        let origin = Origin {
            revision: self.history.revision(),
            span,
        };
        let info = RangeInfo {
            expand,
            empty,
            kind,
            origin,
            cursors,
        };
        Ok(self.ranges.make(info))
    }

    /// Makes a range of each of these spans of the text at a revision, in their order, and returns
    /// the number of the first, or the number that the next range gets if there is no span. Each
    /// range is where its span lands ([`Doc::land`]): where a range made at that revision would be
    /// now, or invalid if that one would be.
    ///
    /// Fails if the revision is neither locked nor the present one, or if out of memory, with the
    /// first of these causes. After an error nothing has changed, the next number included.
    pub fn make_at(
        &mut self,
        alloc: Global,
        revision: u64,
        spans: &Spans,
        expand: Expand,
        empty: Empty,
        kind: RangeKind,
    ) -> Result<u64, MakeFault>
        requires spans { All SpanIsInReach spans.now }
        requires number { self.old.next + length spans.now ≤ 2 ^ 63 }
        ensures first { IfOk result (λ id. id ≡ self.old.next) }
        ensures ok { OnOk result (self.new ≡ record self.old {
          ranges = self.new.ranges;
          next = self.old.next + length spans.now;
        }) }
        ensures ranges { OnOk result ((id : ℕ) → map.get self.new.ranges id
            ≡ made_of self.old revision expand empty kind spans.now id) }
        ensures trail { KeepsTrail self.old self.new }

        // The refusal comes whether there is memory or not, and only if it must.
        ensures lands { OnOk result (IsTrue (can_land (history_of self.old) revision)) }
        ensures not_locked { (r : _) (o : _) → IsErrOf result (MakeFault.NotLocked r o)
            → IsFalse (can_land (history_of self.old) revision)
            × (r ≡ revision) × (o ≡ oldest self.old.locks) }
        ensures locked { IsFalse (can_land (history_of self.old) revision)
            → result ≡ Err (MakeFault.NotLocked revision (oldest self.old.locks)) }
        ensures err { OnErr result (self.new ≡ self.old) }
    {
        self.check_lands(revision)?;
        self.ranges.reserve(spans.len())?;
        let batch = Batch {
            revision,
            expand,
            empty,
            kind,
        };
        let infos = batch.hang(alloc, &mut self.buffer, &self.history, spans)?;
        let first = self.ranges.next_id();
        make_all(&mut self.ranges, infos.as_slice());
        Ok(first)
    }

    /// Sets a range to a span of the present text, as if it were made there now. Whether it expands
    /// and may be empty, and its kind, are unchanged. Fails if there is no such range, or if out of
    /// memory, which no range that becomes invalid needs. After an error nothing has changed.
    pub fn set_range(&mut self, id: u64, span: Span) -> Result<(), SetFault>
        requires { SpanIsInReach span }
        ensures ok { OnOk result ((range : _) → map.get self.old.ranges id ≡ Some range
            → self.new ≡ record self.old {
              ranges = map.insert self.old.ranges id
                  (reset_to self.old.text self.old.revision span range);
            }) }
        ensures trail { KeepsTrail self.old self.new }
        ensures invalid { (range : _) → map.get self.old.ranges id ≡ Some range
            → made (length self.old.text) span range.empty ≡ None → IsOk result }

        ensures none { map.get self.old.ranges id ≡ None → result ≡ Err (SetFault.NoRange id) }
        ensures no_range { (n : _) → IsErrOf result (SetFault.NoRange n)
            → (n ≡ id) × (map.get self.old.ranges id ≡ None) }
        ensures err { OnErr result (self.new ≡ self.old) }
    {
        let Some(info) = self.ranges.get(id) else {
            return Err(SetFault::NoRange { id });
        };
        let Ok(cursors) = hang(&mut self.buffer, span, info.expand, info.empty) else {
            return Err(SetFault::NoMemory);
        };
        let origin = Origin {
            revision: self.history.revision(),
            span,
        };
        let _ = self.ranges.set(id, origin, cursors);
        unhang(&mut self.buffer, info.cursors);
        Ok(())
    }

    /// Returns where a range is; `None` is an invalid range. Its lines are in the text, its columns
    /// may be beyond the ends of their lines. Fails if there is no such range.
    pub fn range(&self, id: u64) -> Result<Option<Span>, NoRange>
        ensures span { result
            ≡ ok_or (option_map (λ range. range.span) (map.get self.now.ranges id))
            (record { id = id }) }
        ensures lines { IfOk result (λ span. IfSome span
            (λ s. (s.start.line < length self.now.text) × (s.end.line < length self.now.text))) }
    {
        let Some(info) = self.ranges.get(id) else {
            return Err(NoRange { id });
        };
        let Some((start, end)) = info.cursors else {
            return Ok(None);
        };
        let (start, end) = (self.buffer.place(start), self.buffer.place(end));
        Ok(Some(Span { start, end }))
    }

    /// Removes a range. Its number is not reused. Fails if there is no such range.
    pub fn drop_range(&mut self, id: u64) -> Result<(), NoRange>
        ensures found { result ≡ ok_or (option_map (λ range. tt) (map.get self.old.ranges id))
            (record { id = id }) }
        ensures ok { OnOk result
            (self.new ≡ record self.old { ranges = map.remove self.old.ranges id }) }
        ensures trail { KeepsTrail self.old self.new }
        ensures err { OnErr result (self.new ≡ self.old) }
    {
        let cursors = self.ranges.drop_range(id)?;
        unhang(&mut self.buffer, cursors);
        Ok(())
    }

    /// Returns the range of this number, if there is one. It has cursors exactly if it is not
    /// invalid; their numbers have no meaning to the caller.
    pub fn info(&self, id: u64) -> Option<RangeInfo>
        ensures { Tells (map.get self.now.ranges id) result }
    {
        self.ranges.get(id)
    }

    /// Returns the numbers of the ranges, rising. Fails if out of memory.
    pub fn range_ids(&self, alloc: Global) -> Result<Vec<u64>, AllocError>
        ensures ids { IfOk result (λ ids. ids.items ≡ map.keys self.now.ranges) }
        ensures rising { IfOk result (λ ids. IsStrictlyIncreasing ids.items) }
    {
        self.ranges.ids(alloc)
    }

    /// Returns the number that the next range gets, which is above every number in use.
    pub fn next_id(&self) -> u64
        ensures next { result ≡ self.now.next }
        ensures first { 1 ≤ self.now.next }
        ensures bound { self.now.next ≤ 2 ^ 63 }
        ensures numbers { NumbersBelow self.now.next self.now.ranges }
    {
        self.ranges.next_id()
    }

    /// Returns the revision: the number of primitives made since loading.
    pub fn revision(&self) -> u64
        ensures revision { result ≡ self.now.revision }
        ensures within { self.now.revision ≤ self.now.limit }
        ensures small { self.now.limit ≤ 2 ^ 31 }
    {
        self.history.revision()
    }

    /// Fails if the revision cannot rise by `n`.
    pub fn room(&self, n: u64) -> Result<(), RevisionsFull>
        ensures { result ≡ (if nat_le (self.now.revision + n) self.now.limit
            then Ok tt else Err (record { revision = self.now.revision })) }
    {
        self.history.room(n)
    }

    /// Returns the entries that are kept: those since the oldest locked revision, and none if
    /// nothing is locked.
    pub fn stored(&self) -> &[Entry]
        ensures { result.now ≡ self.now.kept }
    {
        self.history.stored()
    }

    /// Locks the present revision for its owner, and returns it: until it is unlocked, spans of the
    /// text at this revision can be landed. It may be locked more than once, as by KTextEditor's
    /// `lockRevision`. Fails if out of memory; then nothing has changed.
    pub fn lock(&mut self, owner: Owner) -> Result<u64, AllocError>
        ensures revision { IfOk result (λ revision. revision ≡ self.old.revision) }
        ensures ok { OnOk result (self.new ≡ record self.old {
          locks = self.old.locks ++ record { owner = owner; revision = self.old.revision } ∷ [];
        }) }
        ensures trail { KeepsTrail self.old self.new }
        ensures err { OnErr result (self.new ≡ self.old) }
    {
        let revision = self.history.lock(owner)?;
        Ok(revision)
    }

    /// Removes one lock of the owner on a revision. Fails if there is none.
    pub fn unlock(&mut self, owner: Owner, revision: u64) -> Result<(), NotOwned>
        ensures owned { result ≡ (if has_lock self.old.locks owner revision
            then Ok tt else Err (record { revision = revision })) }
        ensures ok { OnOk result (self.new ≡ record self.old {
          locks = unlocked self.old.locks owner revision;
          kept = kept_since self.old.revision
              (oldest (unlocked self.old.locks owner revision)) self.old.kept;
        }) }
        ensures trail { KeepsTrail self.old self.new }
        ensures err { OnErr result (self.new ≡ self.old) }
    {
        self.history.unlock(owner, revision)?;
        Ok(())
    }

    /// Returns where a span of the text at a revision is in the present text, or `None` if a range
    /// that was made there would be invalid now. This does not allocate. Fails if the revision is
    /// neither locked nor the present one.
    pub fn land(
        &self,
        revision: u64,
        span: Span,
        expand: Expand,
        empty: Empty,
    ) -> Result<Option<Span>, NotLocked>
        requires { SpanIsInReach span }
        ensures stands { (loaded trail : _) → CameBy loaded trail self.now
            → IfOk result (λ landed. landed ≡ stand loaded trail expand empty
            (record { revision = revision; span = span })) }
        ensures landed { result ≡ (if can_land (history_of self.now) revision
            then Ok (in_text (length self.now.text)
            (landed (history_of self.now) revision span expand empty))
            else Err (record { revision = revision; oldest = oldest self.now.locks })) }
    {
        land(&self.buffer, &self.history, revision, span, expand, empty)
    }

    /// Fails if spans of the text at a revision cannot be landed: if the revision is neither locked
    /// nor the present one. This does not allocate.
    fn check_lands(&self, revision: u64) -> Result<(), NotLocked>
        ensures { result ≡ (if can_land (history_of self.now) revision then Ok tt
            else Err (record { revision = revision; oldest = oldest self.now.locks })) }
    {
        let start = Place { line: 0, column: 0 };
        let nowhere = Span { start, end: start };
        let expand = Expand {
            left: false,
            right: false,
        };
        // A range that is void at once is carried over no entry.
        self.history
            .carry_span(revision, nowhere, expand, Empty::Void)?;
        Ok(())
    }

    /// Returns a copy of the present text. Fails if out of memory.
    pub fn copy_text(&self, alloc: Global) -> Result<Text, AllocError>
        ensures { IfOk result (λ text. text ≡ self.now.text) }
    {
        self.buffer.copy_text(alloc)
    }
}

impl Lines for Doc {
    ghost use Rattle.std.specs.Prelude.{ℕ};

    ghost text = { λ doc. doc.text };

    fn lines(&self) -> u32 {
        self.buffer.lines()
    }

    fn line(&self, n: u32) -> &[u16] {
        self.buffer.line(n)
    }

    fn line_hinted(&self, n: u32, hint: &mut u64) -> &[u16] {
        self.buffer.line_hinted(n, hint)
    }

    fn size(&self) -> u64 {
        self.buffer.size()
    }
}

impl Spanned for Doc {
    ghost use Rattle.kte_doc.specs.Standings.{spans_of};

    ghost spans = { λ doc. spans_of doc.ranges };

    fn span(&self, id: u64) -> Option<Span> {
        self.range(id).unwrap_or(None)
    }
}
