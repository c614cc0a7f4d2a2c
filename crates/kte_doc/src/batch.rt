//! Ranges that are made together, of spans of the text at one revision.
ghost use Rattle.std.specs.Prelude.{◌≡◌, ◌+◌, ◌≤◌, ◌^◌, IfOk, IfSome, OnErr, IsTrue, All, length, map as map_list, Some, Ok, Err, if◌then◌else◌};
ghost use Rattle.kte_place.specs.declared.place.TheConstants.{MAX_COLUMN};
ghost use Rattle.kte_place.specs.Ends.{SpanIsInReach};
ghost use Rattle.kte_history.specs.Locks.{oldest};
ghost use Rattle.kte_history.specs.Revisions.{can_land, landed};
ghost use Rattle.kte_doc.specs.Within.{farthest_at, IsSettledWithin};
ghost use Rattle.kte_doc.specs.Trail.{in_text};
ghost use Rattle.kte_doc.specs.Batches.{range_of, landed_info, standing_by, Comes, ComeInTurn, HaveCome, with_ranges};

use crate::cursors::{hang_at, unhang};
use kte_buffer::Buffer;
use kte_history::{History, NotLocked};
use kte_place::{Empty, Expand, Span, Spans};
use kte_ranges::{Origin, RangeInfo, RangeKind, RangeTable};
use kte_text::Lines;
use std::alloc::{AllocError, Global};

/// What the ranges of a batch have in common.
#[derive(Clone, Copy)]
pub(crate) struct Batch {
    /// The revision of the text that their spans are of.
    pub(crate) revision: u64,
    pub(crate) expand: Expand,
    pub(crate) empty: Empty,
    pub(crate) kind: RangeKind,
}

impl Batch {
    /// Hangs the cursors of a range of each span, where the span lands, and returns the ranges in
    /// the order of the spans. Fails if out of memory; the cursors are then unchanged.
    pub(crate) fn hang(
        &self,
        alloc: Global,
        buffer: &mut Buffer,
        history: &History,
        spans: &Spans,
    ) -> Result<Vec<RangeInfo>, AllocError>
        requires near { farthest_at history.now.revision ≤ MAX_COLUMN }
        requires lands { IsTrue (can_land history.now self.now.revision) }
        requires spans { All SpanIsInReach spans.now }
        ensures cursors { IfOk result (λ infos. ComeInTurn (length buffer.old.text)
            (farthest_at history.now.revision) (landed_info history.now (length buffer.old.text))
            infos.items buffer.old.hung buffer.new.hung) }
        ensures ranges { IfOk result (λ infos.
            map_list (standing_by history.now (length buffer.old.text)) infos.items
            ≡ map_list (range_of history.now (length buffer.old.text) self.now) spans.now) }
        ensures text { buffer.new.text ≡ buffer.old.text }
        ensures err { OnErr result (buffer.new.hung ≡ buffer.old.hung) }
    {
        let mut infos = Vec::with_capacity(alloc, spans.len() as usize)?;
        for n in 0..spans.len() {
            match self.hang_one(buffer, history, *spans.get(n)) {
                Ok(info) => infos.push_reserved(info),
                Err(error) => {
                    unhang_all(buffer, &mut infos);
                    return Err(error);
                }
            }
        }
        Ok(infos)
    }

    /// Hangs the cursors of a range of a span, where the span lands, and returns the range. Fails
    /// if out of memory; the cursors are then unchanged.
    fn hang_one(
        &self,
        buffer: &mut Buffer,
        history: &History,
        span: Span,
    ) -> Result<RangeInfo, AllocError>
        requires near { farthest_at history.now.revision ≤ MAX_COLUMN }
        requires lands { IsTrue (can_land history.now self.now.revision) }
        requires span { SpanIsInReach span }
        ensures cursors { IfOk result (λ info. Comes (length buffer.old.text)
            (farthest_at history.now.revision) (landed_info history.now (length buffer.old.text))
            info buffer.old.hung buffer.new.hung) }
        ensures range { IfOk result (λ info. standing_by history.now (length buffer.old.text) info
            ≡ range_of history.now (length buffer.old.text) self.now span) }
        ensures text { buffer.new.text ≡ buffer.old.text }
        ensures err { OnErr result (buffer.new.hung ≡ buffer.old.hung) }
    {
        let landed = land(
            buffer,
            history,
            self.revision,
            span,
            self.expand,
            self.empty,
        );
        let Ok(landed) = landed else { unreachable!() };
        let cursors = hang_at(buffer, landed, self.expand)?;
        Ok(RangeInfo {
            expand: self.expand,
            empty: self.empty,
            kind: self.kind,
            origin: Origin {
                revision: self.revision,
                span,
            },
            cursors,
        })
    }
}

/// Returns where a span of the text at a revision is in the present text: it is carried over the
/// entries since then, and `None` if it became invalid or a line of it is not in the present text.
/// Fails if the revision is neither locked nor the present one. This does not allocate.
pub(crate) fn land(
    buffer: &Buffer,
    history: &History,
    revision: u64,
    span: Span,
    expand: Expand,
    empty: Empty,
) -> Result<Option<Span>, NotLocked>
    requires { SpanIsInReach span }
    ensures landed { result ≡ (if can_land history.now revision
        then Ok (in_text (length buffer.now.text)
        (landed history.now revision span expand empty))
        else Err (record { revision = revision; oldest = oldest history.now.locks })) }
    ensures within { IfOk result (λ span. IfSome span
        (IsSettledWithin (length buffer.now.text) (farthest_at history.now.revision) empty)) }
{
    let lines = buffer.lines();
    match history.carry_span(revision, span, expand, empty)? {
        Some(span) if span.start.line < lines && span.end.line < lines => Ok(Some(span)),
        _ => Ok(None),
    }
}

/// Takes out the cursors of these ranges, which were hung last, in the opposite order.
fn unhang_all(buffer: &mut Buffer, infos: &mut Vec<RangeInfo>)
    requires { HaveCome infos.old.items buffer.old.hung }
    ensures hung { (lines farthest : _) (to : _) (before : _)
        → ComeInTurn lines farthest to infos.old.items before buffer.old.hung
        → buffer.new.hung ≡ before }
    ensures text { buffer.new.text ≡ buffer.old.text }
{
    while let Some(info) = infos.pop() {
        unhang(buffer, info.cursors);
    }
}

/// Adds ranges to a table that has room for them, at rising numbers. This does not allocate.
pub(crate) fn make_all(ranges: &mut RangeTable, infos: &[RangeInfo])
    requires room { length infos.now ≤ ranges.old.room }
    requires number { ranges.old.next + length infos.now ≤ 2 ^ 63 }
    ensures ranges { ranges.new.ranges ≡ with_ranges ranges.old.ranges ranges.old.next infos.now }
    ensures next { ranges.new.next ≡ ranges.old.next + length infos.now }
{
    for info in infos {
        ranges.make(*info);
    }
}
