ghost use Rattle.std.specs.Prelude.{◌≡◌, ◌-◌, ◌≤◌, All, length, drop, Some, IfSome};
ghost use Rattle.kte_place.specs.Entry.{EntryFits};
ghost use Rattle.kte_place.specs.Place.{IsInReach};
ghost use Rattle.kte_place.specs.Span.{settle};
ghost use Rattle.kte_history.specs.Landing.{carry_all, is_clear_of, HasLanded};
ghost use Rattle.kte_history.specs.declared.history.TheConstants.{MAX_REVISIONS};

use kte_place::{Empty, Entry, EntryKind, Expand, Span};

/// Returns a settled span after these entries, carried over one after another and settled after
/// each, or `None` if it became invalid at one of them.
pub(crate) fn carry_all(entries: &[Entry], span: Span, expand: Expand, empty: Empty) -> Option<Span>
    requires entries { All EntryFits entries.now }
    requires count { length entries.now ≤ MAX_REVISIONS }
    requires start { IsInReach span.start }
    requires end { IsInReach span.end }
    requires settled { settle span.start span.end empty ≡ Some span }
    ensures carried { result ≡ carry_all entries.now (Some span) expand empty }
    ensures landed { IfSome result (HasLanded (length entries.now) empty) }
{
    let mut carried = span;
    for entry in entries {
        if !is_clear_of(entry, carried) {
            carried = entry.carry_span(carried, expand, empty)?;
        }
    }
    Some(carried)
}

/// Whether the entry leaves a settled span as it is because it happens on later lines, or within a
/// line on which the span neither starts nor ends.
fn is_clear_of(entry: &Entry, span: Span) -> bool
    ensures { result ≡ is_clear_of entry.now span }
{
    match entry.kind {
        EntryKind::Wrap | EntryKind::Unwrap => entry.line > span.end.line,
        EntryKind::Insert | EntryKind::Remove => {
            entry.line != span.start.line && entry.line != span.end.line
        }
    }
}

/// Returns the last `count` entries.
pub(crate) fn last(entries: &[Entry], count: u64) -> &[Entry]
    requires { count ≤ length entries.now }
    ensures { result.now ≡ drop (length entries.now - count) entries.now }
{
    &entries[entries.len() - count as usize..]
}
