//! Worked examples of the definitions, proved by computation. Each function does nothing: its
//! contract is the examples.
ghost use Rattle.std.specs.Prelude.{◌≡◌, true, false, Some, None};
ghost use Rattle.kte_place.specs.declared.place.OnInsert.TheVariants.{Move};
ghost use Rattle.kte_place.specs.declared.span.Empty.TheVariants.{Allow, Void};
ghost use Rattle.kte_place.specs.Place.{at};
ghost use Rattle.kte_ranges.specs.Cursors.{holds_cursor, span_of};
ghost use Rattle.kte_ranges.specs.Settling.{settled, settled_span, settled_info, sent_to};
ghost use Rattle.kte_ranges.specs.Examples.{on_line, hanging, range, crossed};

/// Settling of ends that crossed, that met, that are in order, and of an invalid range.
pub fn settling()
    ensures crossed { settled Allow (Some (on_line 5 2)) ≡ Some (on_line 5 5) }
    ensures crossed_void { settled Void (Some (on_line 5 2)) ≡ None }
    ensures met { settled Allow (Some (on_line 5 5)) ≡ Some (on_line 5 5) }
    ensures met_void { settled Void (Some (on_line 5 5)) ≡ None }
    ensures in_order { settled Void (Some (on_line 2 5)) ≡ Some (on_line 2 5) }
    ensures invalid { settled Allow None ≡ None }
{}

/// The cursors of a range, and a cursor that is moved or taken out.
pub fn cursors()
    ensures held { holds_cursor (range Allow (Some (7, 8))) 8 ≡ true }
    ensures free { holds_cursor (range Allow (Some (7, 8))) 9 ≡ false }
    ensures invalid { holds_cursor (range Allow None) 7 ≡ false }
    ensures sent { sent_to (Some (at 0 5)) (Some (hanging 2 Move)) ≡ Some (hanging 5 Move) }
    ensures taken_out { sent_to None (Some (hanging 2 Move)) ≡ None }
{}

/// A range whose end is before its start.
pub fn standing()
    ensures span { span_of crossed (range Allow (Some (7, 8))) ≡ Some (on_line 5 2) }
    ensures lost { span_of crossed (range Allow (Some (7, 9))) ≡ None }
    ensures settles { settled_span crossed (range Allow (Some (7, 8))) ≡ Some (on_line 5 5) }
    ensures kept { settled_info crossed (range Allow (Some (7, 8))) ≡ range Allow (Some (7, 8)) }
    ensures void { settled_info crossed (range Void (Some (7, 8))) ≡ range Void None }
{}
