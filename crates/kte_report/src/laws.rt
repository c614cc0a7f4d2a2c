//! Laws of journals. Each function does nothing: its contract is the law.
ghost use Rattle.std.specs.Prelude.{◌≡◌, ℕ, ◌+◌, List};
ghost use Rattle.kte_core.specs.declared.event.Event.{Event};
ghost use Rattle.kte_report.specs.Lines.{ends_in};
ghost use Rattle.kte_report.specs.Faults.{IsBeforeFault};
ghost use Rattle.kte_report.specs.Events.{event_text, IsHeld};
ghost use Rattle.kte_report.specs.Journal.{journal_text, AreHeld, BeginsJournal, IsBadJournal};

/// A text is that of one journal at most, and a line that of one event at most: two lists of events
/// with the same text are equal, and so are two events.
pub fn texts_are_of_one_journal()
    ensures journal { (a b : List Event) → AreHeld a → AreHeld b
        → journal_text a ≡ journal_text b → a ≡ b }
    ensures event { (a b : Event) → IsHeld a → IsHeld b → event_text a ≡ event_text b → a ≡ b }
{}

/// The line at fault is that of the first fault: of the first byte that no journal's text has after
/// the bytes before it, or of the end, if there is no such byte. There is always one of the two,
/// and no text has two lines at fault.
pub fn bad_lines_have_the_first_fault()
    ensures first { (bytes before : List ℕ) (line : ℕ) → IsBadJournal bytes line
        → IsBeforeFault BeginsJournal bytes before → line ≡ ends_in before + 1 }
    ensures some { (bytes : List ℕ)
        → ¬ ((before : List ℕ) → ¬ (IsBeforeFault BeginsJournal bytes before)) }
    ensures one { (bytes : List ℕ) (line other : ℕ) → IsBadJournal bytes line
        → IsBadJournal bytes other → line ≡ other }
{}
