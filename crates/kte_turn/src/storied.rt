/// A value that keeps its own story.
pub trait Storied {
    ghost use Rattle.std.specs.Prelude.{ℕ, List, length, ◌<◌, ◌^◌};

    /// What happens to the value.
    type Event;

    /// What the value started from.
    type Origin;

    // the number of the seat that made the event
    ghost seat_of: { Self.Event → ℕ };

    ghost origin: { Self → Self.Origin };

    // all events so far, the first one first
    ghost story: { Self → List Self.Event };

    // the number of events always fits a word
    ghost short: { (value : Self) → length (story value) < 2 ^ 63 };
}
