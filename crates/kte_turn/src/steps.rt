//! The kinds of steps. Each is one atomic step on a word; taking the value out of the slot and
//! putting it back are plain exchanges, by the one thread that is served.
ghost use Rattle.kte_turn.specs.Steps.{drew, looked, counted, gave_back, settled, cut, another_view, merged, spent};

use crate::storied::Storied;
use crate::view::View;
use atomic_table::{Join, Play, Split};
use std::marker::{Brand, PhantomData};

/// Takes the next ticket.
pub(crate) struct Draw;

impl<V: Storied> Play<Option<V>, View<V::Event, V::Origin>> for Draw {
    ghost then = { drew V.seat_of V.origin V.story };
}

/// Looks which ticket is served, and takes the slot if it is the pass's own.
pub(crate) struct Look;

impl<V: Storied> Play<Option<V>, View<V::Event, V::Origin>> for Look {
    ghost then = { looked V.seat_of V.origin V.story };
}

/// Names the event that a count adds. It exists in proofs alone.
pub(crate) trait Said<E> {
    ghost use Rattle.std.specs.Prelude.{Option};

    ghost event: { Option E };
}

impl<E> Said<E> for Brand {
    ghost use Rattle.std.specs.Prelude.{None};

    ghost event = { None };
}

/// Adds one event to the story.
pub(crate) struct Count<W> {
    said: PhantomData<W>,
}

impl<V: Storied, W: Said<V::Event>> Play<Option<V>, View<V::Event, V::Origin>> for Count<W> {
    ghost then = { counted V.seat_of V.origin V.story W.event };
}

/// Serves the next ticket, and gives the slot back.
pub(crate) struct Serve;

impl<V: Storied> Play<Option<V>, View<V::Event, V::Origin>> for Serve {
    ghost then = { gave_back V.seat_of V.origin V.story };
}

/// Splits a pass off.
pub(crate) struct Cut;

impl<E, O> Split<View<E, O>> for Cut {
    ghost left = { cut };

    ghost right = { another_view };
}

/// Takes another pass in. A join cannot tell anything, so a load comes after it.
pub(crate) struct Merge;

impl<E, O> Join<View<E, O>> for Merge {
    ghost both = { merged };

    ghost spent = { spent };
}

/// The second load of a join, which tells what holds of the two passes.
pub(crate) struct Settle;

impl<V: Storied> Play<Option<V>, View<V::Event, V::Origin>> for Settle {
    ghost then = { settled V.seat_of V.origin V.story };
}
