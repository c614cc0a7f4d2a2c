use crate::storied::Storied;
use crate::view::View;
use atomic_table::TableRule;
use std::marker::PhantomData;
use std::snapshot::Snapshot;

/// What the table is told when it is made.
pub struct Opening<V> {
    pub seats: u32,
    pub value: Snapshot<V>,
}

impl<V> Drop for Opening<V> {
    fn drop(self) {
        let Self { seats: _, value: _ } = self;
    }
}

/// What the table of a turn keeps true.
pub struct TurnRule<V> {
    value: PhantomData<V>,
}

impl<V: Storied> TableRule<Option<V>, View<V::Event, V::Origin>, Opening<V>> for TurnRule<V> {
    ghost use Rattle.kte_turn.specs.Rule.{Ruled, first_view};

    ghost holds = { λ about.
        Ruled V.seat_of V.origin V.story about.seats (V.origin about.value.value) };

    ghost first = { λ about. first_view about.seats (V.origin about.value.value) };
}
