ghost use Rattle.std.specs.Prelude.{◌≡◌, ℕ, ◌+◌, ◌<◌, ◌^◌, [], ◌∷◌, length, drop, None};
ghost use Rattle.kte_turn.specs.Rule.{serving};
ghost use Rattle.kte_turn.specs.Known.{events_of};
ghost use Rattle.kte_turn.specs.Sums.{times};
ghost use Rattle.kte_turn.specs.declared.view.Stage.TheVariants.{Idle};

use crate::storied::Storied;
use crate::view::View;
use atomic_table::Seat;

/// The right to enter a turn, again and again. It may go to another thread, if the value may.
///
/// A pass may be dropped. The turn can then no longer be closed, since no other pass has its share.
#[derive(Drop)]
pub struct Pass<V: Storied> {
    pub(crate) token: Seat<Option<V>, View<V::Event, V::Origin>>,
    pub(crate) number: u32,
    // the number of the next pass that is split off
    pub(crate) next: u32,
    ghost rests: { (token.me.1 ≡ []) × (token.me.0.stage ≡ Idle) × (token.me.0.told ≡ []) },
    ghost alive: { (0 < token.me.0.share) × (token.me.0.seats < 2 ^ 32) },
    ghost numbered: { token.me.0.numbers ≡ number ∷ drop 1 token.me.0.numbers },
    ghost goes_on: { token.me.0.numbers ≡ 0 ∷ []
        → (0 < next) × (next + token.me.0.share ≡ token.me.0.seats + 1) },
    ghost no_others: { (k : ℕ) → times k token.me.0.numbers ≡ 0
        → length (events_of V.seat_of k token.me.0.own) ≡ 0 },
}

/// A turn that a pass is in: its holder has the value, and gives it back by [`Turn::leave`] or
/// [`Turn::leave_unchanged`]. A stay that is lost lets nobody else enter.
///
/// [`Turn::leave`]: crate::Turn::leave
/// [`Turn::leave_unchanged`]: crate::Turn::leave_unchanged
pub struct Stay<V: Storied> {
    pub(crate) token: Seat<Option<V>, View<V::Event, V::Origin>>,
    pub(crate) number: u32,
    pub(crate) next: u32,
    // it alone holds the slot, from which the value was taken
    ghost serves: { (token.me.1 ≡ (0, None) ∷ []) × (serving token.me.0.stage ≡ 1)
        × (token.me.0.told ≡ []) },
    ghost alive: { (0 < token.me.0.share) × (token.me.0.seats < 2 ^ 32) },
    ghost numbered: { token.me.0.numbers ≡ number ∷ drop 1 token.me.0.numbers },
    ghost goes_on: { token.me.0.numbers ≡ 0 ∷ []
        → (0 < next) × (next + token.me.0.share ≡ token.me.0.seats + 1) },
    ghost no_others: { (k : ℕ) → times k token.me.0.numbers ≡ 0
        → length (events_of V.seat_of k token.me.0.own) ≡ 0 },
}

impl<V: Storied> Pass<V> {
    ghost use Rattle.kte_turn.specs.Passes.{pass_known};

    /// Returns the number of the pass's own seat, counted from 0.
    pub fn seat(&self) -> u32
        ensures { result ≡ (pass_known self.now).seat }
    {
        self.number
    }
}
