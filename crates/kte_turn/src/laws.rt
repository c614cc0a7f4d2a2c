//! What always holds of a turn. Each function does nothing: its contract is the law.
ghost use Rattle.std.specs.Prelude.{ℕ};
ghost use Rattle.kte_turn.specs.Rule.{Ruled};
ghost use Rattle.kte_turn.specs.Laws.{InOrder, TurnState};
ghost use Rattle.kte_turn.specs.StepLaws.{DrawKeeps, LookKeeps, CountKeeps, ServeKeeps, SplitKeeps, JoinKeeps, SettleKeeps};

use crate::storied::Storied;

/// What the table of a turn keeps between any two steps is what the seven sentences of `InOrder`
/// say of tickets, seats, slot, count, origin, what was seen, and shares.
pub fn in_order<V: Storied>()
    ensures { (seats : ℕ) (o : V.Origin) (s : TurnState V V.Event V.Origin)
        → Ruled V.seat_of V.origin V.story seats o s
        → InOrder V.seat_of V.origin V.story seats o s }
{}

/// Each kind of step on the words keeps the rule, whatever the other threads do in between. A count
/// adds its event at the end of the story, and no other step changes the story.
pub fn steps<V: Storied>()
    ensures draw { DrawKeeps V.seat_of V.origin V.story }
    ensures look { LookKeeps V.seat_of V.origin V.story }
    ensures count { CountKeeps V.seat_of V.origin V.story }
    ensures serve { ServeKeeps V.seat_of V.origin V.story }
    ensures split { SplitKeeps V.seat_of V.origin V.story }
    ensures join { JoinKeeps V.seat_of V.origin V.story }
    ensures settle { SettleKeeps V.seat_of V.origin V.story }
{}
