ghost use Rattle.std.specs.Prelude.{◌^◌, ◌<◌, ◌≤◌, length};
ghost use Rattle.kte_text.specs.Texts.{IsText};
ghost use Rattle.kte_text.specs.Primitives.{FitInTurn};
ghost use Rattle.kte_core.specs.Editing.{text_of};
ghost use Rattle.kte_core.specs.Replay.{Legal, beginning, present};
ghost use Rattle.kte_turn.specs.Known.{events_of};
ghost use Rattle.kte_core.proofs.PropLemmas.{Legal-prop};

use crate::beginning::Beginning;
use kte_core::{Core, Event};
use kte_text::Lines;
use kte_turn::Storied;

/// A core whose journal is its story. The journal is legal, findings included, and the editor has
/// made so few of its events that there are always numbers for the next request.
#[derive(Drop)]
pub struct Recorded {
    pub(crate) core: Core,
    pub ghost short: { length core.events < 2 ^ 63 },
    pub ghost legal: { Legal (beginning core.loaded core.limit) core.events } by { Legal-prop (beginning core.loaded core.limit) core.events },
    pub ghost few: { length (events_of (λ event. event.seat) 0 core.events) ≤ 2 ^ 31 },
}

impl Storied for Recorded {
    type Event = Event;

    type Origin = Beginning;

    ghost seat_of = { λ event. event.seat };

    ghost origin = { λ recorded. record {
      loaded = recorded.core.loaded;
      limit = recorded.core.limit;
    } };

    ghost story = { λ recorded. recorded.core.events };

    ghost short = { λ recorded. recorded.short };
}

/// Called for its contract alone: the primitives so far fit the loaded text, one after another, and
/// lead to a text.
pub fn made_fits(core: &Core)
    ensures turn { FitInTurn (present core.now).editing.trail
        (present core.now).editing.loaded.text }
    ensures text { IsText (text_of (present core.now).editing) }
{
    let _lines = core.doc().lines();
}
