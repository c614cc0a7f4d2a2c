ghost use Rattle.std.specs.Prelude.{◌≡◌, ℕ, ◌+◌, ◌-◌, ◌<◌, ◌≤◌, [], ◌∷◌, ◌++◌, length, IfOk, IfErr, Some};
ghost use mathlib.Core.List.{IsPrefix};

use crate::pass::{Pass, Stay};
use crate::rule::{Opening, TurnRule};
use crate::steps::{Count, Cut, Draw, Look, Merge, Said, Serve, Settle};
use crate::storied::Storied;
use crate::view::View;
use atomic_table::{Refused, Table};
use std::alloc::Global;
use std::marker::Brand;
use std::snapshot::Snapshot;
use std::sync::Wait;
use std::{hint, thread};

// the words: the next ticket, the ticket that is served, and the number of events
const TICKET: usize = 0;

const SERVING: usize = 1;

const COUNT: usize = 2;

// A thread that waits looks so often before it lends its processor to others. Two threads that both
// run hand the value over within a few looks; one that does not run would be waited for in vain.
const LOOKS_A_YIELD: u32 = 1024;

/// A value that threads enter one after another, in the order of their tickets.
///
/// A turn that is dropped drops its value.
#[derive(Drop)]
pub struct Turn<V: Storied> {
    table: Table<Option<V>, View<V::Event, V::Origin>, Opening<V>, TurnRule<V>, Global>,
    ghost sized: { (table.shared.table_id.words ≡ 3) × (table.shared.table_id.slots ≡ 1) },
}

/// Memory ran out.
#[derive(Drop)]
pub struct TurnFail<V> {
    /// The value that was to be locked, as it was.
    pub value: V,
}

impl<V: Storied> Turn<V> {
    ghost use Rattle.kte_turn.specs.Known.{events_of, own_calls, news, StandsFor, first, another, left, joined_with};
    ghost use Rattle.kte_turn.specs.Passes.{IsPassOf, IsStayOf, pass_known, stay_known};

    /// Makes a turn with this value and number of seats, and the pass of seat 0, which has the
    /// share of all seats.
    pub fn new(alloc: Global, value: V, seats: u32) -> Result<(Turn<V>, Pass<V>), TurnFail<V>>
        requires some { 1 ≤ seats }
        requires empty { V.story value ≡ [] }
        ensures own { IfOk result (λ made. IsPassOf made.0 made.1) }
        ensures pass { IfOk result (λ made. pass_known made.1 ≡ first seats (V.origin value)) }
        ensures err { IfErr result (λ fail. fail.value ≡ value) }
    {
        let Ok(mut slots) = Vec::with_capacity(alloc, 1) else {
            return Err(TurnFail { value });
        };
        let about = Opening {
            seats,
            value: Snapshot::of(&value),
        };
        slots.push_reserved(Some(value));
        match Table::new(alloc, &[0, 0, 0], slots, &about) {
            Ok((table, token)) => Ok((
                Turn { table },
                Pass {
                    token,
                    number: 0,
                    next: 1,
                },
            )),
            Err(Refused { mut slots }) => {
                let value = slots.pop().unwrap().unwrap();
                slots.destroy_empty();
                Err(TurnFail { value })
            }
        }
    }

    /// Splits a pass off that of seat 0: the next seat's, with a share of one seat. The pass of
    /// seat 0 keeps all else, and both have seen the same. Takes no memory.
    pub fn split(&self, pass: Pass<V>) -> (Pass<V>, Pass<V>)
        requires own { IsPassOf self.now pass }
        requires first { (pass_known pass).seat ≡ 0 }
        requires alone { (pass_known pass).joined ≡ [] }
        requires shares { 1 < (pass_known pass).share }
        ensures own { IsPassOf self.now result.0 × IsPassOf self.now result.1 }
        ensures kept { pass_known result.0
            ≡ record (pass_known pass) { share = (pass_known pass).share - 1 } }
        ensures given { pass_known result.1 ≡ another (pass_known pass) }
    {
        let Pass {
            mut token,
            number,
            next,
        } = pass;
        let other = self.table.shared.split_seat::<Cut>(&mut token);
        (
            Pass {
                token,
                number,
                next: next + 1,
            },
            Pass {
                token: other,
                number: next,
                next: 0,
            },
        )
    }

    /// Waits until the pass's ticket is served, and takes the value. Others wait until the stay is
    /// given back.
    ///
    /// The story begins with all that the pass had seen. After that stands no event of a seat that
    /// the pass stands for, and all of the story's events of such a seat are those that the pass
    /// keeps for it.
    pub fn enter<R: Wait>(&self, rt: &R, pass: Pass<V>) -> (V, Stay<V>)
        requires own { IsPassOf self.now pass }
        ensures own { IsStayOf self.now result.1 }
        ensures origin { (pass_known pass).origin ≡ Some (V.origin result.0) }
        ensures seen { IsPrefix (pass_known pass).seen (V.story result.0) }
        ensures no_news { (seat : ℕ) → StandsFor (pass_known pass) seat
            → events_of V.seat_of seat (news (pass_known pass).seen (V.story result.0)) ≡ [] }
        ensures calls { (seat : ℕ) → StandsFor (pass_known pass) seat
            → events_of V.seat_of seat (V.story result.0)
            ≡ own_calls V.seat_of seat (pass_known pass) }
        ensures stay { stay_known result.1 ≡ record (pass_known pass) { seen = V.story result.0 } }
    {
        let Pass {
            mut token,
            number,
            next,
        } = pass;
        let shared = &self.table.shared;
        let ticket = shared.fetch_add::<Draw>(&mut token, TICKET, 1);
        let mut looks: u32 = 0;
        for _ in rt.forever() {
            if shared.load::<Look>(&mut token, SERVING) == ticket {
                let value = shared.exchange(&mut token, 0, None).unwrap();
                return (
                    value,
                    Stay {
                        token,
                        number,
                        next,
                    },
                );
            }
            looks = looks.wrapping_add(1);
            if looks.is_multiple_of(LOOKS_A_YIELD) {
                thread::yield_now();
            } else {
                hint::spin_loop();
            }
        }
        unreachable!()
    }

    /// Gives the value back with one event more, which is the last one of the story and is of the
    /// pass's own seat. Waits for nobody.
    pub fn leave(&self, value: V, stay: Stay<V>) -> Pass<V>
        requires own { IsStayOf self.now stay }
        requires event { (e : V.Event) × (V.story value ≡ (stay_known stay).seen ++ e ∷ [])
            × (V.seat_of e ≡ (stay_known stay).seat) }
        requires origin { (stay_known stay).origin ≡ Some (V.origin value) }
        ensures own { IsPassOf self.now result }
        ensures pass { pass_known result ≡ left (V.story value) (stay_known stay) }
    {
        let stay = self.counted::<Brand>(&value, stay);
        self.leave_unchanged(value, stay)
    }

    // Adds the event that `W` names to the story.
    fn counted<W: Said<V::Event>>(&self, value: &V, stay: Stay<V>) -> Stay<V>
        requires own { IsStayOf self.now stay }
        requires event { (e : V.Event) × (W.event ≡ Some e)
            × (V.story value.now ≡ (stay_known stay).seen ++ e ∷ [])
            × (V.seat_of e ≡ (stay_known stay).seat) }
        ensures own { IsStayOf self.now result }
        ensures stay { (e : V.Event) × (W.event ≡ Some e)
            × (stay_known result ≡ record (stay_known stay) {
              seen = (stay_known stay).seen ++ e ∷ [];
              own = (stay_known stay).own ++ e ∷ [];
            }) }
    {
        let Stay {
            mut token,
            number,
            next,
        } = stay;
        let shared = &self.table.shared;
        shared.fetch_add::<Count<W>>(&mut token, COUNT, 1);
        Stay {
            token,
            number,
            next,
        }
    }

    /// Gives the value back with the story that it had. Waits for nobody.
    pub fn leave_unchanged(&self, value: V, stay: Stay<V>) -> Pass<V>
        requires own { IsStayOf self.now stay }
        requires same { V.story value ≡ (stay_known stay).seen }
        requires origin { (stay_known stay).origin ≡ Some (V.origin value) }
        ensures own { IsPassOf self.now result }
        ensures pass { pass_known result
            ≡ record (stay_known stay) { turns = (stay_known stay).turns + 1 } }
    {
        let Stay {
            mut token,
            number,
            next,
        } = stay;
        let shared = &self.table.shared;
        let nothing = shared.exchange(&mut token, 0, Some(value));
        let None = nothing else { unreachable!() };
        shared.fetch_add::<Serve>(&mut token, SERVING, 1);
        Pass {
            token,
            number,
            next,
        }
    }

    /// Joins another pass to a pass, which then stands for the seats of both. Takes no memory, and
    /// waits for nobody.
    ///
    /// What each had seen is a prefix of what the joined pass has seen, and the own calls of each
    /// seat stay what they were.
    pub fn join(&self, pass: Pass<V>, other: Pass<V>) -> Pass<V>
        requires own { IsPassOf self.now pass }
        requires other { IsPassOf self.now other }
        ensures own { IsPassOf self.now result }
        ensures pass { pass_known result ≡ joined_with (pass_known pass) (pass_known other) }
        ensures seen { IsPrefix (pass_known pass).seen (pass_known result).seen }
        ensures other_seen { IsPrefix (pass_known other).seen (pass_known result).seen }
        ensures calls { (seat : ℕ) → StandsFor (pass_known pass) seat
            → own_calls V.seat_of seat (pass_known result)
            ≡ own_calls V.seat_of seat (pass_known pass) }
        ensures other_calls { (seat : ℕ) → StandsFor (pass_known other) seat
            → own_calls V.seat_of seat (pass_known result)
            ≡ own_calls V.seat_of seat (pass_known other) }
    {
        let Pass {
            mut token,
            number,
            next,
        } = pass;
        let Pass {
            token: theirs,
            number: _,
            next: _,
        } = other;
        let shared = &self.table.shared;
        shared.join_seat::<Merge>(&mut token, theirs);
        shared.load::<Settle>(&mut token, TICKET);
        Pass {
            token,
            number,
            next,
        }
    }

    /// Takes the turn apart, and gives the value back. The pass has the share of all seats, so
    /// nobody is in and nobody waits.
    ///
    /// The story begins with what the pass has seen, and its events of each seat are the own calls
    /// of that seat: none is missing, none is there twice, and they are in order.
    pub fn close(self, pass: Pass<V>) -> V
        requires own { IsPassOf self pass }
        requires all { (pass_known pass).share ≡ (pass_known pass).seats }
        ensures origin { (pass_known pass).origin ≡ Some (V.origin result) }
        ensures seen { IsPrefix (pass_known pass).seen (V.story result) }
        ensures calls { (seat : ℕ)
            → events_of V.seat_of seat (V.story result)
            ≡ own_calls V.seat_of seat (pass_known pass) }
    {
        let Turn { table } = self;
        let Pass {
            token,
            number: _,
            next: _,
        } = pass;
        let mut closed = table.close_with(token);
        let slot = closed.take(0);
        closed.free();
        slot.unwrap()
    }
}
