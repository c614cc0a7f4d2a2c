ghost use Rattle.std.specs.Prelude.{◌≡◌, ◌+◌, ◌<◌, ◌≤◌, ◌^◌, length, IfOk};

use crate::{Pass, Storied, Turn};
use std::alloc::{AllocError, Global};
use std::sync::Wait;
use std::test::Fail;
use std::thread::join;

// What each seat entered, as pairs of its number and a count.
#[derive(Drop)]
struct Pairs {
    items: Vec<(u32, u64)>,
    pub ghost short: { length items.items < 2 ^ 63 },
}

impl Storied for Pairs {
    type Event = (u32, u64);

    type Origin = ();

    ghost seat_of = { λ event. event.0 };

    ghost origin = { λ pairs. tt };

    ghost story = { λ pairs. pairs.items.items };

    ghost short = { λ pairs. pairs.short };
}

impl Pairs {
    fn of(items: Vec<(u32, u64)>) -> Pairs
        ensures { result.items ≡ items }
    {
        Pairs { items }
    }
}

ghost use Rattle.kte_turn.specs.Known.{first};
ghost use Rattle.kte_turn.specs.Passes.{IsPassOf, pass_known};

// Enters `count`, unless memory runs out.
fn add<R: Wait>(rt: &R, turn: &Turn<Pairs>, pass: Pass<Pairs>, count: u64) -> Pass<Pairs>
    requires { IsPassOf turn.now pass }
    ensures own { IsPassOf turn.now result }
    ensures share { (pass_known result).share ≡ (pass_known pass).share }
    ensures seats { (pass_known result).seats ≡ (pass_known pass).seats }
{
    let seat = pass.seat();
    let (value, stay) = turn.enter(rt, pass);
    let Pairs { mut items } = value;
    if items.reserve(1).is_err() {
        return turn.leave_unchanged(Pairs::of(items), stay);
    }
    items.push_reserved((seat, count));
    turn.leave(Pairs::of(items), stay)
}

// Enters 1 to 1,000.
fn add_all<R: Wait>(rt: &R, turn: &Turn<Pairs>, pass: Pass<Pairs>) -> Pass<Pairs>
    requires { IsPassOf turn.now pass }
    ensures own { IsPassOf turn.now result }
    ensures share { (pass_known result).share ≡ (pass_known pass).share }
    ensures seats { (pass_known result).seats ≡ (pass_known pass).seats }
{
    let mut pass = pass;
    for count in 1..1001 {
        pass = add(rt, turn, pass, count);
    }
    pass
}

fn new_turn(alloc: Global, seats: u32) -> Result<(Turn<Pairs>, Pass<Pairs>), AllocError>
    requires { 1 ≤ seats }
    ensures own { IfOk result (λ made. IsPassOf made.0 made.1) }
    ensures pass { IfOk result (λ made. pass_known made.1 ≡ first seats tt) }
{
    match Turn::new(alloc, Pairs::of(Vec::new(alloc)), seats) {
        Ok(made) => Ok(made),
        Err(_) => Err(AllocError),
    }
}

#[test]
fn two_threads_enter_a_thousand_each_in_order(rt: HostRuntime) -> Result<(), Fail> {
    let (turn, pass) = new_turn(rt.alloc(), 2)?;
    let (one, two) = turn.split(pass);
    let (one, two) = join(
        &rt,
        || add_all(&rt, &turn, one),
        || add_all(&rt, &turn, two),
    );
    let all = turn.join(one, two);
    let Pairs { items } = turn.close(all);
    assert!(rt; items.len() == 2000);
    let mut next = [1u64, 1];
    for (seat, count) in items {
        if let Some(expected) = next.get_mut(seat as usize) {
            assert!(rt; count == *expected);
            *expected = expected.wrapping_add(1);
        }
    }
    assert!(rt; next == [1001, 1001]);
    Ok(())
}

// That the pass has made three turns is proved, by the loop's invariant.
fn three_turns<R: Wait>(rt: &R, turn: &Turn<Pairs>, pass: Pass<Pairs>) -> Pass<Pairs>
    requires { IsPassOf turn.now pass }
    ensures own { IsPassOf turn.now result }
    ensures pass { (pass_known result).turns ≡ (pass_known pass).turns + 3 }
    ensures share { (pass_known result).share ≡ (pass_known pass).share }
    ensures seats { (pass_known result).seats ≡ (pass_known pass).seats }
{
    let mut pass = pass;
    for _made in 0..3u64 {
        let (value, stay) = turn.enter(rt, pass);
        pass = turn.leave_unchanged(value, stay);
    }
    pass
}

#[test]
fn three_turns_leave_nothing(rt: HostRuntime) -> Result<(), Fail> {
    let (turn, pass) = new_turn(rt.alloc(), 1)?;
    let pass = three_turns(&rt, &turn, pass);
    let Pairs { items } = turn.close(pass);
    assert!(rt; items.is_empty());
    Ok(())
}
