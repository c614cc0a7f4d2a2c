//! Runs actors beside one another, each in a thread of its own, and says what each of them did.
//!
//! An [`Actor`] holds all that it works on and says, by its meaning `done`, what it is after it has
//! acted. [`run_all`] returns once every actor has acted, and each is then done from what it was.
//! No clause says that two of them ran at the same time, or in what order they ran: where no more
//! threads can be started, they run one after another. An actor that waits for another one may then
//! wait forever.
#![tactic(auto)]

ghost use Rattle.kte_pool.specs.Done.{EachDone};

use std::sync::Wait;
use std::thread;
use std::thread::{Threads, join_mut};

#[cfg(test)]
mod tests;

/// What one thread does.
pub trait Actor: Send {
    // what it is after it has acted, by what it was before
    ghost done: { Self → Self → Type 0 };

    /// Does all of its work. May wait for other threads.
    fn act<R: Wait>(&mut self, rt: &R)
        ensures { done self.old self.new };
}

/// Runs `first` beside `others`, and `others` beside one another. Returns once all have acted. With
/// no others it is the same as `first.act(rt)`.
pub fn run_all<R: Threads + Wait + Sync, E: Actor, A: Actor>(
    rt: &R,
    first: &mut E,
    others: &mut [A],
)
    ensures first { E.done first.old first.new }
    ensures others { EachDone A.done others.old others.new }
{
    join_mut(rt, &mut || first.act(rt), &mut || run_each(rt, others));
}

/// Runs actors beside one another. Returns once all have acted.
pub fn run_each<R: Threads + Wait + Sync, A: Actor>(rt: &R, actors: &mut [A])
    ensures { EachDone A.done actors.old actors.new }
{
    // `for_each_mut` asks for at least one thread.
    if actors.is_empty() {
        return;
    }
    let threads = actors.len();
    thread::for_each_mut(rt, actors, threads, &|_, actor| actor.act(rt));
}
