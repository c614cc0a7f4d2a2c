use crate::{Actor, run_all};
use std::sync::Wait;
use std::sync::atomic::{AtomicU64, Ordering};
use std::test::Fail;
use std::thread;

// more than enough for a thread to start
const MAX_LOOKS: u64 = 1_000_000_000;

// Says that it has begun, and looks whether as many as it hopes for have.
#[derive(Drop)]
struct Meeting<'a> {
    begun: &'a AtomicU64,
    hoped: u64,
    met: bool,
}

impl<'a> Actor for Meeting<'a> {
    ghost use Rattle.std.specs.Prelude.{◌≡◌};

    ghost done = { λ before after. after.hoped ≡ before.hoped };

    fn act<R: Wait>(&mut self, rt: &R) {
        self.begun.fetch_add(1, Ordering::SeqCst);
        self.met = all_begin(self.begun, self.hoped);
    }
}

fn all_begin(begun: &AtomicU64, hoped: u64) -> bool {
    for _ in 0..MAX_LOOKS {
        if begun.load(Ordering::SeqCst) == hoped {
            return true;
        }
        thread::yield_now();
    }
    false
}

fn actor_of<'a>(begun: &'a AtomicU64, hoped: u64) -> Meeting<'a> {
    Meeting {
        begun,
        hoped,
        met: false,
    }
}

#[test]
fn actors_run_beside_one_another(rt: HostRuntime) -> Result<(), Fail> {
    let begun = AtomicU64::new(0);
    let mut first = actor_of(&begun, 4);
    let mut others = [
        actor_of(&begun, 4),
        actor_of(&begun, 4),
        actor_of(&begun, 4),
    ];
    run_all(&rt, &mut first, &mut others);
    assert!(rt; first.met);
    for other in &others {
        assert!(rt; other.met);
    }
    Ok(())
}

#[test]
fn one_actor_needs_no_others(rt: HostRuntime) -> Result<(), Fail> {
    let begun = AtomicU64::new(0);
    let mut first = actor_of(&begun, 1);
    let mut others: [Meeting; 0] = [];
    run_all(&rt, &mut first, &mut others);
    assert!(rt; first.met);
    Ok(())
}
