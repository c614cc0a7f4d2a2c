ghost use Rattle.std.specs.Prelude.{◌≡◌, true, false, [], None};
ghost use Rattle.kte_desk.specs.Passes.{IsCheckerOf, checker_known, desk_id, work_of};
ghost use Rattle.kte_run.specs.Beside.{HasChecked, IsLater, desk_of_checker, is_busy};

use kte_desk::{CheckerPass, Desk, Taking};
use kte_find::Checker;
use kte_pool::Actor;
use std::alloc::Global;
use std::sync::Wait;

/// A checker at a desk.
#[derive(Drop)]
pub(crate) struct CheckerActor<'a, K: Checker> {
    pub(crate) alloc: Global,
    pub(crate) desk: &'a Desk,
    pub(crate) checker: &'a K,
    pub(crate) pass: Option<CheckerPass>,
    /// Whether the checker has acted, and memory did not run out.
    pub(crate) is_done: bool,
    pub ghost at: { desk_of_checker (desk_id desk.now) pass ≡ desk_id desk.now },
    pub ghost free: { is_busy pass ≡ false },
}

impl<'a, K: Checker + Sync> Actor for CheckerActor<'a, K> {
    ghost use Rattle.kte_run.specs.CheckerActs.{CheckerActs};

    ghost done = { CheckerActs };

    fn act<R: Wait>(&mut self, rt: &R) {
        let Some(pass) = self.pass.take() else {
            return;
        };
        let (is_done, pass) = do_jobs(rt, self.alloc, self.desk, pass, self.checker);
        self.is_done = is_done;
        self.pass = Some(pass);
    }
}

/// Does jobs, one after another, until the session is closed and none waits. If out of memory, a
/// job that was taken is given back, and no more is done. Returns whether all was done.
pub(crate) fn do_jobs<R: Wait, K: Checker>(
    rt: &R,
    alloc: Global,
    desk: &Desk,
    pass: CheckerPass,
    checker: &K,
) -> (bool, CheckerPass)
    requires own { IsCheckerOf desk.now pass }
    requires free { work_of pass ≡ None }
    ensures own { IsCheckerOf desk.now result.1 }
    ensures free { work_of result.1 ≡ None }
    ensures later { IsLater (checker_known pass) (checker_known result.1) }
    ensures checked { result.0 ≡ true → (checker_known pass).own ≡ []
        → HasChecked (checker_known result.1) }
{
    let mut pass = pass;
    for _ in rt.forever() {
        let (taking, later) = desk.take(rt, alloc, pass);
        pass = later;
        match taking {
            Ok(Taking::NoJob { closed: true }) => return (true, pass),
            Ok(Taking::NoJob { closed: false }) => pass = desk.rest(rt, pass),
            Ok(Taking::Took { rule, text, .. }) => {
                let Ok(findings) = checker.check(alloc, &rule, &text) else {
                    return (false, desk.give_back(rt, alloc, pass));
                };
                let (answer, later) = desk.deliver(rt, alloc, pass, findings);
                pass = later;
                if answer.is_err() {
                    return (false, desk.give_back(rt, alloc, pass));
                }
            }
            Err(_) => return (false, pass),
        }
    }
    unreachable!()
}
