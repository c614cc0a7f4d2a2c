ghost use Rattle.std.specs.Prelude.{◌≡◌, ◌<◌};
ghost use Rattle.std.specs.Option.{option_map};
ghost use Rattle.kte_turn.specs.Passes.{pass_known};
ghost use Rattle.kte_desk.specs.Works.{WorksAsSeen};
ghost use Rattle.kte_desk.specs.WorksOnce.{WorksAsSeen-prop};

use crate::recorded::Recorded;
use crate::work::Work;
use kte_find::Rule;
use kte_text::Text;
use kte_turn::Pass;

/// The editor's right to make requests at a desk. Its seat is 0.
#[derive(Drop)]
pub struct EditorPass {
    pub(crate) pass: Pass<Recorded>,
    pub ghost first: { (pass_known pass).seat ≡ 0 },
}

/// A checker's right to take jobs at a desk, one after another.
#[derive(Drop)]
pub struct CheckerPass {
    pub(crate) pass: Pass<Recorded>,
    // the job that it has
    pub(crate) work: Option<Work>,
    pub ghost other: { 0 < (pass_known pass).seat },
    pub ghost works: { WorksAsSeen (pass_known pass) work } by { WorksAsSeen-prop (pass_known pass) work },
}

impl CheckerPass {
    ghost use Rattle.std.specs.Prelude.{Some};
    ghost use Rattle.kte_core.specs.Jobs.{IsKept};
    ghost use Rattle.kte_desk.specs.Passes.{checker_known, work_of};
    ghost use Rattle.kte_desk.specs.Seen.{SeesState};
    ghost use Rattle.kte_desk.specs.Works.{job_of};

    /// Returns the number of the checker's seat. The first checker has seat 1.
    pub fn seat(&self) -> u32
        ensures { result ≡ (checker_known self.now).seat }
    {
        self.pass.seat()
    }

    /// Returns the number of the job that the checker has; `None` if it has none.
    pub fn job(&self) -> Option<u32>
        ensures job { result ≡ option_map job_of (work_of self.now) }
        // Its lock keeps the revision at which it was taken.
        ensures kept { (work : _) → work_of self.now ≡ Some work
            → SeesState (checker_known self.now) (λ state.
            IsKept state work.job work.revision) }
    {
        self.work.map(|work| work.job)
    }
}

/// What [`Desk::take`](crate::Desk::take) gives.
#[derive(Drop)]
pub enum Taking {
    /// A job, its rule, and the text at the revision at which it was taken.
    Took {
        job: u32,
        rule: Rule,
        revision: u64,
        text: Text,
    },
    /// No job waits. `closed` tells whether the session is closed, so that none will be posted.
    NoJob {
        closed: bool,
    },
}
