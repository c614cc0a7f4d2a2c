use kte_find::Rule;
use std::marker::Model;

/// How far a job is.
#[derive(Clone, Copy, Debug, PartialEq, Eq)]
pub enum JobState {
    /// Nobody has taken it yet, or it was given back.
    Waiting,
    /// A seat works on it.
    Taken {
        /// The seat's number, from 0.
        seat: u32,
        /// The revision of the text that the rule is checked in.
        revision: u64,
    },
    /// Its findings were delivered.
    Done,
}

/// A rule that was posted, and how far it is.
#[derive(Debug, Drop)]
pub(crate) struct Entry {
    pub(crate) rule: Rule,
    pub(crate) state: JobState,
}

impl Model for Entry {
    ghost use Rattle.kte_find.specs.Rule.{HasWord};
    ghost use Rattle.kte_jobs.specs.Job.{Job};

    ghost Value = { Job };

    ghost view = { λ e. record { rule = e.rule; state = e.state } };
}

impl Entry {
    ghost use Rattle.std.specs.Prelude.{◌≡◌, IsTrue};
    ghost use Rattle.kte_jobs.specs.Job.{is_waiting};

    /// Returns `true` if the job waits.
    pub(crate) fn is_waiting(&self) -> bool
        ensures { result ≡ is_waiting self.now.state }
    {
        self.state == JobState::Waiting
    }
}
