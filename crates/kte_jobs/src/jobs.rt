ghost use Rattle.std.specs.Prelude.{◌≡◌, ℕ, ◌+◌, ◌-◌, ◌<◌, ◌≤◌, ◌^◌, ◌↔◌, [], ◌∷◌, ◌++◌, length, IsSome, IfSome, IfOk, OnErr, MatchOption};
ghost use Rattle.std.specs.Option.{option_copied};
ghost use Rattle.kte_find.specs.Rule.{HasWord};
ghost use Rattle.kte_jobs.specs.declared.job.JobState.TheVariants as JobState;
ghost use Rattle.kte_jobs.specs.Job.{Job};
ghost use Rattle.kte_jobs.specs.Jobs.{job_at, state_of, rule_of, Waits, IsTaken, IsLeastWaiting, least_waiting, with_state};
ghost use Rattle.kte_jobs.specs.Inside.{NoneWaits, WaitsOrEnds};

use crate::job::{Entry, JobState};
use kte_find::Rule;
use std::alloc::{AllocError, Global};
use std::marker::Model;

/// Jobs, each under a number. Numbers rise from 1, and none is used again.
///
/// Contracts see the list of the jobs, in the order of their numbers.
#[derive(Debug, Drop)]
pub struct Jobs {
    jobs: Vec<Entry>,
    /// The index of the first job that waits; the number of jobs if none does.
    first: usize,
}

impl Model for Jobs {
    ghost use Rattle.std.specs.Prelude.{List};
    ghost use Rattle.kte_jobs.specs.Job.{Job};
    ghost use Rattle.kte_jobs.specs.Inside.{Holds};

    ghost Value = { List Job };

    ghost view = { λ j. j.jobs.items };

    ghost invariant = { λ j. Holds j.jobs.items j.first };
}

impl Jobs {
    /// Creates an empty list of jobs. This does not allocate.
    pub fn new(alloc: Global) -> Jobs
        ensures { result ≡ [] }
    {
        Jobs {
            jobs: Vec::new(alloc),
            first: 0,
        }
    }

    /// Adds a job that waits, and returns its number. Fails if out of memory; the jobs are then
    /// unchanged.
    pub fn post(&mut self, rule: Rule) -> Result<u32, AllocError>
        requires word { HasWord rule }
        requires number { length self.old < 2 ^ 32 - 1 }
        ensures number { IfOk result (λ number. number ≡ length self.old + 1) }
        ensures ok { IfOk result (λ _. self.new
            ≡ self.old ++ (record { rule = rule; state = JobState.Waiting }) ∷ []) }
        ensures err { OnErr result (self.new ≡ self.old) }
    {
        let number = self.jobs.len() as u32 + 1;
        self.jobs.push(Entry {
            rule,
            state: JobState::Waiting,
        })?;
        Ok(number)
    }

    /// Returns the least number of a job that waits, if one does.
    pub fn waiting(&self) -> Option<u32>
        ensures least { MatchOption result ((number : ℕ) → ¬ (Waits self.now number))
            (λ number. IsLeastWaiting self.now number) }
        ensures value { result ≡ least_waiting self.now }
    {
        if self.first < self.jobs.len() {
            Some(self.first as u32 + 1)
        } else {
            None
        }
    }

    /// Returns the state of a job; `None` if there is no job of this number.
    pub fn state(&self, job: u32) -> Option<JobState>
        ensures value { result ≡ state_of self.now job }
        ensures there { IsSome result ↔ ((1 ≤ job) × (job ≤ length self.now)) }
    {
        match entry_at(self.jobs.as_slice(), job) {
            Some(entry) => Some(entry.state),
            None => None,
        }
    }

    /// Returns the rule of a job; `None` if there is no job of this number.
    pub fn rule(&self, job: u32) -> Option<&Rule>
        ensures value { option_copied result ≡ rule_of self.now job }
        ensures there { IsSome result ↔ ((1 ≤ job) × (job ≤ length self.now)) }
        ensures word { IfSome result (λ rule. HasWord rule.now) }
    {
        match entry_at(self.jobs.as_slice(), job) {
            Some(entry) => Some(&entry.rule),
            None => None,
        }
    }

    /// Marks a job that waits as taken by a seat, to be checked at a revision. This does not
    /// allocate.
    pub fn take(&mut self, job: u32, seat: u32, revision: u64)
        requires { Waits self.old job }
        ensures { self.new ≡ with_state self.old job (JobState.Taken seat revision) }
    {
        let index = job as usize - 1;
        let entry = &mut self.jobs[index];
        entry.state = JobState::Taken { seat, revision };
        if index == self.first {
            self.first = first_waiting(self.jobs.as_slice(), index);
        }
    }

    /// Marks a taken job as done. This does not allocate.
    pub fn finish(&mut self, job: u32)
        requires { IsTaken self.old job }
        ensures { self.new ≡ with_state self.old job JobState.Done }
    {
        let entry = &mut self.jobs[job as usize - 1];
        entry.state = JobState::Done;
    }

    /// Marks a taken job as waiting again. This does not allocate.
    pub fn give_back(&mut self, job: u32)
        requires { IsTaken self.old job }
        ensures { self.new ≡ with_state self.old job JobState.Waiting }
    {
        let index = job as usize - 1;
        let entry = &mut self.jobs[index];
        entry.state = JobState::Waiting;
        self.first = self.first.min(index);
    }
}

/// The job of a number, if there is one.
fn entry_at(jobs: &[Entry], job: u32) -> Option<&Entry>
    ensures { option_copied result ≡ job_at jobs.now job }
{
    if job == 0 {
        return None;
    }
    jobs.get(job as usize - 1)
}

/// The index of the first job from `start` on that waits; the number of jobs if none does.
fn first_waiting(jobs: &[Entry], start: usize) -> usize
    requires { start ≤ length jobs.now }
    ensures order { start ≤ result }
    ensures within { result ≤ length jobs.now }
    ensures none { NoneWaits jobs.now start result }
    ensures some { WaitsOrEnds jobs.now result }
{
    let mut first = start;
    while first < jobs.len() && !jobs[first].is_waiting() {
        first += 1;
    }
    first
}
