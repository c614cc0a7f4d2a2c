//! The jobs of a text: rules that were posted, each waiting, taken by a seat, or done.
//!
//! [`Jobs`] is proved to have each job's rule and state, and the least number that waits; only
//! posting allocates. That number is kept at hand: it is found without a walk over the jobs, unless
//! the job that waits first is taken while later ones do not wait.
//!
//! - `job`: a job and its state
//! - `jobs`: all jobs, by their numbers
#![tactic(auto)]

mod job;
mod jobs;
#[cfg(test)]
mod tests;

pub use job::JobState;
pub use jobs::Jobs;
