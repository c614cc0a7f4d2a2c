use crate::{JobState, Jobs};
use kte_find::Rule;
use std::test::Fail;

#[test]
fn the_least_job_that_waits_is_taken_first(rt: HostRuntime) -> Result<(), Fail> {
    let mut jobs = Jobs::new(rt.alloc());
    assert_eq!(rt; jobs.waiting(), None);
    assert_eq!(rt; jobs.post(Rule::Blanks)?, 1);
    assert_eq!(rt; jobs.post(Rule::Pairs)?, 2);
    // Each is taken in turn; the first is given back, and taken again before the second is done.
    for (number, seat) in [(1, 5), (2, 6)] {
        assert_eq!(rt; jobs.waiting(), Some(number));
        if let Some(job) = jobs.waiting() {
            jobs.take(job, seat, 9);
            let taken = JobState::Taken { seat, revision: 9 };
            assert_eq!(rt; jobs.state(job), Some(taken));
        }
    }
    assert_eq!(rt; jobs.waiting(), None);
    if let Some(JobState::Taken { .. }) = jobs.state(1) {
        jobs.give_back(1);
    }
    assert_eq!(rt; jobs.state(1), Some(JobState::Waiting));
    assert_eq!(rt; jobs.waiting(), Some(1));
    if let Some(JobState::Taken { .. }) = jobs.state(2) {
        jobs.finish(2);
    }
    assert_eq!(rt; jobs.state(2), Some(JobState::Done));
    assert!(rt; matches!(jobs.rule(2), Some(Rule::Pairs)));
    for number in [0, 3] {
        assert_eq!(rt; jobs.state(number), None);
        assert!(rt; jobs.rule(number).is_none());
    }
    Ok(())
}
