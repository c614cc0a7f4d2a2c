/// A job that a checker works on.
#[derive(Clone, Copy, Debug, PartialEq, Eq)]
pub(crate) struct Work {
    /// The job's number.
    pub(crate) job: u32,
    /// The revision at which it was taken.
    pub(crate) revision: u64,
}
