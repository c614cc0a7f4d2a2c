use thiserror::Error;

/// The revision is neither locked nor the current one.
#[derive(Clone, Copy, Debug, Drop, Error, PartialEq, Eq)]
#[error("revision {revision} is not locked")]
pub struct NotLocked {
    /// The revision that was asked for.
    pub revision: u64,
    /// The oldest locked revision, if any is locked.
    pub oldest: Option<u64>,
}

/// The owner has no lock on the revision.
#[derive(Clone, Copy, Debug, Drop, Error, PartialEq, Eq)]
#[error("revision {revision} is not locked by this owner")]
pub struct NotOwned {
    /// The revision that was to be unlocked.
    pub revision: u64,
}

/// There would be more revisions than the limit.
#[derive(Clone, Copy, Debug, Drop, Error, PartialEq, Eq)]
#[error("no more revisions after {revision}")]
pub struct RevisionsFull {
    /// The current revision.
    pub revision: u64,
}
