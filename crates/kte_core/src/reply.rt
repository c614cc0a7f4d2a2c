ghost use Rattle.std.specs.Prelude.{◌≡◌, IfOk, OnErr};
ghost use Rattle.kte_core.specs.declared.reply.Reply.TheVariants.{Found};

use kte_fold::FoldRefused;
use kte_place::{Span, Spans};
use kte_text::Misfit;
use std::alloc::{AllocError, Global};

/// The reply to a request.
#[derive(Debug, Drop)]
pub enum Reply {
    /// The change, the undo or the redo was made in `steps` primitives, which led to `revision`.
    /// `depth` is the number of open transactions, each in the one before.
    Edited {
        steps: u64,
        revision: u64,
        depth: u32,
    },
    /// Memory ran out after the first `steps` primitives of the change, the undo or the redo. They
    /// are made, and led to `revision`; the others are not. `depth` is as in `Edited`.
    Cut {
        steps: u64,
        revision: u64,
        depth: u32,
    },
    /// A transaction was opened or closed, and so many are open now.
    Depth {
        depth: u32,
    },
    /// Where the range stands; without a span it is invalid.
    Range {
        id: u64,
        span: Option<Span>,
    },
    /// The range was removed.
    Dropped {
        id: u64,
    },
    /// The revision was locked for the editor.
    Locked {
        revision: u64,
    },
    /// One of the editor's locks on the revision was removed.
    Unlocked {
        revision: u64,
    },
    /// Where the span is now; without one, a range that was made of it would be invalid.
    Landed {
        span: Option<Span>,
    },
    /// The matches of a search, from left to right: one, or for all at most 4,096.
    Found {
        spans: Spans,
    },
    /// The job was posted, and waits.
    Posted {
        job: u32,
    },
    /// What the command asks for is to be done outside of the core now, and its outcome to be told.
    Asked,
    /// The seat has taken the job, the least that waited. Its rule is to be checked in the text at
    /// this revision, which is locked until the job is delivered or given back.
    Took {
        job: u32,
        revision: u64,
    },
    /// The job is done. Its findings became `count` ranges with rising numbers from `first` on;
    /// without findings `first` is the number of the next range.
    Delivered {
        job: u32,
        first: u64,
        count: u64,
    },
    /// The job was given back, and waits again.
    Returned {
        job: u32,
    },
    /// The outcome was noted.
    Noted,
    /// The session is closed: every later command is refused.
    Closed,
    /// Nothing was changed.
    Refused(Refusal),
}

impl Reply {
    /// Returns an equal reply. Only matches allocate. Fails if out of memory.
    pub fn copy(&self, alloc: Global) -> Result<Reply, AllocError>
        ensures equal { IfOk result (λ reply. reply ≡ self.now) }
        ensures found { OnErr result ((spans : _) × (self.now ≡ Found spans)) }
    {
        Ok(match self {
            Reply::Edited {
                steps,
                revision,
                depth,
            } => Reply::Edited {
                steps: *steps,
                revision: *revision,
                depth: *depth,
            },
            Reply::Cut {
                steps,
                revision,
                depth,
            } => Reply::Cut {
                steps: *steps,
                revision: *revision,
                depth: *depth,
            },
            Reply::Depth { depth } => Reply::Depth { depth: *depth },
            Reply::Range { id, span } => Reply::Range {
                id: *id,
                span: *span,
            },
            Reply::Dropped { id } => Reply::Dropped { id: *id },
            Reply::Locked { revision } => Reply::Locked {
                revision: *revision,
            },
            Reply::Unlocked { revision } => Reply::Unlocked {
                revision: *revision,
            },
            Reply::Landed { span } => Reply::Landed { span: *span },
            Reply::Found { spans } => Reply::Found {
                spans: spans.copy(alloc)?,
            },
            Reply::Posted { job } => Reply::Posted { job: *job },
            Reply::Asked => Reply::Asked,
            Reply::Took { job, revision } => Reply::Took {
                job: *job,
                revision: *revision,
            },
            Reply::Delivered { job, first, count } => Reply::Delivered {
                job: *job,
                first: *first,
                count: *count,
            },
            Reply::Returned { job } => Reply::Returned { job: *job },
            Reply::Noted => Reply::Noted,
            Reply::Closed => Reply::Closed,
            Reply::Refused(refusal) => Reply::Refused(*refusal),
        })
    }
}

/// Why a request is refused.
#[derive(Clone, Copy, Debug, PartialEq, Eq)]
pub enum Refusal {
    /// The change does not fit the text.
    Misfit(Misfit),
    /// No transaction is open, so none can be closed.
    NotOpen,
    /// A transaction is open, at this depth, so nothing can be undone or redone, made durable or
    /// saved.
    StillOpen { depth: u32 },
    /// There is no group to undo, or to redo.
    Nothing,
    /// The primitives would lead past the last revision that may be made. `revision` is the present
    /// one.
    RevisionsFull { revision: u64 },
    /// There is no range of this number; a fold is none.
    NoRange { id: u64 },
    /// There is no fold of this number.
    NoFold { id: u64 },
    /// The span may not be folded.
    Fold(FoldRefused),
    /// Nothing matches the query there.
    NoMatch,
    /// The revision is neither locked nor the present one. `oldest` is the oldest locked one, if
    /// any is.
    NotLocked { revision: u64, oldest: Option<u64> },
    /// The editor has no lock on the revision.
    NotOwned { revision: u64 },
    /// No job waits. `closed` tells whether the session is closed, so that none will be posted.
    NoJob { closed: bool },
    /// The seat has not taken the job.
    NotTaken { job: u32 },
    /// The session is closed.
    Closed,
}
