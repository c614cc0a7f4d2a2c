use kte_command::Command;
use kte_place::Spans;

/// A request to a core. The editor has seat 0; commands, [`Request::Close`] and
/// [`Request::Outcome`] are its own.
#[derive(Debug, Drop)]
pub enum Request {
    /// A command of the script.
    Cmd(Command),
    /// Closes the session, at whatever depth: every later command is refused, and no further job
    /// is posted. Jobs can still be taken, delivered and given back.
    Close,
    /// Takes the least job that waits, to check its rule in the present text.
    Take,
    /// Delivers what the rule of a job finds in the text at the revision at which it was taken.
    Deliver { job: u32, findings: Spans },
    /// Gives a job back, so that it waits again.
    GiveBack { job: u32 },
    /// Tells what came of a call outside of the core.
    Outcome { call: OutsideCall, ok: bool },
}

/// A call outside of the core.
#[derive(Clone, Copy, Debug, PartialEq, Eq)]
pub enum OutsideCall {
    /// Appending a finished transaction to the swap file.
    Append,
    /// Making the swap file durable.
    Sync,
    /// Saving the text.
    Save,
}
