//! The history of a text, as far as places are concerned: the entries of the changes that were made
//! to it, of which those are kept that somebody may still need.
//!
//! The revision of a text is the number of its changes since it was loaded. Whoever works on the
//! text at one revision locks it, and may later carry a span of that text to the present one, by
//! [`History::carry_span`]. Kept are exactly the entries after the oldest lock. `Locks` in `specs/`
//! has the rule, and `laws` proves that every call of [`History`] keeps to it: the history of a
//! whole trail of entries stays that of the trail with one more entry, one more lock or one lock
//! less.
//!
//! - `history`: the history and its calls
//! - `lock`: who holds a lock, and on which revision
//! - `landing`: carrying a span over one entry after another
//! - `fault`: why a history refuses
//! - `laws`: the laws
#![tactic(auto)]

mod fault;
mod history;
mod landing;
pub mod laws;
mod lock;
#[cfg(test)]
mod tests;

pub use fault::{NotLocked, NotOwned, RevisionsFull};
pub use history::{History, MAX_REVISIONS};
pub use lock::{Lock, Owner};
