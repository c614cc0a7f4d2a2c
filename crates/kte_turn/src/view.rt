use std::collections::LinkedList;
use std::snapshot::Snapshot;

/// Where a pass is on its way through a turn. No value of this type is ever made: it exists in
/// proofs alone. Tickets count from the start, without bound; the words hold their remainders.
pub enum Stage {
    /// It has no ticket.
    Idle,
    /// It waits with this ticket.
    Waits(u64),
    /// This ticket of it is served, and it holds the slot.
    Serves(u64),
}

/// What the table keeps of a pass. No value of this type is ever made.
pub struct View<E, O> {
    pub seats: u64,
    // its own seat's number, and then those of the passes that it has joined
    pub numbers: LinkedList<u64>,
    pub share: u64,
    pub turns: u64,
    // `None` in what is left of a pass that was joined to another one
    pub origin: Snapshot<Option<O>>,
    pub seen: LinkedList<E>,
    // what one of two joined passes had seen, between the two loads of a join
    pub told: LinkedList<E>,
    pub own: LinkedList<E>,
    pub stage: Stage,
}
