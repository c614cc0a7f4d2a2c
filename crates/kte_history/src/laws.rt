//! Laws of histories, of locks and of landing. Each function does nothing: its contract is the law,
//! for every trail, lock, span and behaviour.
ghost use Rattle.kte_history.specs.Laws.{BeginsHistory, AddsToHistory, LocksHistory, UnlocksHistory, LandsOverTrail, OldestIsLeast, NoOldest, UnlocksOne, UnlocksNoOther, LandsInText, LandsPastText, ClearEntryKeeps};

/// A history is that of its trail, all entries since loading, and stays so: it begins with no
/// entry, and each call of [`History`](crate::History) adds an entry to it, or a lock, or takes a
/// lock away.
pub fn keeping()
    ensures begun { BeginsHistory }
    ensures added { AddsToHistory }
    ensures locked { LocksHistory }
    ensures unlocked { UnlocksHistory }
{}

/// A span at a locked revision, or at the current one, is carried over all entries of the trail
/// since. An entry that happens elsewhere leaves it as it is.
pub fn landing()
    ensures whole { LandsOverTrail }
    ensures clear { ClearEntryKeeps }
{}

/// The oldest lock is on the least locked revision, and unlocking removes one lock alone.
pub fn locks()
    ensures least { OldestIsLeast }
    ensures none { NoOldest }
    ensures one { UnlocksOne }
    ensures others { UnlocksNoOther }
{}

/// Landing and the lines of a text. A span of the text stays in it, and one that ends past it ends
/// past it by the same distance: so a landed span is in the present text exactly if it was in the
/// text at its revision.
pub fn lines()
    ensures inside { LandsInText }
    ensures past { LandsPastText }
{}
