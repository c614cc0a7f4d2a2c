//! Laws of tables of ranges, and of settling. Each function does nothing: its contract is the law,
//! for every table, range and cursors.
ghost use Rattle.kte_ranges.specs.Laws.{ComesApart, ComesHung, GoesApart, GoesFree, GoesHung, SettlesOnce, UntouchedStaysSettled};

/// Inserting a range, or replacing the one of its number.
pub fn coming()
    ensures apart { ComesApart }
    ensures hung { ComesHung }
{}

/// Removing a range.
pub fn going()
    ensures apart { GoesApart }
    ensures free { GoesFree }
    ensures hung { GoesHung }
{}

/// A settled range settles to itself, and stays settled over an entry after which its start is on
/// none of the lines that the entry touched. So only ranges that start on a touched line need to
/// settle.
pub fn settled()
    ensures once { SettlesOnce }
    ensures untouched { UntouchedStaysSettled }
{}
