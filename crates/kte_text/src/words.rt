//! Words in a line, and where a pattern matches.
ghost use Rattle.std.specs.Prelude.{◌≡◌, ◌+◌, ◌≤◌, ◌↔◌, length, take, drop, map, IsTrue};
ghost use Rattle.kte_text.specs.Words.{MatchesAt, compared, has_word_at, has_word_before, is_word_unit};

/// Returns `true` for a unit of a word: a digit, a letter A to Z or a to z, `_`, or any unit
/// outside ASCII.
pub fn is_word_unit(unit: u16) -> bool
    ensures { result ≡ is_word_unit unit }
{
    (48 <= unit && unit <= 57)
        || (65 <= unit && unit <= 90)
        || (97 <= unit && unit <= 122)
        || unit == 95
        || 128 <= unit
}

/// Returns `true` if the line has the units of `pattern` from the column on. With `fold` the
/// letters A to Z are taken as a to z on both sides. With `whole` no word unit may stand next to
/// the match. The column counts units from 0; a match lies in the line.
pub fn matches_at(units: &[u16], column: u64, pattern: &[u16], fold: bool, whole: bool) -> bool
    ensures { IsTrue result ↔ MatchesAt fold whole pattern.now units.now column }
{
    if units.len() < pattern.len() || column > (units.len() - pattern.len()) as u64 {
        return false;
    }
    let start = column as usize;
    let end = start + pattern.len();
    are_same(&units[start..end], pattern, fold)
        && !(whole && (has_word_before(units, start) || has_word_at(units, end)))
}

fn are_same(units: &[u16], pattern: &[u16], fold: bool) -> bool
    requires { length units.now ≡ length pattern.now }
    ensures { IsTrue result ↔ (map (compared fold) units.now ≡ map (compared fold) pattern.now) }
{
    for n in 0..pattern.len() {
        if compared(units[n], fold) != compared(pattern[n], fold) {
            return false;
        }
    }
    true
}

fn compared(unit: u16, fold: bool) -> u16
    ensures { result ≡ compared fold unit }
{
    if fold && 65 <= unit && unit <= 90 {
        unit + 32
    } else {
        unit
    }
}

fn has_word_before(units: &[u16], column: usize) -> bool
    requires { column ≤ length units.now }
    ensures { result ≡ has_word_before units.now column }
{
    0 < column && is_word_unit(units[column - 1])
}

fn has_word_at(units: &[u16], column: usize) -> bool
    ensures { result ≡ has_word_at units.now column }
{
    column < units.len() && is_word_unit(units[column])
}
