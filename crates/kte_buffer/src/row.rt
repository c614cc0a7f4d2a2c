//! One line of a text, in a vector that may have room for more units.
ghost use Rattle.std.specs.Prelude.{◌≡◌, ◌+◌, ◌-◌, ◌≤◌, [], ◌++◌, length, take, drop, vec_len, vec_capacity};

/// Inserts units at a column. There is room for them.
pub(crate) fn insert(row: &mut Vec<u16>, column: usize, units: &[u16])
    requires column { column ≤ vec_len row.old }
    requires room { vec_len row.old + length units.now ≤ vec_capacity row.old }
    ensures { row.new.items ≡ take column row.old.items ++ units.now ++ drop column row.old.items }
{
    row.extend_from_slice(units).unwrap();
    row[column..].rotate_right(units.len());
}

/// Removes `count` units from a column on.
pub(crate) fn remove(row: &mut Vec<u16>, column: usize, count: usize)
    requires { column + count ≤ vec_len row.old }
    ensures { row.new.items ≡ take column row.old.items ++ drop (column + count) row.old.items }
{
    drop(row.drain(column..column + count));
}

/// Moves the units from a column on into an empty row. There is room for them.
pub(crate) fn split(row: &mut Vec<u16>, column: usize, tail: &mut Vec<u16>)
    requires column { column ≤ vec_len row.old }
    requires empty { tail.old.items ≡ [] }
    requires room { vec_len row.old - column ≤ vec_capacity tail.old }
    ensures head { row.new.items ≡ take column row.old.items }
    ensures tail { tail.new.items ≡ drop column row.old.items }
{
    tail.extend_from_slice(&row[column..]).unwrap();
    row.truncate(column);
}

/// Appends units. There is room for them.
pub(crate) fn append(row: &mut Vec<u16>, units: &[u16])
    requires room { vec_len row.old + length units.now ≤ vec_capacity row.old }
    ensures { row.new.items ≡ row.old.items ++ units.now }
{
    row.extend_from_slice(units).unwrap();
}
