ghost use Rattle.std.specs.Prelude.{◌≡◌, ◌≤◌, ℕ, length, slice_get, IsSomeAnd};
ghost use Rattle.kte_record.specs.Grammar.{Item, Begins, IsCutShort, FirstFault};
ghost use Rattle.kte_record.specs.Reading.{Finds, IsGot, ReadsNumber, ReadsRecord};
ghost use Rattle.kte_record.specs.declared.reading.Reading.TheVariants as Reading;

use crate::record::{MAX_NUMBER, MAX_TEXT_LENGTH, Record};

/// What a swap file begins with, from the start of a record on.
#[derive(Clone, Copy, Debug, PartialEq, Eq)]
pub enum Reading<'a> {
    /// A record, which takes `used` bytes. More bytes may follow.
    Got { item: Record<'a>, used: u64 },
    /// The front of a record, possibly without any byte. The rest is missing.
    Part,
    /// Nothing that a record begins with. The tag or number at fault begins at byte `at`, from 0.
    Bad { at: u64 },
}

// Why there is no record.
#[derive(Clone, Copy, Drop)]
enum Gap {
    // The bytes end within the record.
    Cut,
    // The tag or number at this offset is that of no record.
    Fault { at: u64 },
}

/// Reads the record with which the bytes begin. A number that is cut short is at fault if the bytes
/// that are there begin no number that may stand there. Takes no memory.
pub fn read(bytes: &[u8]) -> Reading<'_>
    ensures reads { Finds bytes.now result }
    ensures got { (item : Item) → Begins bytes.now item → IsGot item result }
    ensures part { IsCutShort bytes.now → result ≡ Reading.Part }
    ensures bad { (at : ℕ) → FirstFault bytes.now at → result ≡ Reading.Bad at }
{
    match first_record(bytes) {
        Ok((item, used)) => Reading::Got { item, used },
        Err(Gap::Cut) => Reading::Part,
        Err(Gap::Fault { at }) => Reading::Bad { at },
    }
}

fn first_record(bytes: &[u8]) -> Result<(Record<'_>, u64), Gap>
    ensures { ReadsRecord bytes.now result }
{
    match bytes.first() {
        None => Err(Gap::Cut),
        Some(b'S') => Ok((Record::Start, 1)),
        Some(b'E') => Ok((Record::Finish, 1)),
        Some(b'W') => first_wrap(bytes),
        Some(b'U') => first_unwrap(bytes),
        Some(b'I') => first_insert(bytes),
        Some(b'R') => first_remove(bytes),
        Some(_) => Err(Gap::Fault { at: 0 }),
    }
}

fn first_wrap(bytes: &[u8]) -> Result<(Record<'_>, u64), Gap>
    requires { IsSomeAnd (slice_get bytes.now 0) (λ tag. tag ≡ 0x57) }
    ensures { ReadsRecord bytes.now result }
{
    let line = number_at(bytes, 1, MAX_NUMBER)?;
    let column = number_at(bytes, 5, MAX_NUMBER)?;
    Ok((Record::Wrap { line, column }, 9))
}

fn first_unwrap(bytes: &[u8]) -> Result<(Record<'_>, u64), Gap>
    requires { IsSomeAnd (slice_get bytes.now 0) (λ tag. tag ≡ 0x55) }
    ensures { ReadsRecord bytes.now result }
{
    let line = number_at(bytes, 1, MAX_NUMBER)?;
    Ok((Record::Unwrap { line }, 5))
}

fn first_insert(bytes: &[u8]) -> Result<(Record<'_>, u64), Gap>
    requires { IsSomeAnd (slice_get bytes.now 0) (λ tag. tag ≡ 0x49) }
    ensures { ReadsRecord bytes.now result }
{
    let line = number_at(bytes, 1, MAX_NUMBER)?;
    let column = number_at(bytes, 5, MAX_NUMBER)?;
    let length = number_at(bytes, 9, MAX_TEXT_LENGTH)?;
    let rest = &bytes[13..];
    if rest.len() < length as usize {
        return Err(Gap::Cut);
    }
    let text = &rest[..length as usize];
    Ok((Record::Insert { line, column, text }, 13 + length as u64))
}

fn first_remove(bytes: &[u8]) -> Result<(Record<'_>, u64), Gap>
    requires { IsSomeAnd (slice_get bytes.now 0) (λ tag. tag ≡ 0x52) }
    ensures { ReadsRecord bytes.now result }
{
    let line = number_at(bytes, 1, MAX_NUMBER)?;
    let start = number_at(bytes, 5, MAX_NUMBER)?;
    let end = number_at(bytes, 9, MAX_NUMBER)?;
    Ok((Record::Remove { line, start, end }, 13))
}

// Reads a number of at most `most` at an offset, of which the bytes may be missing.
fn number_at(bytes: &[u8], at: usize, most: u32) -> Result<u32, Gap>
    requires { at ≤ length bytes.now }
    ensures { ReadsNumber most at bytes.now result }
{
    let rest = &bytes[at..];
    let count = rest.len().min(4);
    // Zeros in place of missing bytes: the least number that begins with those that are there.
    let mut field = [0; 4];
    field[..count].copy_from_slice(&rest[..count]);
    let number = u32::from_be_bytes(field);
    if number > most {
        return Err(Gap::Fault { at: at as u64 });
    }
    if count < 4 {
        return Err(Gap::Cut);
    }
    Ok(number)
}
