ghost use Rattle.std.specs.Prelude.{◌≡◌, ◌≤◌, ◌∷◌, ◌++◌, length, OnOk, OnErr};
ghost use Rattle.std.specs.List.{flat_map};
ghost use Rattle.kte_record.specs.Grammar.{item_of, number, spelling, IsRecord};
ghost use Rattle.kte_record.specs.declared.record.TheConstants.{MAX_TEXT_LENGTH};

use crate::record::Record;
use std::alloc::AllocError;

/// Appends a record. If out of memory, the bytes are unchanged.
pub fn write(item: &Record, out: &mut Vec<u8>) -> Result<(), AllocError>
    requires { IsRecord (item_of item.now) }
    ensures ok { OnOk result (out.new.items ≡ out.old.items ++ spelling (item_of item.now)) }
    ensures err { OnErr result (out.new.items ≡ out.old.items) }
{
    match item {
        Record::Start => write_fields(b'S', &[], &[], out),
        Record::Finish => write_fields(b'E', &[], &[], out),
        Record::Wrap { line, column } => write_fields(b'W', &[*line, *column], &[], out),
        Record::Unwrap { line } => write_fields(b'U', &[*line], &[], out),
        Record::Insert { line, column, text } => {
            write_fields(b'I', &[*line, *column, text.len() as u32], text, out)
        }
        Record::Remove { line, start, end } => {
            write_fields(b'R', &[*line, *start, *end], &[], out)
        }
    }
}

// Appends a tag, some numbers and a text.
fn write_fields(tag: u8, numbers: &[u32], text: &[u8], out: &mut Vec<u8>) -> Result<(), AllocError>
    requires few { length numbers.now ≤ 3 }
    requires short { length text.now ≤ MAX_TEXT_LENGTH }
    ensures ok { OnOk result
        (out.new.items ≡ out.old.items ++ ((tag ∷ flat_map number numbers.now) ++ text.now)) }
    ensures err { OnErr result (out.new.items ≡ out.old.items) }
{
    out.try_reserve(1 + 4 * numbers.len() + text.len())?;
    out.push(tag).unwrap();
    for number in numbers {
        out.extend_from_slice(&number.to_be_bytes()).unwrap();
    }
    out.extend_from_slice(text).unwrap();
    Ok(())
}
