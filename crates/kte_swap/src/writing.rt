//! The bytes of a transaction.
ghost use Rattle.std.specs.Prelude.{◌≡◌, ◌≤◌, ◌+◌, ◌++◌, length, take, drop, OnOk};
ghost use Rattle.std.specs.List.{AllByRecursion};
ghost use Rattle.kte_text.specs.Units.{IsLine, utf8_of};
ghost use Rattle.kte_text.specs.declared.primitive.Primitive.{Primitive};
ghost use Rattle.kte_record.specs.Grammar.{inserts, number, spelling, IsRecord};
ghost use Rattle.kte_record.specs.Transactions.{record_of, piece, records, IsWritable};
ghost use Rattle.kte_swap.specs.Swap.{HasRecord};

use kte_record::{Record, write, write_header};
use kte_text::{Batch, Digest, Line, Primitive, push_utf8};
use std::alloc::AllocError;

/// Puts a transaction into `out`, in place of what it held. The transaction has a number, from 0;
/// the header comes before the first one.
pub(crate) fn write_piece(
    number: u64,
    base: &Digest,
    batch: &Batch,
    out: &mut Vec<u8>,
) -> Result<(), AllocError>
    requires { AllByRecursion HasRecord batch.now }
    ensures bytes { OnOk result (out.new.items ≡ piece number base.now.0 batch.now) }
    ensures writable { OnOk result (AllByRecursion IsWritable batch.now) }
{
    out.clear();
    if number == 0 {
        write_header(base, out)?;
    }
    write(&Record::Start, out)?;
    write_records(batch, out)?;
    write(&Record::Finish, out)
}

// Appends the record of each primitive.
fn write_records(batch: &Batch, out: &mut Vec<u8>) -> Result<(), AllocError>
    requires { AllByRecursion HasRecord batch.now }
    ensures bytes { OnOk result (out.new.items ≡ out.old.items ++ records batch.now) }
    ensures writable { OnOk result (AllByRecursion IsWritable batch.now) }
{
    for n in 0..batch.len() {
        write_primitive(batch.get(n), out)?;
    }
    Ok(())
}

// Appends the record of a primitive.
fn write_primitive(primitive: &Primitive, out: &mut Vec<u8>) -> Result<(), AllocError>
    requires { HasRecord primitive.now }
    ensures bytes { OnOk result
        (out.new.items ≡ out.old.items ++ spelling (record_of primitive.now)) }
    ensures writable { OnOk result (IsWritable primitive.now) }
{
    match primitive {
        Primitive::Wrap { line, column } => {
            let (line, column) = (*line, *column as u32);
            write(&Record::Wrap { line, column }, out)
        }
        Primitive::Unwrap { line } => write(&Record::Unwrap { line: *line }, out),
        Primitive::Insert { line, column, text } => {
            write_insertion(*line, *column as u32, text, out)
        }
        Primitive::Remove {
            line,
            column,
            length,
        } => {
            let (line, start, end) = (*line, *column as u32, (*column + *length) as u32);
            write(&Record::Remove { line, start, end }, out)
        }
    }
}

// Appends the record of an insertion: first that of an empty text, and then the text, whose length
// is known once it is there. So the text is copied only once.
fn write_insertion(line: u32, column: u32, text: &Line, out: &mut Vec<u8>) -> Result<(), AllocError>
    requires { IsRecord (inserts line column (utf8_of text.now)) }
    ensures bytes { OnOk result
        (out.new.items ≡ out.old.items ++ spelling (inserts line column (utf8_of text.now))) }
    ensures whole { OnOk result (IsLine text.now) }
{
    let record = Record::Insert {
        line,
        column,
        text: &[],
    };
    write(&record, out)?;
    let start = out.len();
    push_utf8(text.units(), out)?;
    let length = (out.len() - start) as u32;
    put_number(length, start - 4, out);
    Ok(())
}

// Puts a number in place of four bytes.
fn put_number(n: u32, at: usize, bytes: &mut [u8])
    requires { at + 4 ≤ length bytes.old }
    ensures { bytes.new ≡ take at bytes.old ++ number n ++ drop (at + 4) bytes.old }
{
    bytes[at..at + 4].copy_from_slice(&n.to_be_bytes());
}
