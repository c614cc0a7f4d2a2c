//! What a saved file and its swap file recover to, line by line.
ghost use Rattle.std.specs.Prelude.{◌≡◌, ◌++◌, OnOk, OnErr};
ghost use Rattle.kte_script.specs.Spelled.{Keeps};
ghost use Rattle.kte_report.specs.Recovery.{transactions_line, tail_line, damage_line, tail_lines, file_lines, recovered_text, damaged_text};

use crate::report::{push_digest, push_number_line, push_text};
use kte_recover::{Damage, Recovered, Tail};
use kte_text::{Eol, Lines, digest_of_saved};
use std::alloc::AllocError;

/// Appends what was recovered from a swap file without a record at fault: how many transactions
/// count, how the records end, the digest of the file that saving the text would write, and the
/// text. If out of memory, `out` is unchanged.
pub fn push_recovered(found: &Recovered, out: &mut Vec<u8>) -> Result<(), AllocError>
    ensures ok { OnOk result (out.new.items ≡ out.old.items ++ recovered_text found.now) }
    ensures err { OnErr result (out.new.items ≡ out.old.items) }
{
    let start = out.len();
    let pushed = push_recovered_parts(found, out);
    if pushed.is_err() {
        out.truncate(start);
    }
    pushed
}

/// Appends what was recovered from a swap file with a record at fault, as [`push_recovered`] does,
/// with the place of the record for how the records end. If out of memory, `out` is unchanged.
pub fn push_damaged(damage: &Damage, out: &mut Vec<u8>) -> Result<(), AllocError>
    ensures ok { OnOk result (out.new.items ≡ out.old.items ++ damaged_text damage.now) }
    ensures err { OnErr result (out.new.items ≡ out.old.items) }
{
    let start = out.len();
    let pushed = push_damaged_parts(damage, out);
    if pushed.is_err() {
        out.truncate(start);
    }
    pushed
}

/// Appends the first two lines of what [`push_recovered`] appends: how many transactions count, and
/// how the records end. If out of memory, `out` is unchanged.
pub fn push_tail(done: u64, tail: Tail, out: &mut Vec<u8>) -> Result<(), AllocError>
    ensures ok { OnOk result (out.new.items ≡ out.old.items ++ tail_lines done tail) }
    ensures err { OnErr result (out.new.items ≡ out.old.items) }
{
    let start = out.len();
    let pushed = push_tail_lines(done, tail, out);
    if pushed.is_err() {
        out.truncate(start);
    }
    pushed
}

/// Appends the lines of a recovery without a record at fault.
#[tactic(auto, using(crate::proofs::ReportLemmas::keeps))]
fn push_recovered_parts(found: &Recovered, out: &mut Vec<u8>) -> Result<(), AllocError>
    ensures ok { OnOk result (out.new.items ≡ out.old.items ++ recovered_text found.now) }
    ensures err { OnErr result (Keeps out.old.items out.new.items) }
{
    push_tail_lines(found.done, found.tail, out)?;
    push_file(&found.text, found.eol, found.bom, out)
}

/// Appends the lines of a recovery with a record at fault.
#[tactic(auto, using(crate::proofs::ReportLemmas::keeps, crate::proofs::ReportLemmas::keeps_two))]
fn push_damaged_parts(damage: &Damage, out: &mut Vec<u8>) -> Result<(), AllocError>
    ensures ok { OnOk result (out.new.items ≡ out.old.items ++ damaged_text damage.now) }
    ensures err { OnErr result (Keeps out.old.items out.new.items) }
{
    push_number_line(out, b"transactions", damage.done)?;
    push_number_line(out, b"tail damaged", damage.at)?;
    push_file(&damage.text, damage.eol, damage.bom, out)
}

/// Appends how many transactions count, and how the records end.
#[tactic(auto, using(crate::proofs::ReportLemmas::keeps))]
fn push_tail_lines(done: u64, tail: Tail, out: &mut Vec<u8>) -> Result<(), AllocError>
    ensures ok { OnOk result (out.new.items ≡ out.old.items ++ tail_lines done tail) }
    ensures err { OnErr result (Keeps out.old.items out.new.items) }
{
    push_number_line(out, b"transactions", done)?;
    push_tail_line(tail, out)
}

/// Appends how the records end.
fn push_tail_line(tail: Tail, out: &mut Vec<u8>) -> Result<(), AllocError>
    ensures ok { OnOk result (out.new.items ≡ out.old.items ++ tail_line tail) }
    ensures err { OnErr result (Keeps out.old.items out.new.items) }
{
    match tail {
        Tail::Clean => out.extend_from_slice(b"tail clean\n"),
        Tail::Torn => out.extend_from_slice(b"tail torn\n"),
    }
}

/// Appends a text, after the digest of the file that saving it would write.
#[tactic(auto, using(crate::proofs::ReportLemmas::keeps))]
fn push_file<L: Lines>(lines: &L, eol: Eol, bom: bool, out: &mut Vec<u8>) -> Result<(), AllocError>
    ensures ok { OnOk result (out.new.items
        ≡ out.old.items ++ file_lines (L.text lines.now) eol bom) }
    ensures err { OnErr result (Keeps out.old.items out.new.items) }
{
    push_digest(out, digest_of_saved(lines, eol, bom))?;
    push_text(lines, out)
}
