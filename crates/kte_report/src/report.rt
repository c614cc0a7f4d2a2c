//! The report of a core, line by line.
ghost use Rattle.std.specs.Prelude.{◌≡◌, ◌∷◌, [], ◌++◌, codes, length, IfOk, OnOk, OnErr, Some};
ghost use Rattle.std.specs.List.{flat_map};
ghost use Rattle.std.specs.FinMap as map;
ghost use Rattle.kte_text.specs.Units.{IsLine};
ghost use Rattle.kte_core.specs.Editing.{saved_form};
ghost use Rattle.kte_core.specs.Replay.{present};
ghost use Rattle.kte_script.specs.Fields.{spell_number};
ghost use Rattle.kte_script.specs.Spelled.{Keeps};
ghost use Rattle.kte_report.specs.Report.{number_line, kind_text, range_line, digits_line, digest_line, line_text, text_lines, size_lines, group_lines, count_lines, report, summary};
ghost use Rattle.kte_report.specs.Shown.{shown_line, shown_lines};

use crate::hidden::push_hidden;
use kte_core::Core;
use kte_doc::Doc;
use kte_place::Span;
use kte_ranges::{RangeInfo, RangeKind};
use kte_script::push::{push_empty, push_expand, push_number, push_span_or_invalid};
use kte_text::{Digest, Lines, digest_of_saved, push_utf8};
use std::alloc::{AllocError, Global};

/// Returns the report of a core.
pub fn write_report(alloc: Global, core: &Core) -> Result<Vec<u8>, AllocError>
    ensures { IfOk result (λ bytes. bytes.items ≡ report (present core.now)) }
{
    let mut out = Vec::new(alloc);
    push_report(core, &mut out)?;
    Ok(out)
}

/// Appends the report of a core, as [`write_report`] returns it. If out of memory, `out` is
/// unchanged.
pub fn push_report(core: &Core, out: &mut Vec<u8>) -> Result<(), AllocError>
    ensures ok { OnOk result (out.new.items ≡ out.old.items ++ report (present core.now)) }
    ensures err { OnErr result (out.new.items ≡ out.old.items) }
{
    let start = out.len();
    let pushed = push_parts(core, out);
    if pushed.is_err() {
        out.truncate(start);
    }
    pushed
}

/// Appends the parts of the report of a core. If out of memory, some may have been appended.
#[tactic(auto, using(crate::proofs::ReportLemmas::keeps, crate::proofs::ReportLemmas::keeps_two))]
fn push_parts(core: &Core, out: &mut Vec<u8>) -> Result<(), AllocError>
    ensures ok { OnOk result (out.new.items ≡ out.old.items ++ report (present core.now)) }
    ensures err { OnErr result (Keeps out.old.items out.new.items) }
{
    let doc = core.doc();
    out.extend_from_slice(b"report\n")?;
    push_counts(core, out)?;
    push_ranges(doc, out)?;
    push_hidden(core, out)?;
    push_saved_digest(core, out)?;
    push_text(doc, out)
}

/// Appends the summary of a run: the number of its commands, that of its events, the counts of the
/// core after it, and how many transactions were recovered from its swap file. If out of memory,
/// `out` is unchanged.
pub fn push_summary(
    core: &Core,
    commands: u32,
    recovered: u64,
    out: &mut Vec<u8>,
) -> Result<(), AllocError>
    ensures ok { OnOk result (out.new.items ≡ out.old.items
        ++ summary commands (length core.now.events) (present core.now) recovered) }
    ensures err { OnErr result (out.new.items ≡ out.old.items) }
{
    let start = out.len();
    let pushed = push_summary_parts(core, commands, recovered, out);
    if pushed.is_err() {
        out.truncate(start);
    }
    pushed
}

/// Appends the parts of the summary of a run. If out of memory, some may have been appended.
#[tactic(auto, using(crate::proofs::ReportLemmas::keeps_all))]
fn push_summary_parts(
    core: &Core,
    commands: u32,
    recovered: u64,
    out: &mut Vec<u8>,
) -> Result<(), AllocError>
    ensures ok { OnOk result (out.new.items ≡ out.old.items
        ++ summary commands (length core.now.events) (present core.now) recovered) }
    ensures err { OnErr result (Keeps out.old.items out.new.items) }
{
    push_run_counts(core, commands, out)?;
    push_sizes(core, out)?;
    push_groups(core, out)?;
    push_range_count(core, out)?;
    push_saved_digest(core, out)?;
    push_number_line(out, b"recovered", recovered)
}

/// Appends how many commands a run had, and how many events its core has.
#[tactic(auto, using(crate::proofs::ReportLemmas::keeps))]
fn push_run_counts(core: &Core, commands: u32, out: &mut Vec<u8>) -> Result<(), AllocError>
    ensures ok { OnOk result (out.new.items ≡ out.old.items
        ++ (number_line (codes "commands") commands
        ++ number_line (codes "events") (length core.now.events))) }
    ensures err { OnErr result (Keeps out.old.items out.new.items) }
{
    push_number_line(out, b"commands", u64::from(commands))?;
    push_number_line(out, b"events", core.journal().len())
}

/// Appends how many ranges a core has.
#[tactic(auto, using(crate::proofs::ReportLemmas::keeps))]
fn push_range_count(core: &Core, out: &mut Vec<u8>) -> Result<(), AllocError>
    ensures ok { OnOk result (out.new.items ≡ out.old.items
        ++ number_line (codes "ranges") (length (map.entries (present core.now).ranges))) }
    ensures err { OnErr result (Keeps out.old.items out.new.items) }
{
    let ids = core.doc().range_ids(*out.allocator())?;
    push_number_line(out, b"ranges", ids.len() as u64)
}

/// Appends the counts of a core.
#[tactic(auto, using(crate::proofs::ReportLemmas::keeps, crate::proofs::ReportLemmas::keeps_two))]
fn push_counts(core: &Core, out: &mut Vec<u8>) -> Result<(), AllocError>
    ensures ok { OnOk result (out.new.items ≡ out.old.items ++ count_lines (present core.now)) }
    ensures err { OnErr result (Keeps out.old.items out.new.items) }
{
    push_sizes(core, out)?;
    push_number_line(out, b"kept", core.doc().stored().len() as u64)?;
    push_groups(core, out)
}

/// Appends how many lines, primitives, and units with line ends a core has.
#[tactic(auto, using(crate::proofs::ReportLemmas::keeps, crate::proofs::ReportLemmas::keeps_two))]
fn push_sizes(core: &Core, out: &mut Vec<u8>) -> Result<(), AllocError>
    ensures ok { OnOk result (out.new.items ≡ out.old.items ++ size_lines (present core.now)) }
    ensures err { OnErr result (Keeps out.old.items out.new.items) }
{
    let doc = core.doc();
    push_number_line(out, b"lines", u64::from(doc.lines()))?;
    push_number_line(out, b"revision", doc.revision())?;
    push_number_line(out, b"size", doc.size())
}

/// Appends how many groups there are to undo, and to redo.
fn push_groups(core: &Core, out: &mut Vec<u8>) -> Result<(), AllocError>
    ensures ok { OnOk result (out.new.items ≡ out.old.items ++ group_lines (present core.now)) }
    ensures err { OnErr result (Keeps out.old.items out.new.items) }
{
    let (undo, redo) = core.undo_counts();
    push_numbers_line(out, b"undo", undo, redo)
}

/// Appends the digest of the file that saving would write now.
fn push_saved_digest(core: &Core, out: &mut Vec<u8>) -> Result<(), AllocError>
    ensures ok { OnOk result (out.new.items ≡ out.old.items
        ++ digest_line (saved_form (present core.now).editing)) }
    ensures err { OnErr result (Keeps out.old.items out.new.items) }
{
    let (eol, bom) = core.line_end();
    push_digest(out, digest_of_saved(core.doc(), eol, bom))
}

/// Appends a line of a word and a number.
#[tactic(auto, using(crate::proofs::ReportLemmas::keeps))]
pub(crate) fn push_number_line(
    out: &mut Vec<u8>,
    word: &[u8],
    number: u64,
) -> Result<(), AllocError>
    ensures ok { OnOk result (out.new.items ≡ out.old.items ++ number_line word.now number) }
    ensures err { OnErr result (Keeps out.old.items out.new.items) }
{
    out.extend_from_slice(word)?;
    push_number(out, number)?;
    out.push(b'\n')?;
    Ok(())
}

/// Appends a line of a word and two numbers.
#[tactic(auto, using(crate::proofs::ReportLemmas::keeps, crate::proofs::ReportLemmas::keeps_two))]
pub(crate) fn push_numbers_line(
    out: &mut Vec<u8>,
    word: &[u8],
    first: u64,
    second: u64,
) -> Result<(), AllocError>
    ensures ok { OnOk result (out.new.items ≡ out.old.items
        ++ word.now ++ spell_number first ++ spell_number second ++ 10 ∷ []) }
    ensures err { OnErr result (Keeps out.old.items out.new.items) }
{
    out.extend_from_slice(word)?;
    push_number(out, first)?;
    push_number(out, second)?;
    out.push(b'\n')?;
    Ok(())
}

/// Appends how many ranges a document has, and then each of them.
#[tactic(auto, using(crate::proofs::ReportLemmas::keeps))]
fn push_ranges(doc: &Doc, out: &mut Vec<u8>) -> Result<(), AllocError>
    ensures ok { OnOk result (out.new.items ≡ out.old.items ++ shown_lines doc.now.ranges) }
    ensures err { OnErr result (Keeps out.old.items out.new.items) }
{
    let ids = doc.range_ids(*out.allocator())?;
    push_number_line(out, b"ranges", ids.len() as u64)?;
    for id in &ids {
        push_range(doc, *id, out)?;
    }
    Ok(())
}

/// Appends the line of the range of this number, if there is one.
#[tactic(auto, using(crate::proofs::ReportLemmas::keeps))]
fn push_range(doc: &Doc, id: u64, out: &mut Vec<u8>) -> Result<(), AllocError>
    ensures ok { OnOk result ((range : _) → map.get doc.now.ranges id ≡ Some range
        → out.new.items ≡ out.old.items ++ shown_line id range) }
    ensures err { OnErr result (Keeps out.old.items out.new.items) }
{
    let Some(info) = doc.info(id) else {
        return Ok(());
    };
    let span = doc.range(id).unwrap_or(None);
    push_range_line(out, id, &info, &span)
}

/// Appends the line of a range that is at a span.
#[tactic(auto, using(crate::proofs::ReportLemmas::keeps, crate::proofs::ReportLemmas::keeps_two))]
fn push_range_line(
    out: &mut Vec<u8>,
    id: u64,
    info: &RangeInfo,
    span: &Option<Span>,
) -> Result<(), AllocError>
    ensures ok { OnOk result (out.new.items ≡ out.old.items
        ++ range_line id info.now.kind info.now.expand info.now.empty span.now) }
    ensures err { OnErr result (Keeps out.old.items out.new.items) }
{
    out.extend_from_slice(b"range")?;
    push_number(out, id)?;
    push_kind(out, info.kind)?;
    push_expand(out, info.expand)?;
    push_empty(out, info.empty)?;
    push_span_or_invalid(out, span)?;
    out.push(b'\n')?;
    Ok(())
}

/// Appends whose a range is.
#[tactic(auto, using(crate::proofs::ReportLemmas::keeps))]
fn push_kind(out: &mut Vec<u8>, kind: RangeKind) -> Result<(), AllocError>
    ensures ok { OnOk result (out.new.items ≡ out.old.items ++ kind_text kind) }
    ensures err { OnErr result (Keeps out.old.items out.new.items) }
{
    match kind {
        RangeKind::User => out.extend_from_slice(b" user"),
        RangeKind::Fold => out.extend_from_slice(b" fold"),
        RangeKind::Job { job } => {
            out.extend_from_slice(b" job")?;
            push_number(out, u64::from(job))
        }
    }
}

/// Appends the line of a digest.
#[tactic(auto, using(crate::proofs::ReportLemmas::keeps))]
pub(crate) fn push_digest(out: &mut Vec<u8>, digest: Digest) -> Result<(), AllocError>
    ensures ok { OnOk result (out.new.items ≡ out.old.items ++ digits_line digest.0) }
    ensures err { OnErr result (Keeps out.old.items out.new.items) }
{
    let digits = digest.hex(*out.allocator())?;
    out.extend_from_slice(b"digest ")?;
    out.extend_from_slice(digits.as_bytes())?;
    out.push(b'\n')?;
    Ok(())
}

/// Appends the line `text`, and then each line of the text.
#[tactic(auto, using(crate::proofs::ReportLemmas::keeps))]
pub(crate) fn push_text<L: Lines>(lines: &L, out: &mut Vec<u8>) -> Result<(), AllocError>
    ensures ok { OnOk result (out.new.items ≡ out.old.items ++ text_lines (L.text lines.now)) }
    ensures err { OnErr result (Keeps out.old.items out.new.items) }
{
    let mut hint = 0;
    out.extend_from_slice(b"text\n")?;
    for n in 0..lines.lines() {
        push_line(out, lines.line_hinted(n, &mut hint))?;
    }
    Ok(())
}

/// Appends a line of the text.
#[tactic(auto, using(crate::proofs::ReportLemmas::keeps))]
fn push_line(out: &mut Vec<u8>, units: &[u16]) -> Result<(), AllocError>
    requires { IsLine units.now }
    ensures ok { OnOk result (out.new.items ≡ out.old.items ++ line_text units.now) }
    ensures err { OnErr result (Keeps out.old.items out.new.items) }
{
    out.push(b'|')?;
    push_utf8(units, out)?;
    out.push(b'\n')?;
    Ok(())
}
