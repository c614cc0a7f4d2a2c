//! The lines that folds hide, as the report has them.
ghost use Rattle.std.specs.Prelude.{◌≡◌, ◌↔◌, ◌+◌, ◌-◌, [], ◌∷◌, ◌++◌, length, slice_get, IfOk, OnOk, OnErr, IsTrue, IsSomeAnd};
ghost use Rattle.std.specs.List.{flat_map};
ghost use Rattle.kte_core.specs.Folds.{is_line_hidden};
ghost use Rattle.kte_core.specs.Replay.{present};
ghost use Rattle.kte_script.specs.Spelled.{Keeps};
ghost use Rattle.kte_report.specs.Report.{hide_line, runs_of, hidden_text, hidden_lines};

use crate::report::{push_number_line, push_numbers_line};
use kte_core::Core;
use kte_text::Lines;
use std::alloc::{AllocError, Global};

/// Rising lines, as their maximal runs.
#[derive(Drop)]
struct Runs {
    /// How many lines there are.
    lines: u32,
    /// The first and the last line of each run.
    ends: Vec<(u32, u32)>,
}

/// Appends how many lines of a core are hidden, and then the maximal runs of them.
#[tactic(auto, using(crate::proofs::ReportLemmas::keeps))]
pub(crate) fn push_hidden(core: &Core, out: &mut Vec<u8>) -> Result<(), AllocError>
    ensures ok { OnOk result (out.new.items ≡ out.old.items
        ++ hidden_text (hidden_lines (present core.now))) }
    ensures err { OnErr result (Keeps out.old.items out.new.items) }
{
    let hidden = hidden_runs(*out.allocator(), core)?;
    push_number_line(out, b"hidden", u64::from(hidden.lines))?;
    push_runs(out, hidden.ends.as_slice())
}

/// Appends a line for each run.
#[tactic(auto, using(crate::proofs::ReportLemmas::keeps))]
fn push_runs(out: &mut Vec<u8>, runs: &[(u32, u32)]) -> Result<(), AllocError>
    ensures ok { OnOk result (out.new.items ≡ out.old.items ++ flat_map hide_line runs.now) }
    ensures err { OnErr result (Keeps out.old.items out.new.items) }
{
    for (first, last) in runs {
        push_numbers_line(out, b"hide", u64::from(*first), u64::from(*last))?;
    }
    Ok(())
}

/// Returns the hidden lines of a core.
fn hidden_runs(alloc: Global, core: &Core) -> Result<Runs, AllocError>
    ensures lines { IfOk result (λ hidden. hidden.lines
        ≡ length (hidden_lines (present core.now))) }
    ensures ends { IfOk result (λ hidden. hidden.ends.items
        ≡ runs_of (hidden_lines (present core.now))) }
{
    let mut hidden = Runs {
        lines: 0,
        ends: Vec::new(alloc),
    };
    if hides_nothing(core) {
        return Ok(hidden);
    }
    for line in 0..core.doc().lines() {
        if is_hidden(core, line) {
            add_line(&mut hidden.ends, line)?;
            hidden.lines += 1;
        }
    }
    Ok(hidden)
}

/// Adds a line after those of the runs: it extends the last run if no line is between them.
fn add_line(runs: &mut Vec<(u32, u32)>, line: u32) -> Result<(), AllocError>
    ensures { OnOk result ((lines : _) → runs.old.items ≡ runs_of lines
        → runs.new.items ≡ runs_of (lines ++ line ∷ [])) }
{
    if is_next(runs.as_slice(), line) {
        let last = runs.len() - 1;
        runs[last].1 = line;
        return Ok(());
    }
    runs.push((line, line))?;
    Ok(())
}

/// Returns whether there is a run, and the last one ends on the line before this one.
fn is_next(runs: &[(u32, u32)], line: u32) -> bool
    ensures { IsTrue result ↔ IsSomeAnd (slice_get runs.now (length runs.now - 1))
        (λ run. run.1 + 1 ≡ line) }
{
    match runs.last() {
        Some((_, last)) => *last < line && line - *last == 1,
        None => false,
    }
}

/// Returns whether folds hide no line, without a walk over the lines.
fn hides_nothing(core: &Core) -> bool
    ensures { IsTrue result ↔ (hidden_lines (present core.now) ≡ []) }
{
    let doc = core.doc();
    let last = doc.lines() - 1;
    core.folds().visible_of(doc, last) == Some(last)
}

/// Returns whether folds hide a line.
fn is_hidden(core: &Core, line: u32) -> bool
    ensures { result ≡ is_line_hidden (present core.now) line }
{
    core.folds().hidden(core.doc(), line)
}
