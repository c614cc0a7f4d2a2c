ghost use Rattle.std.specs.Prelude.{◌≡◌, ◌≤◌, [], ◌∷◌, ◌++◌, length, take, OnOk};

use kte_place::{Span, Spans};
use std::alloc::AllocError;

/// The greatest number of findings that a check returns.
pub const MAX_FINDINGS: u64 = 4096;

/// Appends a finding, unless there are as many as are returned.
pub(crate) fn note(found: &mut Spans, span: Span) -> Result<(), AllocError>
    requires { length found.old ≤ MAX_FINDINGS }
    ensures { OnOk result (found.new ≡ take MAX_FINDINGS (found.old ++ span ∷ [])) }
{
    if found.len() < MAX_FINDINGS {
        found.push(span)?;
    }
    Ok(())
}
