//! Laws of documents. The function does nothing: its contract is the law, for every loaded text,
//! trail, revision, span and behaviour.
ghost use Rattle.kte_doc.specs.Trail.{LandsWhereItStands};

/// A span that was read at a revision lands where a range made at that revision is. So a finding of
/// a reader who saw an earlier text is on the same characters as a range that was there all along.
pub fn routes()
    ensures agree { LandsWhereItStands }
{}
