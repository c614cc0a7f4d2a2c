ghost use Rattle.std.specs.Prelude.{◌≡◌, [], None, IfOk, IsOk};
ghost use Rattle.std.specs.Option.{option_to_list};
ghost use Rattle.kte_search.specs.Found.{all_matches, first_match, last_match};
ghost use Rattle.kte_command.specs.Commands.{HasPattern};
ghost use Rattle.kte_core.specs.React.{told_found};

use crate::reply::{Refusal, Reply};
use kte_doc::Doc;
use kte_place::{Place, Span, Spans};
use kte_search::Query;
use std::alloc::{AllocError, Global};

/// Looks for the first match that starts at or after a place. No match does not allocate.
pub(crate) fn find(
    alloc: Global,
    doc: &Doc,
    from: Place,
    query: &Query,
) -> Result<Reply, AllocError>
    requires { HasPattern query.now }
    ensures reply { IfOk result (λ reply. reply
        ≡ told_found (option_to_list (first_match query.now doc.now.text from))) }
    ensures refused { first_match query.now doc.now.text from ≡ None → IsOk result }
{
    told_one(alloc, kte_search::find(doc, query, from))
}

/// Looks for the match that starts last among those that end at or before a place. No match does
/// not allocate.
pub(crate) fn find_back(
    alloc: Global,
    doc: &Doc,
    before: Place,
    query: &Query,
) -> Result<Reply, AllocError>
    requires { HasPattern query.now }
    ensures reply { IfOk result (λ reply. reply
        ≡ told_found (option_to_list (last_match query.now doc.now.text before))) }
    ensures refused { last_match query.now doc.now.text before ≡ None → IsOk result }
{
    told_one(alloc, kte_search::find_back(doc, query, before))
}

/// Looks for the matches from left to right. No match does not allocate.
pub(crate) fn all(alloc: Global, doc: &Doc, query: &Query) -> Result<Reply, AllocError>
    requires { HasPattern query.now }
    ensures reply { IfOk result (λ reply. reply
        ≡ told_found (all_matches query.now doc.now.text)) }
    ensures refused { all_matches query.now doc.now.text ≡ [] → IsOk result }
{
    Ok(told(kte_search::all(alloc, doc, query)?))
}

/// Returns the reply to a search that looks for one match.
fn told_one(alloc: Global, found: Option<Span>) -> Result<Reply, AllocError>
    ensures reply { IfOk result (λ reply. reply ≡ told_found (option_to_list found)) }
    ensures refused { found ≡ None → IsOk result }
{
    let mut spans = Spans::new(alloc);
    if let Some(span) = found {
        spans.push(span)?;
    }
    Ok(told(spans))
}

/// Returns the reply to a search that has found these matches.
fn told(spans: Spans) -> Reply
    ensures { result ≡ told_found spans }
{
    match spans.len() {
        0 => Reply::Refused(Refusal::NoMatch),
        _ => Reply::Found { spans },
    }
}
