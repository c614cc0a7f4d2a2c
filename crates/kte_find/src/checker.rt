ghost use Rattle.std.specs.Prelude.{◌≡◌, IfOk};
ghost use Rattle.kte_find.specs.Rule.{HasWord};
ghost use Rattle.kte_find.specs.Findings.{AreFindings};

use crate::brackets::find_lone;
use crate::lines::find_in_lines;
use crate::rule::Rule;
use kte_place::Spans;
use kte_text::Text;
use std::alloc::{AllocError, Global};

/// What carries out rules.
pub trait Checker {
    /// Returns the first [`MAX_FINDINGS`](crate::MAX_FINDINGS) findings of the rule in the text, in
    /// the order of their starts. Fails if out of memory.
    fn check(&self, alloc: Global, rule: &Rule, text: &Text) -> Result<Spans, AllocError>
        requires { HasWord rule.now }
        ensures { IfOk result (AreFindings rule.now text.now) };
}

/// A checker that reads the text once, from its start to its end.
#[derive(Clone, Copy, Debug, PartialEq, Eq)]
pub struct PlainChecker;

impl Checker for PlainChecker {
    fn check(&self, alloc: Global, rule: &Rule, text: &Text) -> Result<Spans, AllocError> {
        match rule {
            Rule::Pairs => find_lone(alloc, text),
            _ => find_in_lines(alloc, rule, text),
        }
    }
}
