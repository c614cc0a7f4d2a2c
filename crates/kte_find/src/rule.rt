use kte_text::Line;
use std::alloc::{AllocError, Global};

/// What is looked for in a text. The rules are this project's own.
#[derive(Debug, Drop)]
pub enum Rule {
    /// Each place of a word, by itself: case counts, and no word unit stands next to it. Places may
    /// overlap.
    Word {
        /// The word, which is not empty. It may hold any units, blanks too.
        word: Line,
    },
    /// Spaces and tabs at the end of a line.
    Blanks,
    /// What a line has beyond a limit.
    Long {
        /// The length, in UTF-16 units, that a line may have.
        limit: u64,
    },
    /// Brackets that are in no pair: `(` and `)`, `[` and `]`, `{` and `}`.
    Pairs,
    /// A word that equals the word before it on the line, with only spaces and tabs between them.
    Repeat,
}

impl Rule {
    ghost use Rattle.std.specs.Prelude.{◌≡◌, IfOk};

    /// Returns an equal rule. Fails if out of memory.
    pub fn copy(&self, alloc: Global) -> Result<Rule, AllocError>
        ensures { IfOk result (λ copy. copy ≡ self.now) }
    {
        Ok(match self {
            Rule::Word { word } => Rule::Word {
                word: word.copy(alloc)?,
            },
            Rule::Blanks => Rule::Blanks,
            Rule::Long { limit } => Rule::Long { limit: *limit },
            Rule::Pairs => Rule::Pairs,
            Rule::Repeat => Rule::Repeat,
        })
    }
}
