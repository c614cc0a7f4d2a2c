ghost use Rattle.std.specs.Prelude.{◌≡◌};
ghost use Rattle.kte_words.specs.Words.{file_of};

/// A command of the program.
#[derive(Clone, Copy, Debug, PartialEq, Eq)]
pub enum Words {
    /// `edit FILE`: edits the text of a file.
    Edit {
        /// The index, from 0, of the word that names the file.
        file: u32,
    },
    /// `check N FILE`: edits the text of a file, while N checkers beside the editor do the checks.
    Check {
        /// The number of checkers, from 1 to [`MAX_WORKERS`](crate::MAX_WORKERS).
        workers: u32,
        /// The index, from 0, of the word that names the file.
        file: u32,
    },
    /// `recover FILE`: prints the text that a file and the swap file beside it recover to.
    Recover {
        /// The index, from 0, of the word that names the file.
        file: u32,
    },
    /// `gen NUMBER COUNT`: makes a script, edits an empty text in memory with it, recovers its swap
    /// file and prints a summary.
    Gen {
        /// The number that the script is made from.
        number: u64,
        /// The number of commands of the script, from 1 to [`MAX_COUNT`](crate::MAX_COUNT).
        count: u32,
    },
}

impl Words {
    /// Returns the index, from 0, of the word that names the command's file, if it has one.
    pub fn file(&self) -> Option<u32>
        ensures { result ≡ file_of self.now }
    {
        match self {
            Words::Edit { file } | Words::Check { file, .. } | Words::Recover { file } => {
                Some(*file)
            }
            Words::Gen { .. } => None,
        }
    }
}
