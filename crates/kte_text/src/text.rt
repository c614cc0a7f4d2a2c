ghost use Rattle.std.specs.Prelude.{◌≡◌, ℕ, ◌<◌, ◌≤◌, ◌↔◌, List, [], ◌∷◌, ◌++◌, length, IfOk, OnOk, OnErr, IsTrue};
ghost use Rattle.kte_text.specs.Texts.{IsText, line_at, size_of};
ghost use Rattle.kte_text.specs.declared.TheConstants.{MAX_SIZE};

use crate::line::Line;
use crate::lines::Lines;
use std::alloc::{AllocError, Global};
use std::marker::Model;

/// A text: at least one line, and at most `MAX_SIZE` units and line ends. Its size counts its
/// units, and one for the end between each two lines.
#[derive(Debug, Drop)]
pub struct Text {
    lines: Vec<Line>,
    // The units, and one for the end between each two lines.
    size: u64,
}

impl Model for Text {
    ghost use Rattle.std.specs.Prelude.{◌≡◌, ℕ, List};
    ghost use Rattle.kte_text.specs.Texts.{IsText, size_of};

    ghost Value = { List (List ℕ) };

    ghost view = { λ text. text.lines.items };

    ghost invariant = { λ text. IsText text.lines.items × (text.size ≡ size_of text.lines.items) };
}

impl Text {
    /// Creates the text of one line.
    pub fn of(alloc: Global, line: Line) -> Result<Text, AllocError>
        requires { length line ≤ MAX_SIZE }
        ensures { IfOk result (λ text. text ≡ line ∷ []) }
    {
        let size = line.units().len() as u64;
        let mut lines = Vec::with_capacity(alloc, 1)?;
        lines.push(line)?;
        Ok(Text { lines, size })
    }

    /// Creates the text of these lines.
    pub(crate) fn of_lines(lines: Vec<Line>) -> Text
        requires { IsText lines.items }
        ensures { result ≡ lines.items }
    {
        let units = lines.iter().map(|line| line.len()).sum::<u64>();
        let size = units + lines.len() as u64 - 1;
        Text { lines, size }
    }

    /// Returns the lines themselves, without copying.
    pub fn into_lines(self) -> Vec<Line>
        ensures lines { result.items ≡ self }
        ensures is_text { IsText self }
    {
        self.lines
    }

    /// Appends a line. If out of memory, the text is unchanged.
    pub fn push(&mut self, line: Line) -> Result<(), AllocError>
        requires { size_of (self.old ++ line ∷ []) ≤ MAX_SIZE }
        ensures ok { OnOk result (self.new ≡ self.old ++ line ∷ []) }
        ensures err { OnErr result (self.new ≡ self.old) }
    {
        let added = line.units().len() as u64 + 1;
        self.lines.push(line)?;
        self.size += added;
        Ok(())
    }

    /// Returns the number of lines.
    pub fn len(&self) -> u64
        ensures { result ≡ length self.now }
    {
        self.lines.len() as u64
    }

    /// Returns line `n`, from 0.
    pub fn get(&self, n: u64) -> &Line
        requires { n < length self.now }
        ensures { result.now ≡ line_at self.now n }
    {
        &self.lines[n as usize]
    }

    /// Returns an equal text.
    pub fn copy(&self, alloc: Global) -> Result<Text, AllocError>
        ensures { IfOk result (λ text. text ≡ self.now) }
    {
        let mut lines = Vec::with_capacity(alloc, self.lines.len())?;
        for line in &self.lines {
            lines.push(line.copy(alloc)?)?;
        }
        Ok(Text {
            lines,
            size: self.size,
        })
    }
}

impl Lines for Text {
    ghost use Rattle.std.specs.Prelude.{ℕ};

    ghost text = { λ text. text };

    fn lines(&self) -> u32 {
        self.lines.len() as u32
    }

    fn line(&self, n: u32) -> &[u16] {
        self.lines[n as usize].units()
    }

    fn line_hinted(&self, n: u32, _hint: &mut u64) -> &[u16] {
        self.line(n)
    }

    fn size(&self) -> u64 {
        self.size
    }
}
