ghost use Rattle.std.specs.Prelude.{◌≡◌, ℕ, ◌<◌, List, length};
ghost use Rattle.kte_text.specs.Texts.{IsText, line_at, size_of};

/// A holder of the lines of a text of at most `MAX_SIZE`, to look at without copying.
pub trait Lines {
    /// The text: its lines, each as its UTF-16 units.
    ghost text: { Self → List (List ℕ) };

    /// Returns the number of lines, which is at least one.
    fn lines(&self) -> u32
        ensures count { result ≡ length (text self.now) }
        ensures is_text { IsText (text self.now) };

    /// Returns the units of line `n`, from 0.
    fn line(&self, n: u32) -> &[u16]
        requires { n < length (text self.now) }
        ensures { result.now ≡ line_at (text self.now) n };

    /// Returns the same as `line`, for a walk over many lines. The walk passes one hint to each
    /// call, at first 0; an implementer may note in it where it found a line, to find the next one
    /// faster. The hint never changes the result, and may have any value.
    fn line_hinted(&self, n: u32, hint: &mut u64) -> &[u16]
        requires { n < length (text self.now) }
        ensures { result.now ≡ line_at (text self.now) n };

    /// Returns the size of the text: its units, and one for the end between each two lines.
    fn size(&self) -> u64
        ensures { result ≡ size_of (text self.now) };
}
