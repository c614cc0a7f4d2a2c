//! Drawing numbers.
ghost use Rattle.std.specs.Prelude.{◌≡◌, ◌<◌, ◌≤◌, ◌++◌, length, get_or, OnOk};
ghost use Rattle.std.specs.List.{All};
ghost use Rattle.kte_gen.specs.declared.TheConstants.{MAX_LETTERS};
ghost use Rattle.kte_gen.specs.Draws.{next, drawn, skip, letters};
ghost use Rattle.kte_gen.specs.Commands.{line_of, room_of, column_of};

use std::alloc::AllocError;

/// A place in a text, and the length of its line.
#[derive(Clone, Copy)]
pub struct Place {
    /// Its line, from 0.
    pub line: usize,
    /// The length of the line, in letters.
    pub length: u64,
    /// Its column, at most the length.
    pub column: u64,
}

/// Draws a number below `below`.
pub fn draw(x: &mut u64, below: u64) -> u64
    requires { 0 < below }
    ensures state { x.new ≡ next x.old }
    ensures value { result ≡ drawn below (next x.old) }
    ensures less { result < below }
{
    *x = x
        .wrapping_mul(6_364_136_223_846_793_005)
        .wrapping_add(1_442_695_040_888_963_407);
    (*x >> 33) % below
}

/// Returns the length of a line.
pub fn length_at(lengths: &[u64], line: usize) -> u64
    requires inside { line < length lengths.now }
    requires small { All (λ n. n ≤ MAX_LETTERS) lengths.now }
    ensures value { result ≡ get_or lengths.now line 0 }
    ensures small { result ≤ MAX_LETTERS }
{
    lengths[line]
}

/// Draws a line, and then a column of it.
pub fn draw_place(x: &mut u64, lengths: &[u64]) -> Place
    requires some { 0 < length lengths.now }
    requires small { All (λ n. n ≤ MAX_LETTERS) lengths.now }
    ensures state { x.new ≡ next (next x.old) }
    ensures line { result.line ≡ line_of x.old lengths.now }
    ensures length { result.length ≡ room_of x.old lengths.now }
    ensures column { result.column ≡ column_of x.old lengths.now }
    ensures inside { result.line < length lengths.now }
    ensures within { result.column ≤ result.length }
    ensures small { result.length ≤ MAX_LETTERS }
{
    let line = draw(x, lengths.len() as u64) as usize;
    let length = length_at(lengths, line);
    let column = draw(x, length + 1);
    Place {
        line,
        length,
        column,
    }
}

/// Draws letters, and appends them.
pub fn push_letters(x: &mut u64, count: u64, script: &mut Vec<u8>) -> Result<(), AllocError>
    ensures state { OnOk result (x.new ≡ skip count x.old) }
    ensures ok { OnOk result (script.new.items ≡ script.old.items ++ letters count x.old) }
{
    for _ in 0..count {
        let letter = draw(x, 26) as u8;
        script.push(b'a' + letter)?;
    }
    Ok(())
}
