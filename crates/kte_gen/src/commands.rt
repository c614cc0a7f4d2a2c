//! The commands, each within the lines that the commands before it leave.
ghost use Rattle.std.specs.Prelude.{◌≡◌, ◌<◌, ◌≤◌, ◌++◌, length, OnOk};
ghost use Rattle.std.specs.List.{All};
ghost use Rattle.kte_gen.specs.declared.TheConstants.{MAX_LETTERS};
ghost use Rattle.kte_gen.specs.Commands.{with_parts, spell_numbers, insertion, wrap, unwrap, removal, range, command_of, one_more, expand_word, empty_word};

use crate::draws::{draw, draw_place, length_at, push_letters};
use itoa::Buffer;
use std::alloc::AllocError;

/// Appends numbers, a space before each.
fn push_numbers(script: &mut Vec<u8>, numbers: &[u64]) -> Result<(), AllocError>
    ensures ok { OnOk result (script.new.items
        ≡ script.old.items ++ spell_numbers numbers.now) }
{
    for number in numbers {
        let mut buffer = Buffer::new();
        script.push(b' ')?;
        script.extend_from_slice(buffer.format(*number).as_bytes())?;
    }
    Ok(())
}

/// Inserts 1 to 8 letters.
#[tactic(auto, unfolding(crate::specs::Commands::insertion))]
fn insertion(x: &mut u64, lengths: &mut Vec<u64>, script: &mut Vec<u8>) -> Result<(), AllocError>
    requires some { 0 < length lengths.old.items }
    requires small { All (λ n. n ≤ MAX_LETTERS) lengths.old.items }
    ensures ok { OnOk result (with_parts x.new lengths.new.items script.new.items
        ≡ insertion x.old lengths.old.items script.old.items) }
{
    let at = draw_place(x, lengths);
    let count = 1 + draw(x, 8);
    script.extend_from_slice(b"insert")?;
    push_numbers(script, &[at.line as u64, at.column])?;
    script.extend_from_slice(b" \"")?;
    push_letters(x, count, script)?;
    script.extend_from_slice(b"\"\n")?;
    lengths[at.line] = at.length + count;
    Ok(())
}

/// Wraps a line.
#[tactic(auto, unfolding(crate::specs::Commands::wrap))]
fn wrap(x: &mut u64, lengths: &mut Vec<u64>, script: &mut Vec<u8>) -> Result<(), AllocError>
    requires some { 0 < length lengths.old.items }
    requires small { All (λ n. n ≤ MAX_LETTERS) lengths.old.items }
    ensures ok { OnOk result (with_parts x.new lengths.new.items script.new.items
        ≡ wrap x.old lengths.old.items script.old.items) }
{
    let at = draw_place(x, lengths);
    script.extend_from_slice(b"wrap")?;
    push_numbers(script, &[at.line as u64, at.column])?;
    script.extend_from_slice(b"\n")?;
    lengths[at.line] = at.column;
    lengths.insert(at.line + 1, at.length - at.column)?;
    Ok(())
}

/// Joins a line to the one before it; wraps a line that stands alone at its start.
#[tactic(auto, unfolding(crate::specs::Commands::unwrap))]
fn unwrap(x: &mut u64, lengths: &mut Vec<u64>, script: &mut Vec<u8>) -> Result<(), AllocError>
    requires some { 0 < length lengths.old.items }
    requires small { All (λ n. n ≤ MAX_LETTERS) lengths.old.items }
    ensures ok { OnOk result (with_parts x.new lengths.new.items script.new.items
        ≡ unwrap x.old lengths.old.items script.old.items) }
{
    if lengths.len() == 1 {
        let length = length_at(lengths, 0);
        script.extend_from_slice(b"wrap")?;
        push_numbers(script, &[0, 0])?;
        script.extend_from_slice(b"\n")?;
        lengths[0] = 0;
        lengths.insert(1, length)?;
        return Ok(());
    }
    let line = 1 + draw(x, lengths.len() as u64 - 1) as usize;
    script.extend_from_slice(b"unwrap")?;
    push_numbers(script, &[line as u64])?;
    script.extend_from_slice(b"\n")?;
    let joined = length_at(lengths, line - 1) + length_at(lengths, line);
    lengths.remove(line);
    lengths[line - 1] = joined;
    Ok(())
}

/// Removes a part of a line.
#[tactic(auto, unfolding(crate::specs::Commands::removal))]
fn removal(x: &mut u64, lengths: &mut Vec<u64>, script: &mut Vec<u8>) -> Result<(), AllocError>
    requires some { 0 < length lengths.old.items }
    requires small { All (λ n. n ≤ MAX_LETTERS) lengths.old.items }
    ensures ok { OnOk result (with_parts x.new lengths.new.items script.new.items
        ≡ removal x.old lengths.old.items script.old.items) }
{
    let at = draw_place(x, lengths);
    let count = draw(x, at.length - at.column + 1);
    let end = at.column + count;
    script.extend_from_slice(b"remove")?;
    push_numbers(script, &[at.line as u64, at.column, at.line as u64, end])?;
    script.extend_from_slice(b"\n")?;
    lengths[at.line] = at.length - count;
    Ok(())
}

/// Appends a space and how a range expands.
fn push_expand(script: &mut Vec<u8>, value: u64) -> Result<(), AllocError>
    ensures ok { OnOk result (script.new.items ≡ script.old.items ++ expand_word value) }
{
    script.extend_from_slice(match value {
        0 => b" none".as_slice(),
        1 => b" left".as_slice(),
        2 => b" right".as_slice(),
        _ => b" both".as_slice(),
    })
}

/// Appends a space, whether a range may be empty, and the end of the line.
fn push_empty(script: &mut Vec<u8>, value: u64) -> Result<(), AllocError>
    ensures ok { OnOk result (script.new.items ≡ script.old.items ++ empty_word value) }
{
    script.extend_from_slice(match value {
        0 => b" allow\n".as_slice(),
        _ => b" void\n".as_slice(),
    })
}

/// Makes a part of a line a range.
#[tactic(auto, unfolding(crate::specs::Commands::range))]
fn range(x: &mut u64, lengths: &[u64], script: &mut Vec<u8>) -> Result<(), AllocError>
    requires some { 0 < length lengths.now }
    requires small { All (λ n. n ≤ MAX_LETTERS) lengths.now }
    ensures ok { OnOk result (with_parts x.new lengths.now script.new.items
        ≡ range x.old lengths.now script.old.items) }
{
    let at = draw_place(x, lengths);
    let count = draw(x, at.length - at.column + 1);
    let end = at.column + count;
    script.extend_from_slice(b"range")?;
    push_numbers(script, &[at.line as u64, at.column, at.line as u64, end])?;
    push_expand(script, draw(x, 4))?;
    push_empty(script, draw(x, 2))
}

/// Adds a command of a kind.
fn command_of(
    kind: u64,
    x: &mut u64,
    lengths: &mut Vec<u64>,
    script: &mut Vec<u8>,
) -> Result<(), AllocError>
    requires some { 0 < length lengths.old.items }
    requires small { All (λ n. n ≤ MAX_LETTERS) lengths.old.items }
    ensures ok { OnOk result (with_parts x.new lengths.new.items script.new.items
        ≡ command_of kind x.old lengths.old.items script.old.items) }
{
    if kind < 8 {
        insertion(x, lengths, script)
    } else if kind < 10 {
        wrap(x, lengths, script)
    } else if kind == 10 {
        unwrap(x, lengths, script)
    } else if kind < 13 {
        removal(x, lengths, script)
    } else if kind == 13 {
        range(x, lengths, script)
    } else if kind == 14 {
        script.extend_from_slice(b"check repeat\n")
    } else {
        script.extend_from_slice(b"find 0 0 \"a\" case part\n")
    }
}

/// Adds a command; its kind is drawn first.
#[tactic(auto, unfolding(crate::specs::Commands::one_more))]
pub fn add_command(
    x: &mut u64,
    lengths: &mut Vec<u64>,
    script: &mut Vec<u8>,
) -> Result<(), AllocError>
    requires some { 0 < length lengths.old.items }
    requires small { All (λ n. n ≤ MAX_LETTERS) lengths.old.items }
    ensures ok { OnOk result (with_parts x.new lengths.new.items script.new.items
        ≡ one_more (with_parts x.old lengths.old.items script.old.items)) }
{
    let kind = draw(x, 16);
    command_of(kind, x, lengths, script)
}
