//! Numbers in decimal text with comments, read and written.
//!
//! Words are separated by white space, and `#` begins a comment up to the end of the line.
#![tactic(auto)]

ghost use Rattle.std.specs.Prelude.{◌≡◌, ◌<◌, ◌++◌, length, string_bytes, OnOk};
ghost use Rattle.std.specs.Option.{option_map, ok_or};
ghost use Rattle.text.specs.Lines.{line_of, ReadPost};
ghost use Rattle.text.specs.Numbers.{natural_of, capped, fit, number_of, refused, placed};
ghost use Rattle.text.specs.declared.refusal.Reason.TheVariants.{NotANumber};
ghost use Rattle.text.specs.Words.{position_of};

mod refusal;
#[cfg(test)]
mod tests;
mod words;

pub use refusal::{Position, Reason, Refusal};
use std::alloc::AllocError;
use words::Words;

// The number that digits write, or 2^64 - 1 if it is larger. Each byte is looked at, so that one that is no digit is
// found in any word.
fn magnitude(digits: &[u8]) -> Result<u64, Reason>
    ensures { result ≡ ok_or (option_map capped (natural_of digits.now)) NotANumber }
{
    if digits.is_empty() {
        return Err(Reason::NotANumber);
    }
    let mut value = 0u64;
    for &digit in digits {
        if !digit.is_ascii_digit() {
            return Err(Reason::NotANumber);
        }
        value = value
            .saturating_mul(10)
            .saturating_add(u64::from(digit - b'0'));
    }
    Ok(value)
}

fn fitting(value: i128) -> Result<i64, Reason>
    ensures { result ≡ fit value }
{
    i64::try_from(value).map_err(|_| Reason::TooLarge)
}

fn number(word: &[u8]) -> Result<i64, Reason>
    ensures { result ≡ number_of word.now }
{
    match word {
        [b'-', digits @ ..] => fitting(-i128::from(magnitude(digits)?)),
        digits => fitting(i128::from(magnitude(digits)?)),
    }
}

fn position_at(text: &[u8], place: usize) -> Position
    requires { place < length text.now }
    ensures { result ≡ position_of text.now place }
{
    let before = &text[..place];
    let feeds = before.iter().filter(|byte| **byte == b'\n').count();
    let since = before
        .iter()
        .rev()
        .take_while(|byte| **byte != b'\n')
        .count();
    Position {
        line: 1 + feeds,
        column: 1 + since,
    }
}

fn refused_at(text: &[u8], place: usize, reason: Reason) -> Refusal
    requires { place < length text.now }
    ensures { result ≡ refused text.now place reason }
{
    Refusal {
        at: position_at(text, place),
        reason,
    }
}

/// Puts the numbers of the text into the front of `numbers`, and says how many there are.
///
/// The first word that is no number, or for which there is no room, is refused. The answer is no part of `numbers`, as the
/// caller keeps the rest of it too.
pub fn read(text: &[u8], numbers: &mut [i64]) -> Result<usize, Refusal>
    ensures { ReadPost text.now numbers.old numbers.new result }
{
    let mut count = 0;
    for word in Words::of(text) {
        let value = number(word.bytes).map_err(|reason| refused_at(text, word.start, reason))?;
        // Not by `get_mut`, after which no clause says what the slice holds.
        if count == numbers.len() {
            return Err(refused_at(text, word.start, Reason::TooMany(count)));
        }
        numbers[count] = value;
        count += 1;
    }
    Ok(count)
}

/// Where the word of an index, from 0, begins; none if there are fewer words.
pub fn position(text: &[u8], index: usize) -> Option<Position>
    ensures { result ≡ placed text.now index }
{
    let word = Words::of(text).nth(index)?;
    Some(position_at(text, word.start))
}

/// Appends the numbers with a space between, and a line feed.
///
/// Where memory fails, nothing is promised of `out`.
pub fn write_line(out: &mut String, numbers: &[i64]) -> Result<(), AllocError>
    ensures { OnOk result (string_bytes out.new ≡ string_bytes out.old ++ line_of numbers.now) }
{
    let [first, rest @ ..] = numbers else {
        return out.push('\n');
    };
    write!(out, "{first}")?;
    for number in rest {
        write!(out, " {number}")?;
    }
    out.push('\n')
}
