// Programs, tables and numbers from their texts.

ghost use Rattle.std.specs.Prelude.{◌≡◌, ◌≤◌, length, IfOk};
ghost use Rattle.text.specs.Numbers.{reading};
ghost use Rattle.report.specs.Loading.{in_hand, LoadProgramSays, LoadTableSays, LoadNumbersSays};

use crate::check::explained;
use message::Error;
use text::Refusal;

// The numbers of a text, in front of `numbers`.
pub(crate) fn numbers_in<'a>(text: &[u8], numbers: &'a mut [i64]) -> Result<&'a [i64], Refusal>
    ensures read { in_hand result ≡ reading (length numbers.old) text.now }
    ensures few { IfOk result (λ s. length s.now ≤ length numbers.old) }
{
    let n = text::read(text, numbers)?;
    Ok(&numbers[..n])
}

// Puts the rows of a program in front of `rows`, and says how many there are. The answer here and below is no part of what is lent:
// what the whole of it holds could then be said, but only a proof by hand would show it.
pub fn load_program(text: &[u8], rows: &mut [i64]) -> Result<usize, Error>
    ensures few { IfOk result (λ n. n ≤ length rows.old) }
    ensures says { LoadProgramSays text.now (length rows.old) rows.new result }
{
    let n = text::read(text, rows).map_err(Error::ProgramText)?;
    program::read(&rows[..n]).map_err(|why| Error::Unread(why, text::position(text, why.at)))?;
    Ok(n)
}

// Puts the numbers of a table that holds for the program in front of `numbers`, and says how many there are.
pub fn load_table(text: &[u8], rows: &[i64], numbers: &mut [i64]) -> Result<usize, Error>
    ensures few { IfOk result (λ n. n ≤ length numbers.old) }
    ensures says { LoadTableSays text.now rows.now (length numbers.old) numbers.new result }
{
    let n = text::read(text, numbers).map_err(Error::TableText)?;
    let table = &numbers[..n];
    table::check(rows, table).map_err(|why| explained(None, Some(text), rows, table, why))?;
    Ok(n)
}

// Puts the numbers that are handed in in front of `numbers`, and says how many there are.
pub fn load_numbers(text: &[u8], numbers: &mut [i64]) -> Result<usize, Error>
    ensures few { IfOk result (λ n. n ≤ length numbers.old) }
    ensures says { LoadNumbersSays text.now (length numbers.old) numbers.new result }
{
    text::read(text, numbers).map_err(Error::NumbersText)
}
