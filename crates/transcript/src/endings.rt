// The lines of a run.

ghost use Rattle.std.specs.Prelude.{◌≡◌, ◌++◌, string_bytes, OnOk};
ghost use Rattle.transcript.specs.Transcripts.{number_lines, end_line, Written};

use interpreter::Ran;
use message::Error;
use std::alloc::{AllocError, Global};

// A line for each number.
fn write_numbers(out: &mut String, numbers: &[i64]) -> Result<(), AllocError>
    ensures { OnOk result (string_bytes out.new ≡ string_bytes out.old ++ number_lines numbers.now) }
{
    for z in numbers {
        write!(out, "{z}\n")?;
    }
    Ok(())
}

// How the run ended, what it showed and how many tests it did.
fn write_end(out: &mut String, ran: Ran) -> Result<(), AllocError>
    ensures { OnOk result (string_bytes out.new ≡ string_bytes out.old ++ end_line ran) }
{
    match ran {
        Ran::Stopped(k, c) => write!(out, "# stopped shown {k} tests {c}\n"),
        Ran::Failed(a, k, c) => write!(out, "# failed {a} shown {k} tests {c}\n"),
        Ran::More(k, c) => write!(out, "# more shown {k} tests {c}\n"),
        _ => Ok(()),
    }
}

// All lines of a run.
pub(crate) fn lines(heap: Global, shown: &[i64], ran: Ran) -> Result<String, Error>
    ensures { Written (number_lines shown.now ++ end_line ran) result }
{
    // a number has at most 20 digits and a minus or a line feed each, and the last line fewer than 96 bytes
    let most = shown.len().saturating_mul(21).saturating_add(96);
    let mut out = String::with_capacity(heap, most)?;
    write_numbers(&mut out, shown)?;
    write_end(&mut out, ran)?;
    Ok(out)
}
