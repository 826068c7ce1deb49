// The listing of a program.

ghost use Rattle.std.specs.Prelude.{◌≡◌, ◌++◌, length, string_bytes, OnOk};
ghost use Rattle.report.specs.Listing.{array_lines, step_lines, listing_of, ListTextSays};

use crate::load::numbers_in;
use message::Error;
use program::{Place, Program};
use std::alloc::{AllocError, Global};
use words::Words;

fn list_arrays(out: &mut String, program: &Program) -> Result<(), AllocError>
    ensures { OnOk result (string_bytes out.new ≡ string_bytes out.old ++ array_lines 0 program.now.arrays) }
{
    for (k, n) in program.arrays().iter().enumerate() {
        write!(out, "# array a{k} of {n}\n")?;
    }
    Ok(())
}

fn list_steps(out: &mut String, program: &Program) -> Result<(), AllocError>
    ensures { OnOk result (string_bytes out.new ≡ string_bytes out.old ++ step_lines 0 program.now.code) }
{
    for (Place(k), step) in program.steps() {
        write!(out, "# {k} {}\n", Words(step))?;
    }
    Ok(())
}

// A line for the variables, for each array and for each place, each of them a comment.
fn write_listing(out: &mut String, program: &Program) -> Result<(), AllocError>
    ensures { OnOk result (string_bytes out.new ≡ string_bytes out.old ++ listing_of program.now) }
{
    let counts = program.counts();
    write!(out, "# variables {}\n", counts.vars)?;
    list_arrays(out, program)?;
    list_steps(out, program)?;
    write!(out, "# {} end\n", counts.steps)
}

// The listing of a program that is given as text; `rows` is lent for its numbers.
pub fn list_text(heap: Global, text: &[u8], rows: &mut [i64]) -> Result<String, Error>
    ensures { ListTextSays text.now (length rows.old) result }
{
    let rows = numbers_in(text, rows).map_err(Error::Text)?;
    let program = program::read(rows).map_err(|why| Error::NoProgram(
        why,
        text::position(text, why.at),
    ))?;
    let mut out = String::new(heap);
    write_listing(&mut out, &program)?;
    Ok(out)
}
