// The lines for the tests of a program: which of them a table licenses.

ghost use Rattle.std.specs.Prelude.{◌≡◌, ◌++◌, Some, string_bytes, OnOk};
ghost use Rattle.std.specs.List.{slice_get};
ghost use Rattle.table.specs.Tables.{Table};
ghost use Rattle.table.specs.Rows.{row_t};
ghost use Rattle.table.specs.Says.{Full};
ghost use Rattle.report.specs.Licences.{test_line, line_at, test_lines, LicenceTextSays};

use crate::check::explained;
use message::Error;
use program::{Place, Program, Step};
use std::alloc::{AllocError, Global};
use words::Words;

fn write_test(out: &mut String, licensed: bool, place: Place, step: Step) -> Result<(), AllocError>
    ensures { OnOk result (string_bytes out.new ≡ string_bytes out.old ++ test_line licensed place.0 step) }
{
    let Place(n) = place;
    if licensed {
        return write!(out, "# licence {n} {}\n", Words(step));
    }
    write!(out, "# test {n} {}\n", Words(step))
}

// The line of a step, if it has a test.
fn write_step(
    out: &mut String,
    program: &Program,
    table: &[i64],
    place: Place,
    step: Step,
) -> Result<(), AllocError>
    ensures { OnOk result ((t : Table) → Full program.now t → row_t program.now.vars t ≡ table.now → slice_get program.now.code place.0 ≡ Some step → string_bytes out.new ≡ string_bytes out.old ++ line_at program.now t place.0 step) }
{
    if !step.has_test() {
        return Ok(());
    }
    let vars = program.counts().vars;
    let licensed = table::licensed(program.rows(), table, vars, place, step);
    write_test(out, licensed, place, step)
}

// A line for each test, in the order of places.
fn write_tests(out: &mut String, program: &Program, table: &[i64]) -> Result<(), AllocError>
    ensures { OnOk result ((t : Table) → Full program.now t → row_t program.now.vars t ≡ table.now → string_bytes out.new ≡ string_bytes out.old ++ test_lines program.now t 0 program.now.code) }
{
    for (place, step) in program.steps() {
        write_step(out, program, table, place, step)?;
    }
    Ok(())
}

// Says that the table holds for the program, and which tests it licenses.
pub fn licence_text(heap: Global, rows: &[i64], table: &[i64]) -> Result<String, Error>
    ensures { LicenceTextSays rows.now table.now result }
{
    let program = table::check(rows, table).map_err(|why| explained(None, None, rows, table, why))?;
    let mut out = String::new(heap);
    write!(out, "# holds\n")?;
    write_tests(&mut out, &program, table)?;
    Ok(out)
}
