// Whether a table holds, from the texts of a program and the table.

ghost use Rattle.std.specs.Prelude.{◌≡◌, length};
ghost use Rattle.std.specs.Option.{option_copied};
ghost use Rattle.report.specs.Checking.{Explains, CheckTextSays};

use crate::load::numbers_in;
use message::{Complaint, Error, Written};
use program::{Place, Step};
use std::alloc::Global;
use table::{Fault, NotGood};

// The step that a fault speaks of.
fn faulty_step(rows: &[i64], fault: Fault) -> Option<Step> {
    let Fault::NotCarried(Place(n), _, _) = fault else {
        return None;
    };
    let (_, step) = program::read(rows).ok()?.steps().nth(n)?;
    Some(step)
}

// The number of the table that a fault speaks of.
fn faulty_number(table: &[i64], text: Option<&[u8]>, fault: Fault) -> Option<Written> {
    let (Fault::Flag(k) | Fault::Blank(k)) = fault else {
        return None;
    };
    Some(Written {
        number: table.get(k).copied()?,
        at: text.and_then(|text| text::position(text, k)),
    })
}

fn complaint(rows: &[i64], table: &[i64], text: Option<&[u8]>, fault: Fault) -> Complaint
    ensures { result.fault ≡ fault }
{
    Complaint {
        fault,
        count: table.len(),
        number: faulty_number(table, text, fault),
        step: faulty_step(rows, fault),
    }
}

// Why the table is not good, with where it shows in the texts that there are.
pub(crate) fn explained(
    program: Option<&[u8]>,
    table: Option<&[u8]>,
    rows: &[i64],
    numbers: &[i64],
    why: NotGood,
) -> Error
    ensures { Explains (option_copied program.entry) why result }
{
    match why {
        NotGood::Unread(refusal) => {
            let at = program.and_then(|text| text::position(text, refusal.at));
            Error::Unread(refusal, at)
        }
        NotGood::BadTable(fault) => Error::BadTable(complaint(rows, numbers, table, fault)),
    }
}

// Says that the table holds for the program; `rows` and `numbers` are lent for their numbers.
pub fn check_text(
    heap: Global,
    program: &[u8],
    table: &[u8],
    rows: &mut [i64],
    numbers: &mut [i64],
) -> Result<String, Error>
    ensures { CheckTextSays program.now table.now (length rows.old) (length numbers.old) result }
{
    let rows = numbers_in(program, rows).map_err(Error::ProgramText)?;
    let numbers = numbers_in(table, numbers).map_err(Error::TableText)?;
    table::check(rows, numbers).map_err(|why| explained(
        Some(program),
        Some(table),
        rows,
        numbers,
        why,
    ))?;
    Ok(String::from_str(heap, "# holds\n")?)
}
