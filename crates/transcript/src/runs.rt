// A run, as text.

ghost use Rattle.std.specs.Prelude.{◌≡◌, length, Err};
ghost use Rattle.program.specs.Program.{Prog};
ghost use Rattle.program.specs.Rows.{Program};
ghost use Rattle.table.specs.Tables.{Table, Holds};
ghost use Rattle.table.specs.Rows.{row_t};
ghost use Rattle.interpreter.specs.Ending.{needs};
ghost use Rattle.report.specs.Licences.{LicenceTextSays};
ghost use Rattle.transcript.specs.Transcripts.{RunTextSays};

use crate::endings::lines;
use interpreter::Ran;
use message::Error;
use std::alloc::Global;

// The work numbers that a program wants.
fn wanted(rows: &[i64]) -> usize
    ensures { (p : Prog) → Program rows.now p → result ≡ needs p }
{
    program::read(rows).map_or(0, |program| interpreter::wants(program.counts()))
}

// Why there is no run.
fn refused(heap: Global, rows: &[i64], table: &[i64]) -> Error
    requires { (p : Prog) (t : Table) → Program rows.now p → row_t p.vars t ≡ table.now → Holds p t → ⊥ }
    ensures { LicenceTextSays rows.now table.now (Err result) }
{
    match report::licence_text(heap, rows, table) {
        Err(error) => error,
        Ok(_) => unreachable!(),
    }
}

// Runs a program for at most so many steps: a line for each number shown, and one that says how it ended. `shown` and `work`
// are lent for the run.
pub fn run_text(
    heap: Global,
    rows: &[i64],
    table: &[i64],
    asked: &[i64],
    steps: u32,
    shown: &mut [i64],
    work: &mut [i64],
) -> Result<String, Error>
    ensures { RunTextSays rows.now table.now asked.now steps (length shown.old) (length work.old) result }
{
    let room = shown.len();
    let there = work.len();
    // how many were shown stands in the answer of a run, as `shown` is the caller's
    let ran = interpreter::run(rows, table, asked, steps, shown, work);
    match ran {
        Ran::Stopped(k, _) | Ran::Failed(_, k, _) | Ran::More(k, _) => lines(
            heap,
            &shown[..k],
            ran,
        ),
        Ran::OutFull => Err(Error::OutFull(room)),
        Ran::Small => Err(Error::Small(wanted(rows), there)),
        Ran::Unread | Ran::BadTable => Err(refused(heap, rows, table)),
    }
}
