// The call.

ghost use Rattle.std.specs.Prelude.{◌≡◌, ◌≤◌, List, length, ℤ};
ghost use Rattle.program.specs.Program.{Prog, counts_of};
ghost use Rattle.program.specs.Rows.{Program as Reads};
ghost use Rattle.table.specs.Tables.{Table, Holds};
ghost use Rattle.table.specs.Rows.{row_t};
ghost use Rattle.interpreter.specs.Ending.{Came, needs};
ghost use Rattle.interpreter.specs.Says.{RanPost};

use crate::going::proceed;
use crate::memory::{all_fit, write_starts};
use crate::ran::Ran;
use program::{Counts, Program};

// How many work numbers a run of a program wants.
pub fn wants(counts: Counts) -> usize
    ensures { (s : List ℤ) (p : Prog) → Reads s p → counts ≡ counts_of p → result ≡ needs p }
{
    counts
        .steps
        .saturating_add(counts.words)
        .saturating_add(256)
}

// Lays out the work numbers, marks the steps, and runs.
fn run_with(
    program: &Program,
    table: &[i64],
    asked: &[i64],
    steps: u32,
    shown: &mut [i64],
    work: &mut [i64],
) -> Ran
    requires room { needs program.now ≤ length work.old }
    requires holds { (t : Table) × (row_t program.now.vars t ≡ table.now) × Holds program.now t }
    ensures { (t : Table) → row_t program.now.vars t ≡ table.now → Holds program.now t → Came program.now t asked.now steps shown.old shown.new result }
{
    let counts = program.counts();
    let (head, rest) = work.split_at_mut(256);
    let (vars, spare) = head.split_at_mut(counts.vars);
    let (starts, _) = spare.split_at_mut(counts.arrays);
    let (marks, arrays) = rest.split_at_mut(counts.steps);
    let (memory, _) = arrays.split_at_mut(counts.words);
    vars.fill(0);
    memory.fill(0);
    write_starts(program, starts);
    machine::mark_steps(program, table, marks);
    all_fit(asked);
    proceed(program, marks, starts, vars, memory, asked, steps, shown)
}

// Runs a program for at most so many steps, with the tests left out that the table licenses.
pub fn run(
    program: &[i64],
    table: &[i64],
    asked: &[i64],
    steps: u32,
    shown: &mut [i64],
    work: &mut [i64],
) -> Ran
    ensures { RanPost program.now table.now asked.now steps shown.old shown.new (length work.old) result }
{
    let Ok(read) = program::read(program) else {
        return Ran::Unread;
    };
    if work.len() < wants(read.counts()) {
        return Ran::Small;
    }
    match table::check(program, table) {
        Err(_) => Ran::BadTable,
        Ok(program) => run_with(&program, table, asked, steps, shown, work),
    }
}
