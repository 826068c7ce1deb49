// The call.

ghost use Rattle.std.specs.Prelude.{◌≡◌, ◌+◌, ◌*◌, ◌≤◌, length};
ghost use Rattle.program.specs.Program.{counts_of};
ghost use Rattle.table.specs.Rows.{wants};
ghost use Rattle.least.specs.Going.{Ended};
ghost use Rattle.least.specs.Says.{FoundPost};

use crate::going::go_round;
use program::Program;

// What was found: the least table, after so many rounds. Or the rows are no program, or too few numbers are lent. The project's
// statements fix this type of the call, so it is no Result.
#[derive(Clone, Copy, PartialEq, Eq, Debug)]
pub enum Found {
    Ranges(u64),
    NoProgram,
    Few,
}

// Lays out the work numbers, and goes round.
fn find_in(program: &Program, table: &mut [i64], work: &mut [i64]) -> u64
    requires long { length table.old ≡ wants (counts_of program.now) }
    requires room { 4096 + 64 * wants (counts_of program.now) ≤ length work.old }
    ensures { Ended program.now table.new result }
{
    let vars = program.counts().vars;
    let (notes, rest) = work.split_at_mut(table.len());
    let (out, rest) = rest.split_at_mut(2 * vars);
    go_round(program, table, notes, out, rest)
}

// Finds the least table of a program, and writes it first into `table`.
pub fn find(program: &[i64], table: &mut [i64], work: &mut [i64]) -> Found
    ensures { FoundPost program.now table.old table.new (length work.old) result }
{
    let Ok(program) = program::read(program) else {
        return Found::NoProgram;
    };
    let counts = program.counts();
    let size = (counts.steps + 1) * (1 + 2 * counts.vars);
    if table.len() < size {
        return Found::Few;
    }
    if work.len() < 4096 + 64 * size {
        return Found::Few;
    }
    Found::Ranges(find_in(&program, &mut table[0..size], work))
}
