// Going round from the start to the least table, with guesses now and then.

ghost use Rattle.std.specs.Prelude.{◌≡◌, ◌+◌, ◌*◌, ◌≤◌, length};
ghost use Rattle.program.specs.Program.{counts_of};
ghost use Rattle.table.specs.Rows.{wants};
ghost use Rattle.fixpoint.specs.Joining.{table_in, Writes};
ghost use Rattle.least.specs.Going.{Nearer, Ended};

use crate::guess::{Guessed, propose};
use crate::taking::take_over;
use program::Program;

// The plain rounds before a guess, at least.
const PLAIN: u64 = 4;

// Makes a guess, and takes it over if it is confirmed.
fn guess_ahead(program: &Program, table: &mut [i64], notes: &[i64], work: &mut [i64]) -> Guessed
    requires long { length table.old ≡ wants (counts_of program.now) }
    requires notes { length notes.now ≡ wants (counts_of program.now) }
    requires room { 3 * wants (counts_of program.now) + 256 ≤ length work.old }
    ensures nearer { Nearer program.now (table_in (counts_of program.now) table.old) (table_in (counts_of program.now) table.new) result.sweeps }
    ensures writes { Writes (counts_of program.now) table.old table.new }
{
    let (guess, rest) = work.split_at_mut(table.len());
    let guessed = propose(program, table, notes, guess, rest);
    if guessed.after.is_some() {
        take_over(table, program.counts(), guess);
    }
    guessed
}

// How many plain rounds come before the next guess: one that was not confirmed at the first try waits as long as it took.
fn wait_after(guessed: Guessed) -> u64 {
    match guessed.after {
        Some(0) => PLAIN,
        _ => guessed.sweeps.max(PLAIN),
    }
}

// Finds the least table; the answer is how many sweeps that took.
pub(crate) fn go_round(
    program: &Program,
    table: &mut [i64],
    notes: &mut [i64],
    out: &mut [i64],
    work: &mut [i64],
) -> u64
    requires long { length table.old ≡ wants (counts_of program.now) }
    requires notes { length notes.old ≡ wants (counts_of program.now) }
    requires out { length out.old ≡ 2 * program.now.vars }
    requires room { 3 * wants (counts_of program.now) + 256 ≤ length work.old }
    ensures { Ended program.now table.new result }
{
    fixpoint::start(program.counts(), table);
    notes.fill(0);
    let mut rounds = 0u64;
    let mut wait = PLAIN;
    loop {
        let changed = fixpoint::round(program, table, out, notes);
        rounds = rounds.saturating_add(1);
        if !changed {
            return rounds;
        }
        wait = wait.saturating_sub(1);
        if wait == 0 {
            let guessed = guess_ahead(program, table, notes, work);
            rounds = rounds.saturating_add(guessed.sweeps);
            wait = wait_after(guessed);
        }
    }
}
