// A guess at a table to which rounds would come much later, and whether it is confirmed.

ghost use Rattle.std.specs.Prelude.{◌≡◌, ◌+◌, ◌*◌, ◌≤◌, length, is_some};
ghost use Rattle.program.specs.Program.{counts_of};
ghost use Rattle.table.specs.Rows.{wants};
ghost use Rattle.fixpoint.specs.Joining.{table_in};
ghost use Rattle.least.specs.Going.{Tried};

use crate::dropping::{drop_unmoved, widened};
use crate::lowering::lower;
use crate::raising::raise;
use program::Program;

// What came of a guess: after how many tries that failed it was confirmed, if it was, and the sweeps that it took. These count
// either way, so they don't go into the Option.
#[derive(Clone, Copy)]
pub(crate) struct Guessed {
    pub(crate) after: Option<usize>,
    pub(crate) sweeps: u64,
}

// Lowers the guess and tries to confirm it, each time without the ends that did not move, until it is confirmed or nothing is
// left of it. Each try but the last takes an end out. `notes` are changed with the guess; `moved` has room for a table, and
// `made` and `grown` for a box each.
fn settle(
    program: &Program,
    table: &[i64],
    guess: &mut [i64],
    notes: &mut [i64],
    moved: &mut [i64],
    made: &mut [i64],
    grown: &mut [i64],
) -> Guessed
    requires long { length table.now ≡ wants (counts_of program.now) }
    requires guess { length guess.old ≡ wants (counts_of program.now) }
    requires notes { length notes.old ≡ wants (counts_of program.now) }
    requires moved { length moved.old ≡ wants (counts_of program.now) }
    requires made { length made.old ≡ 2 * program.now.vars }
    requires grown { length grown.old ≡ 2 * program.now.vars }
    ensures { Tried program.now (table_in (counts_of program.now) table.now) (table_in (counts_of program.now) guess.new) (is_some result.after) result.sweeps }
{
    let mut sweeps = 0u64;
    // each try takes an end out, so there are no more of them
    for failed in 0..table.len() {
        sweeps = sweeps.saturating_add(lower(program, guess, table, notes, made));
        let ends = widened(table, guess);
        if ends == 0 {
            break;
        }
        let tried = fixpoint::confirm(program, table, guess, moved, made, grown, ends);
        sweeps = sweeps.saturating_add(tried.sweeps);
        if tried.yes {
            return Guessed {
                after: Some(failed),
                sweeps,
            };
        }
        drop_unmoved(table, guess, notes, moved);
    }
    Guessed {
        after: None,
        sweeps,
    }
}

// Guesses that every end that has been widened goes on as far as the hop that last widened it carries it.
pub(crate) fn propose(
    program: &Program,
    table: &[i64],
    notes: &[i64],
    guess: &mut [i64],
    work: &mut [i64],
) -> Guessed
    requires long { length table.now ≡ wants (counts_of program.now) }
    requires notes { length notes.now ≡ wants (counts_of program.now) }
    requires guess { length guess.old ≡ wants (counts_of program.now) }
    requires room { 2 * wants (counts_of program.now) + 256 ≤ length work.old }
    ensures { Tried program.now (table_in (counts_of program.now) table.now) (table_in (counts_of program.now) guess.new) (is_some result.after) result.sweeps }
{
    let counts = program.counts();
    let (active, rest) = work.split_at_mut(table.len());
    let (moved, rest) = rest.split_at_mut(table.len());
    let (made, rest) = rest.split_at_mut(2 * counts.vars);
    let (grown, _) = rest.split_at_mut(2 * counts.vars);
    guess.copy_from_slice(table);
    active.copy_from_slice(notes);
    raise(guess, counts, active);
    settle(program, table, guess, active, moved, made, grown)
}
