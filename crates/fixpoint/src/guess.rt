// Confirming a guess: sweeps that move the ends of a table out towards it. If each end has moved or reached the guess, every table
// that holds contains the guess.

ghost use Rattle.std.specs.Prelude.{◌≡◌, ◌*◌, ◌≤◌, length};
ghost use Rattle.program.specs.Program.{counts_of};
ghost use Rattle.table.specs.Rows.{wants};
ghost use Rattle.fixpoint.specs.Confirming.{confirm_sweep};
ghost use Rattle.fixpoint.specs.Joining.{table_in};
ghost use Rattle.fixpoint.specs.Moving.{Moved, moved_by, ConfirmPost};

use crate::making::make;
use crate::moving::move_place;
use crate::reaching::reached;
use program::{Counts, Program};
use table::{Hop, Hops};

// Whether a guess was confirmed, and the sweeps that were made to tell: they count either way, so this is no Option of them.
#[derive(Clone, Copy, PartialEq, Eq, Debug)]
pub struct Confirmed {
    pub yes: bool,
    pub sweeps: u64,
}

// `made` has room for what the hop makes of the guess, and `grown` of the table that is moved. The answers say whether an end
// moved.
fn move_hop(
    table: &mut [i64],
    counts: Counts,
    guess: &[i64],
    hop: Hop,
    words: u32,
    made: &mut [i64],
    grown: &mut [i64],
) -> bool
    requires long { length table.old ≡ wants counts }
    requires guess { length guess.now ≡ wants counts }
    requires made { length made.old ≡ 2 * counts.vars }
    requires grown { length grown.old ≡ 2 * counts.vars }
    requires here { hop.from.0 ≤ counts.steps }
    requires there { hop.to.0 ≤ counts.steps }
    ensures { Moved counts hop.to.0 (moved_by words (table_in counts guess.now) hop (table_in counts table.old)) table.old table.new result }
{
    let Some(()) = make(guess, counts, hop, words, made) else {
        return false;
    };
    let Some(()) = make(table, counts, hop, words, grown) else {
        return false;
    };
    move_place(table, counts, hop.to.0, guess, made, grown)
}

fn sweep(
    program: &Program,
    table: &mut [i64],
    guess: &[i64],
    made: &mut [i64],
    grown: &mut [i64],
) -> bool
    requires long { length table.old ≡ wants (counts_of program.now) }
    requires guess { length guess.now ≡ wants (counts_of program.now) }
    requires made { length made.old ≡ 2 * program.now.vars }
    requires grown { length grown.old ≡ 2 * program.now.vars }
    ensures { record { table = table_in (counts_of program.now) table.new; moved = result } ≡ confirm_sweep program.now (table_in (counts_of program.now) guess.now) (table_in (counts_of program.now) table.old) }
{
    let counts = program.counts();
    let mut moved = false;
    for hop in Hops::of(program) {
        let words = table::words_of(program.rows(), hop.step);
        moved |= move_hop(table, counts, guess, hop, words, made, grown);
    }
    moved
}

// Confirms the guess over the table, or tells that so many sweeps don't. `moved` has room for a table, and `made` and `grown` for a
// box each. Where the guess isn't confirmed, `moved` shows which ends have moved.
pub fn confirm(
    program: &Program,
    table: &[i64],
    guess: &[i64],
    moved: &mut [i64],
    made: &mut [i64],
    grown: &mut [i64],
    limit: u64,
) -> Confirmed
    requires long { length table.now ≡ wants (counts_of program.now) }
    requires guess { length guess.now ≡ wants (counts_of program.now) }
    requires moved { length moved.old ≡ wants (counts_of program.now) }
    requires made { length made.old ≡ 2 * program.now.vars }
    requires grown { length grown.old ≡ 2 * program.now.vars }
    ensures { ConfirmPost program.now table.now guess.now limit result }
{
    let counts = program.counts();
    moved.copy_from_slice(table);
    let mut sweeps = 0;
    let mut going = true;
    loop {
        let yes = reached(table, counts, guess, moved);
        if yes || !going || sweeps == limit {
            return Confirmed { yes, sweeps };
        }
        going = sweep(program, moved, guess, made, grown);
        sweeps += 1;
    }
}
