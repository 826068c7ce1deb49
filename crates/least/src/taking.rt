// Taking a guess over that was confirmed.

ghost use Rattle.std.specs.Prelude.{◌≡◌, ◌≤◌, length, slice_set};
ghost use Rattle.table.specs.Tables.{at};
ghost use Rattle.table.specs.Rows.{wants};
ghost use Rattle.fixpoint.specs.Rounds.{join_at};
ghost use Rattle.fixpoint.specs.Confirming.{Over};
ghost use Rattle.fixpoint.specs.Joining.{table_in, Writes};

use program::Counts;

// Joins a place of the guess into the table.
#[tactic(auto, using(fixpoint::proofs::Places::places, fixpoint::proofs::Hopping::nothing_joined))]
fn take_place(table: &mut [i64], counts: Counts, n: usize, guess: &[i64])
    requires long { length table.old ≡ wants counts }
    requires guess { length guess.now ≡ wants counts }
    requires place { n ≤ counts.steps }
    ensures taken { table_in counts table.new ≡ slice_set (table_in counts table.old) n (join_at (at (table_in counts table.old) n) (at (table_in counts guess.now) n)) }
    ensures writes { Writes counts table.old table.new }
{
    let row = table::row_of(guess, counts.vars, n);
    if !table::is_known(row) {
        return;
    }
    let _ = fixpoint::join_place(table, counts, n, &row[1..]);
}

// The table becomes the guess, which contains it and comes to the same places.
#[tactic(auto, using(crate::proofs::Mixed::mixes))]
pub(crate) fn take_over(table: &mut [i64], counts: Counts, guess: &[i64])
    requires long { length table.old ≡ wants counts }
    requires guess { length guess.now ≡ wants counts }
    ensures taken { Over (table_in counts table.old) (table_in counts guess.now) → table_in counts table.new ≡ table_in counts guess.now }
    ensures writes { Writes counts table.old table.new }
{
    // a slice's rows one after another can't be written so that what they become is known; and `0..=counts.steps` wants a proof
    // of its last place besides
    for n in 0..counts.steps + 1 {
        take_place(table, counts, n, guess);
    }
}
