// Whether each end has reached the guess or moved towards it.

ghost use Rattle.std.specs.Prelude.{◌≡◌, ◌<◌, ◌≤◌, length};
ghost use Rattle.interval.specs.Boxes.{box_of};
ghost use Rattle.table.specs.Rows.{wants, place_of};
ghost use Rattle.fixpoint.specs.Confirming.{reached1, reached_box, reached_at, reached};
ghost use Rattle.fixpoint.specs.Joining.{table_in};

use interval::Range;
use program::Counts;

fn reached_range(b: Range, guess: Range, moved: Range) -> bool
    ensures { result ≡ reached1 b guess moved }
{
    b.inside(guess)
        && (moved.lo <= guess.lo || moved.lo < b.lo)
        && (guess.hi <= moved.hi || b.hi < moved.hi)
}

#[tactic(auto, using(interval::proofs::Pairs::pairs))]
fn reached_box(b: &[i64], guess: &[i64], moved: &[i64]) -> bool
    requires guess { length guess.now ≡ length b.now }
    requires moved { length moved.now ≡ length b.now }
    ensures { result ≡ reached_box (box_of b.now) (box_of guess.now) (box_of moved.now) }
{
    let sides = interval::ranges(guess).zip(interval::ranges(moved));
    for (r, (g, m)) in interval::ranges(b).zip(sides) {
        if !reached_range(r, g, m) {
            return false;
        }
    }
    true
}

fn reached_row(b: &[i64], guess: &[i64], moved: &[i64]) -> bool
    requires some { 0 < length b.now }
    requires guess { length guess.now ≡ length b.now }
    requires moved { length moved.now ≡ length b.now }
    ensures { result ≡ reached_at (place_of b.now) (place_of guess.now) (place_of moved.now) }
{
    match (
        table::is_known(b),
        table::is_known(guess),
        table::is_known(moved),
    ) {
        (true, true, true) => reached_box(&b[1..], &guess[1..], &moved[1..]),
        (false, false, false) => true,
        _ => false,
    }
}

#[tactic(auto, using(crate::proofs::Reaches::reaches))]
pub(crate) fn reached(table: &[i64], counts: Counts, guess: &[i64], moved: &[i64]) -> bool
    requires long { length table.now ≡ wants counts }
    requires guess { length guess.now ≡ wants counts }
    requires moved { length moved.now ≡ wants counts }
    ensures { result ≡ reached (table_in counts table.now) (table_in counts guess.now) (table_in counts moved.now) }
{
    // three tables by one place: rows zipped would be no plainer
    for n in 0..=counts.steps {
        let row = table::row_of(table, counts.vars, n);
        let goal = table::row_of(guess, counts.vars, n);
        let now = table::row_of(moved, counts.vars, n);
        if !reached_row(row, goal, now) {
            return false;
        }
    }
    true
}
