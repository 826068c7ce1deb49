// Moving the ends of a place out, towards those of a guess.

ghost use Rattle.std.specs.Prelude.{◌≡◌, ◌+◌, ◌*◌, ◌≤◌, not, length, slice_index_or, slice_set};
ghost use Rattle.interval.specs.Ranges.{any, within, inside1};
ghost use Rattle.interval.specs.Boxes.{box_of};
ghost use Rattle.table.specs.Tables.{at};
ghost use Rattle.table.specs.Rows.{wants, place_of};
ghost use Rattle.fixpoint.specs.Confirming.{moved1, moved_box, moved_at, wider_box, wider_at};
ghost use Rattle.fixpoint.specs.Joining.{table_in};
ghost use Rattle.fixpoint.specs.Moving.{Moved};

use interval::Range;
use program::{Counts, Var};

// A range moved out to what a hop makes of its box, `grown`, but no further than the guess, and only at an end where what the
// hop makes of the guess, `made`, is as far out as the guess.
fn moved_range(guess: Range, made: Range, grown: Range, r: Range) -> Range
    ensures { result ≡ moved1 guess made grown r }
{
    let wide = r.join(grown.cut(guess));
    Range {
        lo: if made.lo <= guess.lo { wide.lo } else { r.lo },
        hi: if guess.hi <= made.hi { wide.hi } else { r.hi },
    }
}

// The answers say whether an end moved.
fn move_range(numbers: &mut [i64], x: Var, guess: Range, made: Range, grown: Range) -> bool
    ensures moved { box_of numbers.new ≡ slice_set (box_of numbers.old) x.0 (moved1 guess made grown (slice_index_or (box_of numbers.old) x.0 any)) }
    ensures wider { result ≡ not (inside1 (moved1 guess made grown (slice_index_or (box_of numbers.old) x.0 any)) (slice_index_or (box_of numbers.old) x.0 any)) }
{
    let r = interval::range_at(numbers, x);
    let q = moved_range(guess, made, grown, r);
    interval::set_range(numbers, x, q);
    !q.inside(r)
}

#[tactic(auto, using(crate::proofs::Boxes::moves))]
fn move_box(numbers: &mut [i64], guess: &[i64], made: &[i64], grown: &[i64]) -> bool
    requires guess { length guess.now ≡ length numbers.old }
    requires made { length made.now ≡ length numbers.old }
    requires grown { length grown.now ≡ length numbers.old }
    ensures moved { box_of numbers.new ≡ moved_box (box_of guess.now) (box_of made.now) (box_of grown.now) (box_of numbers.old) }
    ensures wider { result ≡ wider_box (moved_box (box_of guess.now) (box_of made.now) (box_of grown.now) (box_of numbers.old)) (box_of numbers.old) }
{
    let mut moved = false;
    let sides = interval::ranges(made).zip(interval::ranges(grown));
    for (k, (g, (m, s))) in interval::ranges(guess).zip(sides).enumerate() {
        moved |= move_range(numbers, Var(k), g, m, s);
    }
    moved
}

#[tactic(auto, using(crate::proofs::Places::row_kept, crate::proofs::Moves::wider_self))]
fn move_row(row: &mut [i64], guess: &[i64], made: &[i64], grown: &[i64]) -> bool
    requires guess { length guess.now ≡ length row.old }
    requires made { length row.old ≡ length made.now + 1 }
    requires grown { length row.old ≡ length grown.now + 1 }
    ensures moved { place_of row.new ≡ moved_at (place_of guess.now) (within (box_of made.now)) (within (box_of grown.now)) (place_of row.old) }
    ensures wider { result ≡ wider_at (moved_at (place_of guess.now) (within (box_of made.now)) (within (box_of grown.now)) (place_of row.old)) (place_of row.old) }
{
    if !table::is_known(row) || !table::is_known(guess) {
        return false;
    }
    move_box(&mut row[1..], &guess[1..], made, grown)
}

// Moves the ends of a place.
#[tactic(auto, using(crate::proofs::Places::places))]
pub(crate) fn move_place(
    table: &mut [i64],
    counts: Counts,
    n: usize,
    guess: &[i64],
    made: &[i64],
    grown: &[i64],
) -> bool
    requires long { length table.old ≡ wants counts }
    requires place { n ≤ counts.steps }
    requires guess { length guess.now ≡ wants counts }
    requires made { length made.now ≡ 2 * counts.vars }
    requires grown { length grown.now ≡ 2 * counts.vars }
    ensures { Moved counts n (moved_at (at (table_in counts guess.now) n) (within (box_of made.now)) (within (box_of grown.now)) (at (table_in counts table.old) n)) table.old table.new result }
{
    let row = &mut table[table::row_bounds(counts.vars, n)];
    move_row(row, table::row_of(guess, counts.vars, n), made, grown)
}
