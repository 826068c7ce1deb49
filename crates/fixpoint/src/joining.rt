// Joining a box into a place of a table.

ghost use Rattle.std.specs.Prelude.{◌≡◌, ◌+◌, ◌*◌, ◌<◌, ◌≤◌, true, not, length, pos, slice_index_or, slice_set};
ghost use Rattle.interval.specs.Ranges.{any, within, join, inside1};
ghost use Rattle.interval.specs.Boxes.{box_of};
ghost use Rattle.table.specs.Rows.{width, wants, is_number, place_of};
ghost use Rattle.fixpoint.specs.Rounds.{join_box, join_at, covers_box, covers};
ghost use Rattle.fixpoint.specs.Joining.{Joined};

use interval::Range;
use program::{Counts, Var};

// The answers say whether anything changed.
fn join_range(numbers: &mut [i64], x: Var, q: Range) -> bool
    ensures joined { box_of numbers.new ≡ slice_set (box_of numbers.old) x.0 (join (slice_index_or (box_of numbers.old) x.0 any) q) }
    ensures changed { result ≡ not (inside1 q (slice_index_or (box_of numbers.old) x.0 any)) }
{
    let r = interval::range_at(numbers, x);
    interval::set_range(numbers, x, r.join(q));
    !q.inside(r)
}

#[tactic(auto, using(crate::proofs::Boxes::joins))]
fn join_box(numbers: &mut [i64], made: &[i64]) -> bool
    requires { length numbers.old ≡ length made.now }
    ensures joined { box_of numbers.new ≡ join_box (box_of numbers.old) (box_of made.now) }
    ensures changed { result ≡ not (covers_box (box_of made.now) (box_of numbers.old)) }
{
    let mut changed = false;
    for (k, q) in interval::ranges(made).enumerate() {
        changed |= join_range(numbers, Var(k), q);
    }
    changed
}

// Says in a row that something comes to its place.
pub(crate) fn set_known(row: &mut [i64])
    requires { 0 < length row.old }
    ensures { row.new ≡ slice_set row.old 0 (pos 1) }
{
    row[0] = 1;
}

#[tactic(auto, using(crate::proofs::Places::row_kept))]
fn join_row(row: &mut [i64], made: &[i64]) -> bool
    requires { length row.old ≡ length made.now + 1 }
    ensures joined { place_of row.new ≡ join_at (place_of row.old) (within (box_of made.now)) }
    ensures changed { result ≡ not (covers (within (box_of made.now)) (place_of row.old)) }
    ensures known { is_number 1 (slice_index_or row.new 0 (pos 0)) ≡ true }
{
    if !table::is_known(row) {
        set_known(row);
        row[1..].copy_from_slice(made);
        return true;
    }
    join_box(&mut row[1..], made)
}

#[tactic(auto, using(crate::proofs::Places::places))]
pub fn join_place(table: &mut [i64], counts: Counts, n: usize, made: &[i64]) -> bool
    requires long { length table.old ≡ wants counts }
    requires place { n ≤ counts.steps }
    requires there { n * width counts.vars + width counts.vars ≤ length table.old }
    requires whole { length made.now ≡ 2 * counts.vars }
    ensures { Joined counts n (within (box_of made.now)) table.old table.new result }
{
    join_row(&mut table[table::row_bounds(counts.vars, n)], made)
}
