// The places of a table, as parts of its rows.

ghost use Rattle.std.specs.Prelude.{◌≡◌, ◌+◌, ◌*◌, ◌^◌, ◌<◌, ◌≤◌, length, IfSome, not, take, drop, pos, slice_index_or};
ghost use Rattle.std.specs.List.{position};
ghost use Rattle.interval.specs.Ranges.{within};
ghost use Rattle.interval.specs.Boxes.{box_of};
ghost use Rattle.table.specs.Rows.{width, is_number, place_of};
ghost use Rattle.table.specs.Looking.{outside, missed, row_fault, unless};

use crate::fault::{Fault, Miss};
use program::Var;
use std::ops::Range;

// Where the row of a place stands in a table.
pub fn row_bounds(vars: usize, n: usize) -> Range<usize>
    requires { n * width vars + width vars < 2 ^ 64 }
    ensures start { result.start ≡ n * width vars }
    ensures end { result.end ≡ n * width vars + width vars }
{
    let width = 1 + 2 * vars;
    let start = n * width;
    start..start + width
}

// The row of a place.
pub fn row_of(table: &[i64], vars: usize, n: usize) -> &[i64]
    requires { n * width vars + width vars ≤ length table.now }
    ensures row { result.now ≡ take (width vars) (drop (n * width vars) table.now) }
    ensures long { length result.now ≡ width vars }
{
    &table[row_bounds(vars, n)]
}

// Whether something comes to the place of a row.
pub fn is_known(row: &[i64]) -> bool
    requires { 0 < length row.now }
    ensures { result ≡ is_number 1 (slice_index_or row.now 0 (pos 0)) }
{
    row[0] == 1
}

// Whether each range of the first box lies inside the one of the second.
#[tactic(auto, using(interval::proofs::Pairs::pairs))]
fn covered_box(a: &[i64], b: &[i64]) -> Result<(), Miss>
    requires { length b.now ≡ length a.now }
    ensures { result ≡ unless (outside 0 (box_of a.now) (box_of b.now)) }
{
    for (k, (r, q)) in interval::ranges(a).zip(interval::ranges(b)).enumerate() {
        if !r.inside(q) {
            return Err(Miss::Outside(Var(k), r, q));
        }
    }
    Ok(())
}

// Whether the row of a place contains a box.
pub(crate) fn covered(made: &[i64], row: &[i64]) -> Result<(), Miss>
    requires { length row.now ≡ length made.now + 1 }
    ensures { result ≡ unless (missed (within (box_of made.now)) (place_of row.now)) }
{
    if !is_known(row) {
        return Err(Miss::Never);
    }
    covered_box(made, &row[1..])
}

fn is_zero(number: i64) -> bool
    ensures { result ≡ is_number 0 number }
{
    number == 0
}

// The first number that isn't 0.
fn not_zero(numbers: &[i64]) -> Option<usize>
    ensures first { result ≡ position (λ z. not (is_number 0 z)) numbers.now }
    ensures there { IfSome result (λ i. i < length numbers.now) }
{
    numbers.iter().position(|z| !is_zero(*z))
}

// Whether the row of a place, which begins at k, is one of a table.
pub(crate) fn check_row(row: &[i64], k: usize) -> Result<(), Fault>
    requires some { 0 < length row.now }
    requires fits { k + length row.now < 2 ^ 64 }
    ensures { result ≡ unless (row_fault k row.now) }
{
    if is_known(row) {
        return Ok(());
    }
    if !is_zero(row[0]) {
        return Err(Fault::Flag(k));
    }
    match not_zero(&row[1..]) {
        Some(i) => Err(Fault::Blank(k + 1 + i)),
        None => Ok(()),
    }
}
