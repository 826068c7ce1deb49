// Notes of the hop that last widened each end of a table. They stand where the ends do in its rows, and are 0 where no hop has.
// No promise depends on what they say.

ghost use Rattle.std.specs.Prelude.{◌+◌, ◌*◌, ◌≤◌, length};
ghost use Rattle.table.specs.Rows.{width};

use interval::Range;
use program::Var;

// Notes the hop at the ends of a variable's range `r` that `made` widens.
fn note_range(notes: &mut [i64], x: Var, r: Range, made: Range, hop: i64) {
    let mut last = interval::range_at(notes, x);
    if made.lo < r.lo {
        last.lo = hop;
    }
    if r.hi < made.hi {
        last.hi = hop;
    }
    interval::set_range(notes, x, last);
}

// One box is gone over, and the other's ranges are taken by their variables: with 64 of these, a find with both zipped took a
// quarter longer.
fn note_box(notes: &mut [i64], numbers: &[i64], made: &[i64], hop: i64) {
    for (k, q) in interval::ranges(made).enumerate() {
        let x = Var(k);
        note_range(notes, x, interval::range_at(numbers, x), q, hop);
    }
}

// Notes the hop at the ends that it widens of a place. Where nothing came there yet, it widens none.
pub(crate) fn note_place(
    notes: &mut [i64],
    table: &[i64],
    vars: usize,
    n: usize,
    made: &[i64],
    hop: i64,
)
    requires notes { n * width vars + width vars ≤ length notes.old }
    requires there { n * width vars + width vars ≤ length table.now }
{
    let row = table::row_of(table, vars, n);
    if !table::is_known(row) {
        return;
    }
    let notes = &mut notes[table::row_bounds(vars, n)];
    note_box(&mut notes[1..], &row[1..], made, hop);
}
