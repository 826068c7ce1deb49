// Raising the ends of a guess to the ends of 64 bits.

ghost use Rattle.std.specs.Prelude.{◌≡◌, length};
ghost use Rattle.table.specs.Rows.{wants};

use program::{Counts, Var};

// Raises each end that some hop has widened, by its notes.
fn raise_box(guess: &mut [i64], notes: &[i64]) {
    for (k, note) in interval::ranges(notes).enumerate() {
        let x = Var(k);
        let mut r = interval::range_at(guess, x);
        if note.lo != 0 {
            r.lo = i64::MIN;
        }
        if note.hi != 0 {
            r.hi = i64::MAX;
        }
        interval::set_range(guess, x, r);
    }
}

pub(crate) fn raise(guess: &mut [i64], counts: Counts, notes: &[i64])
    requires guess { length guess.old ≡ wants counts }
    requires notes { length notes.now ≡ wants counts }
{
    let width = 1 + 2 * counts.vars;
    for (row, note) in guess.chunks_exact_mut(width).zip(notes.chunks_exact(width)) {
        raise_box(&mut row[1..], &note[1..]);
    }
}
