// Lowering the ends of a guess: each comes back to what the hop that last widened it makes of the guess, but not inside the
// table's.

ghost use Rattle.std.specs.Prelude.{◌≡◌, ◌+◌, ◌*◌, ◌≤◌, length};
ghost use Rattle.program.specs.Program.{counts_of};
ghost use Rattle.table.specs.Rows.{width, wants};

use interval::Range;
use program::{Counts, Program, Var};
use table::{Hop, Hops};

// Sets the ends of a variable's range whose note is this hop to those of `back`. The answers say whether anything changed.
fn lower_range(guess: &mut [i64], x: Var, back: Range, note: Range, hop: i64) -> bool {
    let was = interval::range_at(guess, x);
    let mut r = was;
    if note.lo == hop {
        r.lo = back.lo;
    }
    if note.hi == hop {
        r.hi = back.hi;
    }
    interval::set_range(guess, x, r);
    r != was
}

// By the ranges of one box, as where hops are noted.
fn lower_box(guess: &mut [i64], table: &[i64], made: &[i64], notes: &[i64], hop: i64) -> bool {
    let mut changed = false;
    for (k, q) in interval::ranges(made).enumerate() {
        let x = Var(k);
        let back = interval::range_at(table, x).join(q);
        changed |= lower_range(guess, x, back, interval::range_at(notes, x), hop);
    }
    changed
}

fn lower_place(
    guess: &mut [i64],
    vars: usize,
    n: usize,
    table: &[i64],
    made: &[i64],
    notes: &[i64],
    hop: i64,
) -> bool
    requires guess { n * width vars + width vars ≤ length guess.old }
    requires table { n * width vars + width vars ≤ length table.now }
    requires notes { n * width vars + width vars ≤ length notes.now }
{
    let row = table::row_of(table, vars, n);
    let note = table::row_of(notes, vars, n);
    let ends = &mut guess[table::row_bounds(vars, n)];
    lower_box(&mut ends[1..], &row[1..], made, &note[1..], hop)
}

fn lower_hop(
    guess: &mut [i64],
    counts: Counts,
    hop: Hop,
    words: u32,
    table: &[i64],
    notes: &[i64],
    made: &mut [i64],
) -> bool
    requires guess { length guess.old ≡ wants counts }
    requires table { length table.now ≡ wants counts }
    requires notes { length notes.now ≡ wants counts }
    requires made { length made.old ≡ 2 * counts.vars }
    requires here { hop.from.0 ≤ counts.steps }
    requires there { hop.to.0 ≤ counts.steps }
{
    let Some(()) = fixpoint::make(guess, counts, hop, words, made) else {
        return false;
    };
    let number = fixpoint::hop_number(hop);
    lower_place(guess, counts.vars, hop.to.0, table, made, notes, number)
}

fn lower_sweep(
    program: &Program,
    guess: &mut [i64],
    table: &[i64],
    notes: &[i64],
    made: &mut [i64],
) -> bool
    requires guess { length guess.old ≡ wants (counts_of program.now) }
    requires table { length table.now ≡ wants (counts_of program.now) }
    requires notes { length notes.now ≡ wants (counts_of program.now) }
    requires made { length made.old ≡ 2 * program.now.vars }
{
    let counts = program.counts();
    let mut changed = false;
    for hop in Hops::of(program) {
        let words = table::words_of(program.rows(), hop.step);
        changed |= lower_hop(guess, counts, hop, words, table, notes, made);
    }
    changed
}

// Lowers until nothing changes, with no more sweeps than there are places; the answer is how many.
pub(crate) fn lower(
    program: &Program,
    guess: &mut [i64],
    table: &[i64],
    notes: &[i64],
    made: &mut [i64],
) -> u64
    requires guess { length guess.old ≡ wants (counts_of program.now) }
    requires table { length table.now ≡ wants (counts_of program.now) }
    requires notes { length notes.now ≡ wants (counts_of program.now) }
    requires made { length made.old ≡ 2 * program.now.vars }
{
    let mut sweeps = 0u64;
    for _ in 0..=program.counts().steps {
        sweeps = sweeps.saturating_add(1);
        if !lower_sweep(program, guess, table, notes, made) {
            break;
        }
    }
    sweeps
}
