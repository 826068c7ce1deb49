// One round over a table: what each hop makes is joined into the place to which it leads. The hop that last widens an end is
// noted.

ghost use Rattle.std.specs.Prelude.{◌≡◌, ◌*◌, ◌≤◌, length};
ghost use Rattle.program.specs.Program.{counts_of};
ghost use Rattle.table.specs.Tables.{at};
ghost use Rattle.table.specs.Rows.{wants};
ghost use Rattle.fixpoint.specs.Hops.{after};
ghost use Rattle.fixpoint.specs.Joining.{table_in, Joined, RoundPost};

use crate::joining::join_place;
use crate::making::{hop_number, make};
use crate::noting::note_place;
use program::{Counts, Program};
use table::{Hop, Hops};

// The answers say whether anything changed.
fn join_hop(
    table: &mut [i64],
    counts: Counts,
    hop: Hop,
    words: u32,
    out: &mut [i64],
    notes: &mut [i64],
) -> bool
    requires long { length table.old ≡ wants counts }
    requires room { length out.old ≡ 2 * counts.vars }
    requires notes { length notes.old ≡ wants counts }
    requires here { hop.from.0 ≤ counts.steps }
    requires there { hop.to.0 ≤ counts.steps }
    ensures { Joined counts hop.to.0 (after words hop.way hop.step (at (table_in counts table.old) hop.from.0)) table.old table.new result }
{
    let Some(()) = make(table, counts, hop, words, out) else {
        return false;
    };
    note_place(notes, table, counts.vars, hop.to.0, out, hop_number(hop));
    join_place(table, counts, hop.to.0, out)
}

// One round over the table of a program; the answer is whether anything changed. `out` has room for a box, and `notes` has for
// each number of the table the hop that last widened it there.
pub fn round(program: &Program, table: &mut [i64], out: &mut [i64], notes: &mut [i64]) -> bool
    requires long { length table.old ≡ wants (counts_of program.now) }
    requires room { length out.old ≡ 2 * program.now.vars }
    requires notes { length notes.old ≡ wants (counts_of program.now) }
    ensures { RoundPost program.now table.old table.new result }
{
    let counts = program.counts();
    let mut changed = false;
    for hop in Hops::of(program) {
        let words = table::words_of(program.rows(), hop.step);
        changed |= join_hop(table, counts, hop, words, out, notes);
    }
    changed
}
