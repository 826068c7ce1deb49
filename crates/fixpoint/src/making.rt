// What a hop makes of a table.

ghost use Rattle.std.specs.Prelude.{◌≡◌, ◌*◌, ◌^◌, ◌<◌, ◌≤◌, length};
ghost use Rattle.interval.specs.Boxes.{at_of};
ghost use Rattle.table.specs.Tables.{at};
ghost use Rattle.table.specs.Rows.{wants};
ghost use Rattle.fixpoint.specs.Hops.{after};
ghost use Rattle.fixpoint.specs.Joining.{table_in};

use interval::Way;
use program::Counts;
use table::Hop;

// The number of a hop, from 1 on: what lent numbers can note of it. The `as` is proved to lose nothing, so a `try_from`
// would be no plainer.
pub fn hop_number(hop: Hop) -> i64
    requires { hop.from.0 < 2 ^ 61 }
{
    let first = 1 + 2 * hop.from.0 as i64;
    match hop.way {
        Way::Jump => first,
        Way::Next => first + 1,
    }
}

// Makes in `out` what is known where a hop leads, if anything comes there. `words` is the length of the array that its step
// names.
#[inline(always)]
pub fn make(table: &[i64], counts: Counts, hop: Hop, words: u32, out: &mut [i64]) -> Option<()>
    requires long { length table.now ≡ wants counts }
    requires room { length out.old ≡ 2 * counts.vars }
    requires here { hop.from.0 ≤ counts.steps }
    ensures { at_of result out.new ≡ after words hop.way hop.step (at (table_in counts table.now) hop.from.0) }
{
    let row = table::row_of(table, counts.vars, hop.from.0);
    if !table::is_known(row) {
        return None;
    }
    interval::transfer(hop.step, hop.way, words, &row[1..], out)
}
