// The table from which rounds begin.

ghost use Rattle.std.specs.Prelude.{◌≡◌, length};
ghost use Rattle.program.specs.Program.{Prog, counts_of};
ghost use Rattle.table.specs.Rows.{row_t, wants};
ghost use Rattle.fixpoint.specs.Rounds.{start};
ghost use Rattle.fixpoint.specs.Joining.{table_in};

use crate::joining::set_known;
use program::Counts;

// Writes it: all variables are 0 at place 0, and nothing comes to the others.
pub fn start(counts: Counts, table: &mut [i64])
    requires { length table.old ≡ wants counts }
    ensures rows { (p : Prog) → counts ≡ counts_of p → row_t counts.vars (start p) ≡ table.new }
    ensures table { (p : Prog) → counts ≡ counts_of p → table_in counts table.new ≡ start p }
{
    table.fill(0);
    set_known(table);
}
