// Which tests a table licenses.

ghost use Rattle.std.specs.Prelude.{◌≡◌, Some};
ghost use Rattle.std.specs.List.{slice_get};
ghost use Rattle.program.specs.Program.{Prog};
ghost use Rattle.program.specs.Rows.{Program};
ghost use Rattle.table.specs.Tables.{Table};
ghost use Rattle.table.specs.Rows.{row_t};
ghost use Rattle.table.specs.Licences.{licensed};
ghost use Rattle.table.specs.Says.{Full};

use crate::look::words_of;
use crate::place::{is_known, row_of};
use program::{Place, Step};

// Whether a table of a program licenses the step at a place. The answer says nothing where there is no such place.
pub fn licensed(rows: &[i64], table: &[i64], vars: usize, place: Place, step: Step) -> bool
    ensures { (p : Prog) (t : Table) → Program rows.now p → vars ≡ p.vars → Full p t → row_t vars t ≡ table.now → slice_get p.code place.0 ≡ Some step → result ≡ licensed p t place.0 }
{
    let n = place.0;
    if vars > 64 || n >= 4096 || table.len() < (n + 1) * (1 + 2 * vars) {
        return false;
    }
    let row = row_of(table, vars, n);
    if !is_known(row) {
        return true;
    }
    interval::sure(step, words_of(rows, step), &row[1..])
}
