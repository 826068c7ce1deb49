// Looking at each step once.

ghost use Rattle.std.specs.Prelude.{◌≡◌, ◌+◌, ◌*◌, ◌<◌, ◌≤◌, T, length, slice_index};
ghost use Rattle.std.specs.Option.{option_map};
ghost use Rattle.program.specs.Program.{Prog, counts_of};
ghost use Rattle.program.specs.Rows.{Program as Reads, ok_i};
ghost use Rattle.interval.specs.Ranges.{within};
ghost use Rattle.table.specs.declared.fault.Fault.TheVariants.{Start};
ghost use Rattle.table.specs.Tables.{words_of, zeros};
ghost use Rattle.table.specs.Hops.{IsHop};
ghost use Rattle.table.specs.Rows.{width, wants, place_in};
ghost use Rattle.table.specs.Says.{CheckPost};
ghost use Rattle.table.specs.Looking.{missed, rows_fault, hop_fault, steps_fault, fault_in, unless};

use crate::fault::{Fault, NotGood};
use crate::hops::{Hop, Hops};
use crate::place::{check_row, covered, is_known, row_bounds, row_of};
use program::{Array, Program, Step};

fn check_rows(table: &[i64], vars: usize, places: usize) -> Result<(), Fault>
    requires { places * width vars ≤ length table.now }
    ensures { result ≡ unless (rows_fault vars 0 table.now places) }
{
    // n is a place, and tells where its row begins
    for n in 0..places {
        check_row(row_of(table, vars, n), row_bounds(vars, n).start)?;
    }
    Ok(())
}

// Whether place 0 allows all variables to be 0.
fn check_start(table: &[i64], vars: usize) -> Result<(), Fault>
    requires few { vars ≤ 64 }
    requires there { width vars ≤ length table.now }
    ensures { result ≡ unless (option_map Start (missed (within (zeros vars)) (place_in vars table.now 0))) }
{
    // no heap: room for the most variables that a program may have
    let numbers = [0i64; 128];
    covered(&numbers[0..2 * vars], row_of(table, vars, 0)).map_err(Fault::Start)
}

// Whether the place to which a hop leads has what the hop makes there. `words` is the length of the array that its step names.
fn check_hop(table: &[i64], vars: usize, hop: Hop, words: u32, out: &mut [i64]) -> Result<(), Fault>
    requires room { length out.old ≡ 2 * vars }
    requires here { hop.from.0 * width vars + width vars ≤ length table.now }
    requires there { hop.to.0 * width vars + width vars ≤ length table.now }
    ensures { result ≡ unless (hop_fault words vars table.now hop) }
{
    let row = row_of(table, vars, hop.from.0);
    if !is_known(row) {
        return Ok(());
    }
    let Some(()) = interval::transfer(hop.step, hop.way, words, &row[1..], out) else {
        return Ok(());
    };
    covered(out, row_of(table, vars, hop.to.0)).map_err(|miss| Fault::NotCarried(
        hop.from, hop.to, miss,
    ))
}

// The `as` is proved to lose nothing, so a `try_from` would be no plainer.
fn length_of(rows: &[i64], array: Array) -> u32
    ensures few { result ≤ 65536 }
    ensures length { (p : Prog) → Reads rows.now p → array.0 < length p.arrays → result ≡ slice_index p.arrays array.0 }
{
    program::array_length(rows, array).unwrap_or(0) as u32
}

// The length of the array that a step of the program names.
pub fn words_of(rows: &[i64], step: Step) -> u32
    ensures few { result ≤ 65536 }
    ensures words { (p : Prog) → Reads rows.now p → T (ok_i (counts_of p) step) → result ≡ words_of p step }
{
    match step {
        Step::Load(_, a, _) => length_of(rows, a),
        Step::Store(a, _, _) => length_of(rows, a),
        _ => 0,
    }
}

fn check_hops(program: &Program, table: &[i64], out: &mut [i64]) -> Result<(), Fault>
    requires long { length table.now ≡ wants (counts_of program.now) }
    requires room { length out.old ≡ 2 * program.now.vars }
    ensures { result ≡ unless (steps_fault program.now table.now 0 program.now.code) }
{
    let vars = program.counts().vars;
    for hop in Hops::of(program) {
        let words = words_of(program.rows(), hop.step);
        check_hop(table, vars, hop, words, out)?;
    }
    Ok(())
}

fn check_table(program: &Program, table: &[i64]) -> Result<(), Fault>
    ensures { result ≡ unless (fault_in program.now table.now) }
{
    let counts = program.counts();
    let size = (counts.steps + 1) * (1 + 2 * counts.vars);
    if table.len() != size {
        return Err(Fault::Size(size));
    }
    check_rows(table, counts.vars, counts.steps + 1)?;
    check_start(table, counts.vars)?;
    // room for the most variables, as nothing is allocated
    let mut numbers = [0i64; 128];
    check_hops(program, table, &mut numbers[0..2 * counts.vars])
}

// Whether a table holds for a program.
pub fn check<'a>(rows: &'a [i64], table: &[i64]) -> Result<Program<'a>, NotGood>
    ensures { CheckPost rows.now table.now result }
{
    let program = program::read(rows)?;
    check_table(&program, table)?;
    Ok(program)
}
