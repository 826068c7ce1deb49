// Reading a step that is known to be there. program::step_at tells kinds apart too, and tests each number: a run is not to do
// that again at each step.

ghost use Rattle.std.specs.Prelude.{◌≡◌, List, ◌++◌, drop, ℤ};
ghost use Rattle.program.specs.declared.Step.{Step};
ghost use Rattle.program.specs.Rows.{row_v, row_i};
ghost use Rattle.machine.specs.Fetching.{row_n, row_two, Begins, Fetched};

use program::{Array, Operand, Place, Step, Var};

fn index(row: &[i64], k: usize) -> usize
    requires { Begins row_n (drop k row.now) }
    ensures { Fetched row_n (drop k row.now) result }
{
    row[k] as usize
}

fn operand(row: &[i64], k: usize) -> Operand
    requires { Begins row_v (drop k row.now) }
    ensures { Fetched row_v (drop k row.now) result }
{
    if row[k] == 0 {
        return Operand::Num(row[k + 1]);
    }
    Operand::Var(Var(index(row, k + 1)))
}

// A number that names something, and two operands.
fn two(row: &[i64]) -> (usize, Operand, Operand)
    requires { Begins row_two (drop 1 row.now) }
    ensures { Fetched row_two (drop 1 row.now) result }
{
    (index(row, 1), operand(row, 2), operand(row, 4))
}

// The step whose row these numbers begin with. A kind is a number in rows alone, and is a step at once.
fn first_step(row: &[i64]) -> Step
    requires { Begins row_i row.now }
    ensures { Fetched row_i row.now result }
{
    match row[0] {
        0 => Step::Set(Var(index(row, 1)), operand(row, 2)),
        1 => {
            let (x, a, b) = two(row);
            Step::Add(Var(x), a, b)
        }
        2 => {
            let (x, a, b) = two(row);
            Step::Sub(Var(x), a, b)
        }
        3 => Step::Mul(Var(index(row, 1)), row[2], operand(row, 3)),
        4 => Step::Load(Var(index(row, 1)), Array(index(row, 2)), operand(row, 3)),
        5 => {
            let (a, i, v) = two(row);
            Step::Store(Array(a), i, v)
        }
        6 => Step::Ask(Var(index(row, 1))),
        7 => Step::Show(operand(row, 1)),
        8 => Step::Go(Place(index(row, 1))),
        9 => {
            let (t, a, b) = two(row);
            Step::Less(a, b, Place(t))
        }
        _ => Step::Stop,
    }
}

// The step whose row begins there, with nothing tested.
pub fn fetch(rows: &[i64], at: usize) -> Step
    requires { (i : Step) × (rest : List ℤ) × (drop at rows.now ≡ row_i i ++ rest) }
    ensures { (i : Step) (rest : List ℤ) → drop at rows.now ≡ row_i i ++ rest → result ≡ i }
{
    first_step(&rows[at..])
}
