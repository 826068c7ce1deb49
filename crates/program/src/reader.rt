// Reading a program from its rows.

ghost use Rattle.std.specs.Prelude.{◌≡◌, ℕ, ◌+◌, ◌<◌, ◌≤◌, true, [], length, take, drop, is_ok, Some, Ok};
ghost use Rattle.std.specs.List.{slice_get};
ghost use Rattle.std.specs.Result.{result_unwrap_or};
ghost use Rattle.program.specs.declared.refusal.Field.TheVariants.{Length};
ghost use Rattle.program.specs.Program.{Prog, counts_of};
ghost use Rattle.program.specs.Rows.{Program as Reads};
ghost use Rattle.program.specs.declared.reader.NoOffsets.TheVariants.{NoProgram};
ghost use Rattle.program.specs.Says.{ReadPost, OffsetsPost};
ghost use Rattle.program.specs.Reading.{number_in, literal_in, index_in, operand_in, two_in, step_in, next_at, steps_at, words_in, counts_in, end_in, first, offsets_of};

use crate::refusal::{Field, Reason, Refusal};
use crate::rows::Program;
use crate::step::{Array, Operand, Place, Step, Var};

// How large a program is.
#[derive(Clone, Copy)]
pub struct Counts {
    pub vars: usize,
    pub arrays: usize,
    // the arrays' lengths together
    pub words: usize,
    pub steps: usize,
}

// Why no offsets were written: the rows are no program, or fewer numbers were lent than it has steps.
#[derive(Clone, Copy)]
pub enum NoOffsets {
    NoProgram(Refusal),
    Few,
}

impl From<Refusal> for NoOffsets {
    ghost from_gives = { λ refusal r. r ≡ NoProgram refusal };

    fn from(refusal: Refusal) -> NoOffsets {
        NoOffsets::NoProgram(refusal)
    }
}

// The k-th number of a row.
fn number(row: &[i64], k: usize, field: Field) -> Result<i64, Refusal>
    ensures { result ≡ number_in row.now k field }
{
    row.get(k).copied().ok_or_else(|| Refusal {
        at: row.len(),
        reason: Reason::Missing(field),
    })
}

fn literal(row: &[i64], k: usize) -> Result<i64, Refusal>
    ensures { result ≡ literal_in row.now k }
{
    number(row, k, Field::Number)
}

// The k-th number of a row, if it is as large as it may be there.
fn index(row: &[i64], k: usize, field: Field) -> Result<usize, Refusal>
    ensures { result ≡ index_in row.now k field }
{
    let z = number(row, k, field)?;
    // tried as `usize::try_from`: a step is read in a fifth more instructions
    if z < 0 || !field.allows(z as usize) {
        return Err(Refusal {
            at: k,
            reason: Reason::Outside(field, z),
        });
    }
    Ok(z as usize)
}

fn operand(row: &[i64], k: usize, vars: usize) -> Result<Operand, Refusal>
    requires { k < 8 }
    ensures { result ≡ operand_in vars row.now k }
{
    match index(row, k, Field::OperandKind)? {
        0 => Ok(Operand::Num(literal(row, k + 1)?)),
        _ => Ok(Operand::Var(Var(index(row, k + 1, Field::Variable(vars))?))),
    }
}

// A number that names something, and two operands.
fn two(row: &[i64], field: Field, vars: usize) -> Result<(usize, Operand, Operand), Refusal>
    ensures { result ≡ two_in field vars row.now }
{
    let x = index(row, 1, field)?;
    let a = operand(row, 2, vars)?;
    let b = operand(row, 4, vars)?;
    Ok((x, a, b))
}

// The step that a row begins with.
fn step_in(row: &[i64], counts: Counts) -> Result<Step, Refusal>
    ensures { result ≡ step_in counts row.now }
{
    let vars = counts.vars;
    let variable = Field::Variable(vars);
    let array = Field::Array(counts.arrays);
    let place = Field::Place(counts.steps);
    // a kind is a number of the format alone, and becomes a step at once
    match index(row, 0, Field::Kind)? {
        0 => Ok(Step::Set(Var(index(row, 1, variable)?), operand(row, 2, vars)?)),
        1 => {
            let (x, a, b) = two(row, variable, vars)?;
            Ok(Step::Add(Var(x), a, b))
        }
        2 => {
            let (x, a, b) = two(row, variable, vars)?;
            Ok(Step::Sub(Var(x), a, b))
        }
        3 => Ok(Step::Mul(
            Var(index(row, 1, variable)?),
            literal(row, 2)?,
            operand(row, 3, vars)?,
        )),
        4 => Ok(Step::Load(
            Var(index(row, 1, variable)?),
            Array(index(row, 2, array)?),
            operand(row, 3, vars)?,
        )),
        5 => {
            let (a, i, v) = two(row, array, vars)?;
            Ok(Step::Store(Array(a), i, v))
        }
        6 => Ok(Step::Ask(Var(index(row, 1, variable)?))),
        7 => Ok(Step::Show(operand(row, 1, vars)?)),
        8 => Ok(Step::Go(Place(index(row, 1, place)?))),
        9 => {
            let (t, a, b) = two(row, place, vars)?;
            Ok(Step::Less(a, b, Place(t)))
        }
        _ => Ok(Step::Stop),
    }
}

// The step at an offset of the rows, and where the next one begins. Of any rows: a `Program` would ask more.
pub fn step_at(rows: &[i64], counts: Counts, at: usize) -> Result<(Step, usize), Refusal>
    ensures { result ≡ next_at counts rows.now at }
{
    let start = at.min(rows.len());
    // tried as `map_err`: that the place of this refusal, moved on, has its place in 64 bits isn't known to a closure
    match step_in(&rows[start..], counts) {
        Ok(step) => Ok((step, start + step.width())),
        Err(f) => Err(Refusal {
            at: start + f.at,
            reason: f.reason,
        }),
    }
}

// The length of an array, which the rows have from their third number on.
pub fn array_length(rows: &[i64], array: Array) -> Result<usize, Refusal>
    ensures exact { result ≡ index_in rows.now (2 + array.0) Length }
    ensures length { (p : Prog) (n : ℕ) → Reads rows.now p → slice_get p.arrays array.0 ≡ Some n → result ≡ Ok n }
{
    index(rows, array.0.saturating_add(2), Field::Length)
}

// The arrays' lengths together.
fn words(rows: &[i64], arrays: usize) -> Result<usize, Refusal>
    requires { arrays ≤ 16 }
    ensures { result ≡ words_in rows.now arrays }
{
    let mut sum = 0;
    // k is an array's name, and the place of a refusal
    for k in 0..arrays {
        sum += array_length(rows, Array(k))?;
    }
    Ok(sum)
}

// What stands before the steps.
pub(crate) fn header(rows: &[i64]) -> Result<Counts, Refusal>
    ensures { result ≡ counts_in rows.now }
{
    let vars = index(rows, 0, Field::Variables)?;
    let arrays = index(rows, 1, Field::Arrays)?;
    let words = words(rows, arrays)?;
    let steps = index(rows, 2 + arrays, Field::Steps)?;
    Ok(Counts {
        vars,
        arrays,
        words,
        steps,
    })
}

// Where the steps end. The rows are no `Program` before it is known.
fn steps_end(rows: &[i64], counts: Counts) -> Result<usize, Refusal>
    requires { counts.arrays ≤ 16 }
    ensures { result ≡ end_in counts rows.now }
{
    let mut at = 3 + counts.arrays;
    for _ in 0..counts.steps {
        let (_, next) = step_at(rows, counts, at)?;
        at = next;
    }
    Ok(at)
}

// The program that the rows are.
pub fn read(rows: &[i64]) -> Result<Program<'_>, Refusal>
    ensures { ReadPost rows.now result }
{
    let counts = header(rows)?;
    let end = steps_end(rows, counts)?;
    if end != rows.len() {
        return Err(Refusal {
            at: end,
            reason: Reason::Extra,
        });
    }
    Ok(Program { rows, counts })
}

fn write_offsets(program: &Program, work: &mut [i64])
    requires { length program.now.code ≤ length work.old }
    ensures written { take (length program.now.code) work.new ≡ offsets_of (first (counts_of program.now)) program.now.code }
    ensures rest { drop (length program.now.code) work.new ≡ drop (length program.now.code) work.old }
{
    // Where rows begin is wanted here and for marks alone: steps that gave it would be no plainer in the other loops.
    // The `as` is proved to lose nothing, so neither would a `try_from` be.
    let mut at = 3 + program.counts().arrays;
    for (Place(k), step) in program.steps() {
        work[k] = at as i64;
        at += step.width();
    }
}

// Writes where each step's row begins.
pub fn offsets(rows: &[i64], work: &mut [i64]) -> Result<Counts, NoOffsets>
    ensures { OffsetsPost rows.now work.old work.new result }
{
    let program = read(rows)?;
    let counts = program.counts();
    if work.len() < counts.steps {
        return Err(NoOffsets::Few);
    }
    write_offsets(&program, work);
    Ok(counts)
}
