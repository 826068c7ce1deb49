// Steps and what they are made of.

ghost use Rattle.std.specs.Prelude.{◌≡◌};
ghost use Rattle.program.specs.Reading.{width};
ghost use Rattle.program.specs.Runs.{has_test};

// A place of a program: that of a step, or the one behind the last.
#[derive(Clone, Copy)]
pub struct Place(pub usize);

#[derive(Clone, Copy)]
pub struct Var(pub usize);

#[derive(Clone, Copy)]
pub struct Array(pub usize);

#[derive(Clone, Copy)]
pub enum Operand {
    Num(i64),
    Var(Var),
}

#[derive(Clone, Copy)]
pub enum Step {
    // the variable becomes the operand
    Set(Var, Operand),
    // the variable becomes the sum, the difference, or the number times the operand
    Add(Var, Operand, Operand),
    Sub(Var, Operand, Operand),
    Mul(Var, i64, Operand),
    // the variable becomes what the array has at the operand
    Load(Var, Array, Operand),
    // the array gets, at the first operand, the second
    Store(Array, Operand, Operand),
    // the variable becomes the next number handed in
    Ask(Var),
    Show(Operand),
    Go(Place),
    // to the place if the first operand is less than the second, else on
    Less(Operand, Operand, Place),
    Stop,
}

impl Step {
    // Whether the step has a test, which ends the run if it fails.
    pub fn has_test(self) -> bool
        ensures { result ≡ has_test self }
    {
        match self {
            Step::Add(..) | Step::Sub(..) | Step::Mul(..) | Step::Load(..) | Step::Store(..) =>
                true,
            _ => false,
        }
    }

    // How many numbers the step's row has.
    pub fn width(self) -> usize
        ensures { result ≡ width self }
    {
        match self {
            Step::Set(..) => 4,
            Step::Add(..) | Step::Sub(..) | Step::Store(..) | Step::Less(..) => 6,
            Step::Mul(..) | Step::Load(..) => 5,
            Step::Ask(_) | Step::Go(_) => 2,
            Step::Show(_) => 3,
            Step::Stop => 1,
        }
    }
}
