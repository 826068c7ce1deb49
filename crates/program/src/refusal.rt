// Why rows of numbers are no program.

ghost use Rattle.std.specs.Prelude.{◌≡◌};
ghost use Rattle.program.specs.Reading.{allows};

use std::fmt;

// What a number of the rows stands for.
#[derive(Clone, Copy)]
pub enum Field {
    Variables,
    Arrays,
    Length,
    Steps,
    Kind,
    OperandKind,
    Number,
    // one of so many
    Variable(usize),
    Array(usize),
    // one of so many steps, or the place behind the last
    Place(usize),
}

#[derive(Clone, Copy)]
pub enum Reason {
    // the rows end where this should stand
    Missing(Field),
    // a number that this can't be
    Outside(Field, i64),
    // a number behind the last step
    Extra,
}

#[derive(Clone, Copy)]
pub struct Refusal {
    // which number of the rows, from 0
    pub at: usize,
    pub reason: Reason,
}

// What a number may be, in words.
#[derive(Clone, Copy)]
enum Rule {
    Says(&'static str),
    // one of so many, which are named from 0
    Named(&'static str, usize),
}

impl Field {
    // Whether a number may stand here, as far as that is a matter of its size.
    pub(crate) fn allows(self, n: usize) -> bool
        ensures { result ≡ allows self n }
    {
        match self {
            Field::Variables => 1 <= n && n <= 64,
            Field::Arrays => n <= 16,
            Field::Length => n <= 65536,
            Field::Steps => n <= 4096,
            Field::Kind => n <= 10,
            Field::OperandKind => n <= 1,
            Field::Number => true,
            Field::Variable(vars) => n < vars,
            Field::Array(arrays) => n < arrays,
            Field::Place(steps) => n <= steps,
        }
    }

    fn name(self) -> &'static str {
        match self {
            Field::Variables => "the number of variables",
            Field::Arrays => "the number of arrays",
            Field::Length => "an array's length",
            Field::Steps => "the number of steps",
            Field::Kind => "a step's kind",
            Field::OperandKind => "an operand's kind",
            Field::Number => "a number",
            Field::Variable(_) => "a variable",
            Field::Array(_) => "an array",
            Field::Place(_) => "a place",
        }
    }

    fn rule(self) -> Rule {
        match self {
            Field::Variables => Rule::Says("a program has 1 to 64 variables"),
            Field::Arrays => Rule::Says("a program has 0 to 16 arrays"),
            Field::Length => Rule::Says("an array has 0 to 65536 numbers"),
            Field::Steps => Rule::Says("a program has 0 to 4096 steps"),
            Field::Kind => Rule::Says("a step's kind is 0 to 10"),
            Field::OperandKind => Rule::Says("an operand is 0 and a number, or 1 and a variable"),
            Field::Number => Rule::Says("a number has 64 bits"),
            Field::Variable(vars) => Rule::Named("variables", vars),
            Field::Array(arrays) => Rule::Named("arrays", arrays),
            Field::Place(steps) => Rule::Named("places", steps.saturating_add(1)),
        }
    }
}

impl fmt::Display for Rule {
    fn fmt<W: fmt::Write>(&self, f: &mut fmt::Formatter<W>) -> fmt::Result {
        match self {
            Rule::Says(text) => write!(f, "{text}"),
            Rule::Named(what, 0) => write!(f, "this program has no {what}"),
            Rule::Named(what, n) => {
                let last = n.saturating_sub(1);
                write!(f, "this program has {what} 0 to {last}")
            }
        }
    }
}

impl fmt::Display for Refusal {
    fn fmt<W: fmt::Write>(&self, f: &mut fmt::Formatter<W>) -> fmt::Result {
        // numbers are counted from 1
        let number = self.at.saturating_add(1);
        match self.reason {
            Reason::Missing(field) => {
                let name = field.name();
                write!(f, "number {number} is missing, {name}")
            }
            Reason::Outside(field, z) => {
                let rule = field.rule();
                write!(f, "number {number} is {z}, and {rule}")
            }
            Reason::Extra => write!(
                f,
                "number {number} is one too many, as the last step ends before it"
            ),
        }
    }
}
