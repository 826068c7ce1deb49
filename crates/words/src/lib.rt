// Steps in words.
#![tactic(auto)]

ghost use Rattle.std.specs.Prelude.{Some};
ghost use Rattle.words.specs.Words.{var_words, array_words, operand_words, step_words};

use program::{Array, Operand, Place, Step, Var};
use std::fmt;

// A step, or a part of one, to be written in words.
#[derive(Clone, Copy)]
pub struct Words<T>(pub T);

impl fmt::Display for Words<Var> {
    ghost output = { λ x. Some (var_words x.0) };

    fn fmt<W: fmt::Write>(&self, f: &mut fmt::Formatter<W>) -> fmt::Result {
        let Var(n) = self.0;
        write!(f, "v{n}")
    }
}

impl fmt::Display for Words<Array> {
    ghost output = { λ a. Some (array_words a.0) };

    fn fmt<W: fmt::Write>(&self, f: &mut fmt::Formatter<W>) -> fmt::Result {
        let Array(n) = self.0;
        write!(f, "a{n}")
    }
}

impl fmt::Display for Words<Operand> {
    ghost output = { λ e. Some (operand_words e.0) };

    fn fmt<W: fmt::Write>(&self, f: &mut fmt::Formatter<W>) -> fmt::Result {
        match self.0 {
            Operand::Num(z) => write!(f, "{z}"),
            Operand::Var(x) => write!(f, "{}", Words(x)),
        }
    }
}

impl fmt::Display for Words<Step> {
    ghost output = { λ i. Some (step_words i.0) };

    fn fmt<W: fmt::Write>(&self, f: &mut fmt::Formatter<W>) -> fmt::Result {
        match self.0 {
            Step::Set(x, e) => write!(f, "set {} = {}", Words(x), Words(e)),
            Step::Add(x, a, b) => write!(f, "add {} = {} + {}", Words(x), Words(a), Words(b)),
            Step::Sub(x, a, b) => write!(f, "sub {} = {} - {}", Words(x), Words(a), Words(b)),
            Step::Mul(x, z, e) => write!(f, "mul {} = {z} * {}", Words(x), Words(e)),
            Step::Load(x, a, e) => write!(f, "load {} = {}[{}]", Words(x), Words(a), Words(e)),
            Step::Store(a, i, e) => write!(f, "store {}[{}] = {}", Words(a), Words(i), Words(e)),
            Step::Ask(x) => write!(f, "ask {}", Words(x)),
            Step::Show(e) => write!(f, "show {}", Words(e)),
            Step::Go(Place(t)) => write!(f, "go {t}"),
            Step::Less(a, b, Place(t)) => write!(f, "less {} < {} to {t}", Words(a), Words(b)),
            Step::Stop => write!(f, "stop"),
        }
    }
}
