// Programs of steps, and reading them from rows of numbers.
#![tactic(auto)]

mod reader;
mod refusal;
mod rows;
mod step;

pub use reader::{Counts, NoOffsets, array_length, offsets, read, step_at};
pub use refusal::{Field, Reason, Refusal};
pub use rows::{Program, Steps};
pub use step::{Array, Operand, Place, Step, Var};
