// Runs of programs, with the tests left out that a table licenses.
#![tactic(auto)]

mod call;
mod going;
mod memory;
mod ran;

pub use call::{run, wants};
pub use ran::Ran;
