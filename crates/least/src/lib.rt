// The least table of a program, found. A table is a slice beside its program's counts here too, as `fixpoint` says.
#![tactic(auto)]

mod call;
mod dropping;
mod going;
mod guess;
mod lowering;
mod raising;
mod taking;

pub use call::{Found, find};
