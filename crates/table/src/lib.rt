// Tables of ranges for all places, whether they hold, and which tests they license.
//
// A table is a slice beside its counts, and functions ask that a row lies in it: `fixpoint` says why.
#![tactic(auto)]

mod fault;
mod hops;
mod licence;
mod look;
mod place;

pub use fault::{Fault, Miss, NotGood};
pub use hops::{Hop, Hops, place_named};
pub use licence::licensed;
pub use look::{check, words_of};
pub use place::{is_known, row_bounds, row_of};
