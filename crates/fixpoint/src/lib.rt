// The least table that holds, and going round to it.
//
// A table is a lent slice beside its program's counts, and contracts ask for its length. Tried as a struct with that length for an
// invariant: each function would have to promise besides that the struct goes on to hold the same slice and counts, which is no
// plainer. The boxes that are lent, and that a place is one of the table, are asked for in the same way: each clause says one thing
// of one parameter.
#![tactic(auto)]

mod begin;
mod guess;
mod joining;
mod making;
mod moving;
mod noting;
mod reaching;
mod rounding;

pub use begin::start;
pub use guess::{Confirmed, confirm};
pub use joining::join_place;
pub use making::{hop_number, make};
pub use rounding::round;
