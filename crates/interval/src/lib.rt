// Ranges for variables, and what a step makes of them.
#![tactic(auto)]

mod boxes;
mod range;
mod tests;
mod transfers;

pub use boxes::{BoxRanges, range_at, ranges, set_range};
pub use range::Range;
pub use tests::sure;
pub use transfers::{Way, transfer};
