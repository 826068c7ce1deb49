// Whole numbers of 64 bits with sign: sums, differences and products that say when they have no place.
#![tactic(auto)]

mod checked;
mod wide;

pub use checked::{difference, product, sum};
pub use wide::Wide;
