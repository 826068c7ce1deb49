// What the command line programs print, and what they refuse.
#![tactic(auto)]

mod check;
mod input;
mod licences;
mod list;
mod load;
mod output;

pub use check::check_text;
pub use input::{NUMBERS, SHOWN, TABLE, TEXT, WORK, read_text};
pub use licences::licence_text;
pub use list::list_text;
pub use load::{load_numbers, load_program, load_table};
pub use output::finish;
