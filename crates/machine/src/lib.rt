// One step of a run on lent memory.
#![tactic(auto)]

mod action;
mod arrays;
mod cursor;
mod exchange;
mod marks;
mod row;
mod variables;

pub use action::perform;
pub use cursor::{Cursor, Outcome};
pub use marks::{Mark, mark_steps};
pub use row::fetch;
