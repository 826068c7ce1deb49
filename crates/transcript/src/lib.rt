// What a run shows, and how it ended, as text.
#![tactic(auto)]

mod endings;
mod runs;

pub use runs::run_text;
