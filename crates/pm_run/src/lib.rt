//! A run of a machine: the lines of a source are answered, and their replies written.
#![tactic(auto)]

mod lines;
mod run;
mod statuses;

pub use lines::write_all;
pub use run::{run_lines, run_on};
pub use statuses::Status;
