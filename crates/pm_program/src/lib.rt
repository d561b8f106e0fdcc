//! The program over any machine: a run, or what else its words ask for.
#![tactic(auto)]

mod exporting;
mod generating;
mod making;
mod program;
mod reading;
mod saying;

pub use program::top;
pub use saying::say;
