//! The lines that make a policy document.
#![tactic(auto)]

mod laws;
mod lines;
mod requests;
mod writing;

pub use laws::lines_make;
pub use lines::request_lines;
