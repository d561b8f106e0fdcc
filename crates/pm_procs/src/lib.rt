//! The table of sessions and processes.
#![tactic(auto)]

mod checks;
mod errors;
mod numbered;
mod table;
mod walks;

pub use errors::{ProcsError, change_error};
pub use table::Procs;
