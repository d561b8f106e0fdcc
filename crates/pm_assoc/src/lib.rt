//! The table of associations.
#![tactic(auto)]

mod checks;
mod errors;
mod grantees;
mod holders;
mod search;
mod table;

pub use errors::{AssocError, change_error};
pub use table::Assoc;
