//! The list of prohibitions.
#![tactic(auto)]

mod checks;
mod errors;
mod items;
mod table;

pub use errors::{DenyError, change_error};
pub use table::Deny;
