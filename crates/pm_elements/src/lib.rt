//! The table of policy elements and assignments.
#![tactic(auto)]

mod checks;
mod containers;
mod errors;
mod kinds;
mod links;
mod listing;
mod places;
mod removal;
mod slots;
mod table;

pub use errors::{ElementsError, change_error};
pub use table::Elements;
