//! The table of kept reviews.
#![tactic(auto)]

mod changes;
mod checks;
mod errors;
mod items;
mod places;
mod table;

pub use errors::{KeptError, change_error};
pub use table::KeptReviews;
