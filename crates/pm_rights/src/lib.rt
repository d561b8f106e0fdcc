//! The names of rights.
#![tactic(auto)]

mod errors;
mod names;
mod words;

pub use errors::{RightsError, change_error};
pub use names::RightNames;
