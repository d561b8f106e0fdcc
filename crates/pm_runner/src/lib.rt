//! The obligations that an event matches, and their responses run over any machine.
#![tactic(auto)]

mod acts;
mod errors;
mod matched;
mod running;

pub use acts::Acts;
pub use errors::{ActError, RunError};
pub use matched::{PositionList, any_matches, matching, matching_without, none_without};
pub use running::run_responses;
