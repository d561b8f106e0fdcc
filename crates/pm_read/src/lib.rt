//! Lines of the protocol: what a line asks.
#![tactic(auto)]

mod errors;
mod forms;
mod laws;
mod read;
mod responses;
mod rows;
mod terms;

pub use laws::{command_word_is_taken, lists_are_kept};
pub use read::read_request;
