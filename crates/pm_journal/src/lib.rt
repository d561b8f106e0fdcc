//! A journal of accepted requests, which survives a crash at any moment.
#![tactic(auto)]

mod actions;
mod askable;
mod fill;
mod gates;
mod journal;
mod keeper;
mod lines;
mod open;
mod opened;
mod reading;
mod written;

pub use journal::{Journal, Unopened};
pub use keeper::Keeper;
pub use opened::OpenError;
