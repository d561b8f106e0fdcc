//! What a machine with one caller tells of its work.
#![tactic(auto)]

mod tally;

pub use tally::Tally;
