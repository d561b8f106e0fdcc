//! One connection's bytes: its input, cut into lines, and its output.
#![tactic(auto)]

pub mod laws;
mod session;
mod waiting;

pub use session::Session;
