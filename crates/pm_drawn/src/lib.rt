//! A machine with one caller whose policy can be drawn.
#![tactic(auto)]

mod drawn;

pub use drawn::Drawn;
