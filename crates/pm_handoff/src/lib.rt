//! The hand-off: a bounded queue in which one end gives items and the other takes them, in order.
#![tactic(auto)]

mod handoff;
mod rule;

pub use handoff::{Ends, Giver, Handoff, Refused, Taker};
pub use rule::Numbered;
