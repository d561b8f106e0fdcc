//! The order in which the elements of a policy document are made.
#![tactic(auto)]

mod creation;
mod in_order;
mod lists;
mod places;
mod queue;
mod turns;
mod walks;

pub use creation::Turn;
pub use in_order::{Making, has_order, order};
pub use places::Containers;
