//! The policy of a graph, as a document has it.
#![tactic(auto)]

mod assignments;
mod associations;
mod drawing;
mod elements;
mod prohibitions;
mod rights;

pub use drawing::policy_of;
