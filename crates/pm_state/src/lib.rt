//! The state of the policy machine: a version of its graph, the lists of its kept reviews, and the history that led to it.
#![tactic(auto)]

mod asking;
mod associations;
mod classes;
mod done;
mod draft;
mod elements;
mod graph;
mod judging;
mod kinds;
mod obligations;
mod prohibitions;
mod repairs;
mod reviews;
mod sessions;
mod sizes;
mod state;
mod tables;

pub use asking::{capabilities_of, entries_of, is_user, live_elements};
pub use draft::Draft;
pub use graph::Graph;
pub use judging::GraphJudge;
pub use state::State;
