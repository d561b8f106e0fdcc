//! What a machine is to those who run it: the traits of a machine with one caller, and of versions that many callers share. Who
//! stands on them needs nothing of how a policy is kept.
#![tactic(auto)]

mod answerer;
mod glances;
mod versions;

pub use answerer::Answerer;
pub use glances::Glance;
pub use versions::{Stepped, Version};
