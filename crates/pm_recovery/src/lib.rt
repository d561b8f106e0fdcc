//! A house that goes on from the journal of a disk, and the law that what it accepted outlasts a crash.
#![tactic(auto)]

mod law;
mod recovering;

pub use law::a_crash_leaves_the_history;
pub use recovering::{RecoverError, recover};
