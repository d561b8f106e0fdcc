//! One request is the machine's answer.
#![tactic(auto)]

mod counting;
mod drawing;
mod edition;
mod entries;
mod looking;
mod proposals;
mod replies;
mod responding;
mod reviewing;
mod settling;
mod solo;
mod steps;

pub use counting::answer_counted;
pub use edition::Edition;
pub use looking::glance;
pub use solo::Solo;
pub use steps::{advance, step};
