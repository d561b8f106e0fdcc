//! All rights of users on elements, asked for one user after another: what the associations give the user at each element
//! itself is found once, and the rights on an element are joined from those at the elements that contain it.
#![tactic(auto)]

mod given;
mod held_on;
mod joins;
mod marks;
mod only;
mod puts;
mod runs;

pub use given::Given;
pub use held_on::HeldOn;
