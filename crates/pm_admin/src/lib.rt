//! Commands and accesses: what they name, whether the user and the process may, and the events that they
//! raise.
#![tactic(auto)]

mod access;
mod capabilities;
mod denials;
mod events;
mod guards;
mod keeping;
mod names;
mod obliging;
mod operations;
mod patterns;
mod prohibiting;
mod reviewing;
mod rulings;

pub use access::{acting, authorise_access};
pub use events::{names_in, patterns_live, raised};
pub use guards::all_hold;
pub use names::look_up;
pub use reviewing::authorise_review;
pub use rulings::{Ruling, authorise, permit};
