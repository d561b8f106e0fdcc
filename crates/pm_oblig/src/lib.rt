//! The list of obligations, and the commands that their actions come to.
#![tactic(auto)]

mod binding;
mod checks;
mod errors;
mod fresh;
mod items;
mod known;
mod laws;
mod table;
mod targets;

pub use binding::{bind, name_of};
pub use errors::{ObligError, change_error};
pub use fresh::fresh_name;
pub use laws::responses_computed;
pub use table::Obligations;
pub use targets::{TargetWord, Targets};
