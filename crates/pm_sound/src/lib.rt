//! Whether a policy by names is sound: the rules of policy documents, each told exactly.
#![tactic(auto)]

mod errors;
mod kinds;
mod once;
mod opening;
mod order;
mod rights;
mod rules;
mod sound;
mod standing;

pub use errors::SoundError;
pub use sound::check_sound;
