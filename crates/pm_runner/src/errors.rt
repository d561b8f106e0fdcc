//! Why an action isn't done, and why a run of responses stops.

use pm_model::{Name, Refusal};

/// Why an action was not done.
#[derive(Drop)]
pub enum ActError {
    Refused(Refusal),
    Memory,
}

/// Why a run of responses stopped.
#[derive(Drop)]
pub enum RunError {
    /// An action was refused: the name of its obligation, its number in the response, from 1, and why.
    ResponseRefused {
        obligation: Name,
        action: u32,
        why: Refusal,
    },
    Memory,
}
