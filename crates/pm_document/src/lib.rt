//! Policy documents: a policy as a text that people read and keep.
#![tactic(auto)]

mod document;
mod errors;
mod forms;
mod read;

pub use document::{Document, read_document};
pub use errors::DocumentError;
pub use read::read_policy;
