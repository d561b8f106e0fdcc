//! The text of a policy: a policy document in its canonical form.
#![tactic(auto)]

mod items;
mod put;
mod text;
mod told;

pub use text::write_document;
