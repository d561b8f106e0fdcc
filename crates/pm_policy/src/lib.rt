//! Policies by names, as documents have them: the definitions that contracts cite, and their laws.
#![tactic(auto)]

mod laws;
mod policy;

pub use laws::{acyclic_by_rounds, acyclic_exactly, document_accepted, drawn_sound};
pub use policy::{DocAssignment, DocAssociation, DocElement, DocProhibition, Policy};
