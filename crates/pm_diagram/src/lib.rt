//! The policy element diagram: the elements, their assignments, and containment as rows of bits, which
//! follow each change and so never differ from the assignments.
#![tactic(auto)]

mod containment;
mod diagram;

pub use containment::Containment;
pub use diagram::Diagram;
