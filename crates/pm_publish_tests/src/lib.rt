//! Tests of what threads hand to one another: hand-offs and published versions. They stand in a crate of their
//! own, since a crate with tests inside is proved once more with them.
#![tactic(auto)]

#[cfg(test)]
mod handoff;
#[cfg(test)]
mod publish;
