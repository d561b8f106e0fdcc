//! Tests of what threads share: houses and workers. They stand in a crate of their own, since a crate with tests
//! inside is proved once more with them.
#![tactic(auto)]

#[cfg(test)]
mod house;
#[cfg(test)]
mod worker;
