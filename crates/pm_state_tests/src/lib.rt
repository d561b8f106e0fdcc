//! Tests of `pm_state` by its public calls. They stand in a crate of their own, since a crate with tests is proved once more with
//! them, and `pm_state` takes long.
#![tactic(auto)]

#[cfg(test)]
mod tests;
