//! Tests of the tables that a policy is kept in beside its elements, by their public calls. They stand in a crate of their own,
//! since a crate with tests inside is proved once more with them.
#![tactic(auto)]

#[cfg(test)]
mod assoc;
#[cfg(test)]
mod deny;
#[cfg(test)]
mod grants;
#[cfg(test)]
mod history;
#[cfg(test)]
mod kept;
#[cfg(test)]
mod model;
#[cfg(test)]
mod oblig;
#[cfg(test)]
mod procs;
#[cfg(test)]
mod rights;
