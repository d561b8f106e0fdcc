//! Tests of lines, replies and devices, by the public calls. They stand in a crate of
//! their own, since a crate with tests inside is proved once more with them.
#![tactic(auto)]

#[cfg(test)]
mod io;
#[cfg(test)]
mod requests;
#[cfg(test)]
mod session;
