//! Tests of the names, rows and searches that elements and their assignments are kept in, by their public calls. They stand in
//! a crate of their own, since a crate with tests inside is proved once more with them.
#![tactic(auto)]

#[cfg(test)]
mod diagram;
#[cfg(test)]
mod elements;
#[cfg(test)]
mod names;
#[cfg(test)]
mod pages;
#[cfg(test)]
mod reach;
#[cfg(test)]
mod search;
