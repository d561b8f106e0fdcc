//! Tests of the program by its public calls, over memory. They stand in a crate of their own, since a crate with tests is proved
//! once more with them, and they want a machine.
#![tactic(auto)]

#[cfg(test)]
mod tests;
#[cfg(test)]
mod words;
