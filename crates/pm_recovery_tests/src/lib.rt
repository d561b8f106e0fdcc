//! Tests of houses that go on from journals, by the public calls. They stand in a crate of their own, as those of houses do.
#![tactic(auto)]

#[cfg(test)]
mod houses;
#[cfg(test)]
mod lent;
#[cfg(test)]
mod recovering;
