//! Tests of what decides, reviews, repairs kept reviews, and runs responses, by the public calls. They stand in a crate of
//! their own, since a crate with tests inside is proved once more with them.
#![tactic(auto)]

#[cfg(test)]
mod admin;
#[cfg(test)]
mod affect;
#[cfg(test)]
mod decide;
#[cfg(test)]
mod review;
#[cfg(test)]
mod runner;
