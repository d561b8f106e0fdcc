//! Tests of replies that are read back, by the public calls.
#![tactic(auto)]

#[cfg(test)]
mod reading;
