//! Tests of documents, by the public calls.
#![tactic(auto)]

#[cfg(test)]
mod making;
#[cfg(test)]
mod reading;
#[cfg(test)]
mod soundness;
