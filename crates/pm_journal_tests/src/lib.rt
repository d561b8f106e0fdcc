//! Tests of the journal, by the public calls.
#![tactic(auto)]

#[cfg(test)]
mod crashes;
#[cfg(test)]
mod files;
#[cfg(test)]
mod formats;
#[cfg(test)]
mod history;
#[cfg(test)]
mod quiet;
#[cfg(test)]
mod rows;
