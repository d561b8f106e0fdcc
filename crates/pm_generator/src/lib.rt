//! A generated policy: a policy and accesses that anybody can make again, to measure a machine. The requests that make it, and
//! what a run of them comes to.
//!
//! A policy of size `n` has one class, and in it a tree of `n` groups and a like tree of `n` folders; in each group a user, and
//! in each folder an object; an association of each group that is a leaf with the folder of its number; a session with a
//! process for each user; and reviews that are kept, of the first eight users. Then each user reads each object, each
//! group but the first is assigned to the one before it, and each user reads each object again.
#![tactic(auto)]

mod laws;
mod names;
mod place;
mod policy;
mod requests;
mod run;
mod summary;

pub use laws::{policies_computed, requests_counted};
pub use policy::Generated;
pub use run::generate;
pub use summary::Summary;
