//! The numbers of elements by name, in maps that copies share.
#![tactic(auto)]

mod names;
mod shard;
mod shards;

pub use names::Names;
