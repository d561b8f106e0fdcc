//! Sources, sinks, keepers and links: in memory, with calls that are to fail or with none; sources and sinks over std's readers
//! and writers too.
#![tactic(auto)]

mod calm;
mod counting;
mod failing;
mod keepers;
mod links;
mod mem_link;
mod memory;
mod mio_link;
mod moving;
mod nonblocking;
mod streams;

pub use calm::{CalmSink, CalmSource};
pub use keepers::{MemKeep, NoKeep};
pub use links::{Link, LinkRead, LinkWrite};
pub use mem_link::MemLink;
pub use memory::{MemSink, MemSource};
pub use mio_link::MioLink;
pub use nonblocking::NonBlocking;
pub use streams::{StdSink, StdSource};
