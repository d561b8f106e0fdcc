//! Connections over sockets: the acceptor, a door for each worker, and what feeds a worker.
#![tactic(auto)]

mod accepting;
mod arrivals;
mod doors;
mod errors;
mod filling;
mod keys;
mod notices;
mod poll_feed;
mod watch;

pub use accepting::{Entrance, dismiss};
pub use doors::{Door, Gateway, open_gateway};
pub use errors::OpenError;
pub use notices::Notices;
pub use poll_feed::PollFeed;
pub use watch::Watch;
