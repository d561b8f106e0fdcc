//! One turn of a connection: its lines are answered by a seat, and the replies go to its link.
#![tactic(auto)]

mod answering;
mod conn;
mod crews;
mod feeds;
mod gates;
pub mod laws;
mod list_feed;
mod sending;
mod served;
mod serving;
mod shares;
mod turns;

pub use conn::Conn;
pub use crews::{Crew, run_workers};
pub use feeds::{Feed, Next, work};
pub use gates::{Gate, OpenGate, Phase};
pub use list_feed::ListFeed;
pub use served::Served;
pub use serving::serve_turn;
pub use turns::Turn;
