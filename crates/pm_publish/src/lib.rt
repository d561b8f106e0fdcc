//! Whole versions of something that grows, published by one writer, and looked at by viewers that never wait for it.
#![tactic(auto)]

mod copies;
mod front;
mod naming;
mod press;
mod publisher;
mod room;
mod rule;
mod sealed;
mod viewer;

pub use copies::Copies;
pub use front::{Front, Log, Opened};
pub use naming::Naming;
pub use publisher::Publisher;
pub use room::{Resumed, Room, publish_room, resumed_room};
pub use rule::{Glimpse, NeverBack};
pub use sealed::Sealed;
pub use viewer::Viewer;
