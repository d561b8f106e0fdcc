//! Many callers of one machine: a desk behind a lock, which alone accepts requests, and seats that look without it.
#![tactic(auto)]

mod desk;
mod home;
mod house;
mod lane;
mod opening;
mod restored;
mod restoring;
mod seat;
mod seats;
mod sharing;

pub use desk::{Desk, Outcome, Submitted};
pub use home::Home;
pub use house::House;
pub use lane::Lane;
pub use opening::house_room;
pub use restored::{Nobody, Progress, RestoreError};
pub use seat::{Looked, Replied, Seat};
pub use seats::Seats;
