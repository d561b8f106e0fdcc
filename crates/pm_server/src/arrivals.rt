//! Connections that have come.

use mio::net::TcpStream;
use pm_handoff::Numbered;

/// A connection that no worker serves yet: its number, and its stream, which doesn't wait.
#[derive(Drop)]
pub struct Arrival {
    pub(crate) number: u64,
    pub(crate) stream: TcpStream,
}

impl Numbered for Arrival {
    ghost number = { λ a. a.number };

    fn number(&self) -> u64 {
        self.number
    }
}
