//! Clients.

use std::io;
use std::net::{IpAddr, Ipv4Addr, Net, SocketAddr, TcpStream};

/// A client's end of a connection to this port of a host of this machine's own, 127.0.0.1 or another.
pub(crate) fn connected<R: Net>(rt: &R, host: u8, port: u16) -> io::Result<R::Stream> {
    let address = SocketAddr::new(IpAddr::V4(Ipv4Addr::new(127, 0, 0, host)), port);
    TcpStream::connect(rt, address)
}
