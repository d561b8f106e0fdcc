//! The two ends of one connection over 127.0.0.1.

ghost use Rattle.std.specs.Prelude.{◌<◌, length};

use mio::net::{TcpListener, TcpStream};
use pm_io::{Link, LinkRead, LinkWrite, MioLink};
use std::net::{IpAddr, Ipv4Addr, Net, SocketAddr};
use std::process::Abort;
use std::test::Fail;

// How often what would wait is tried again: what is sent within one machine comes soon.
const TRIES: u32 = 1_000_000;

// The connection that has come.
fn accepted(rt: &impl Abort, listener: &TcpListener) -> TcpStream {
    for _ in 0..TRIES {
        if let Ok((stream, _from)) = listener.accept() {
            return stream;
        }
    }
    rt.abort()
}

// A link at each end.
fn ends(rt: &(impl Abort + Net)) -> Result<(MioLink, MioLink), Fail> {
    let place = SocketAddr::new(IpAddr::V4(Ipv4Addr::LOCALHOST), 0);
    let listener = TcpListener::bind(rt, place)?;
    let near = TcpStream::connect(rt, listener.local_addr()?)?;
    let far = accepted(rt, &listener);
    Ok((MioLink::new(near), MioLink::new(far)))
}

// The first answer of a read that isn't an Again.
fn read(link: &mut MioLink, piece: &mut [u8]) -> LinkRead
    requires { 0 < length piece.old }
{
    for _ in 0..TRIES {
        let answer = link.read(piece);
        if answer != LinkRead::Again {
            return answer;
        }
    }
    LinkRead::Again
}

// The first answer of a write that takes nothing.
fn fill(link: &mut MioLink) -> LinkWrite {
    let piece = [b'x'; 4096];
    for _ in 0..TRIES {
        let answer = link.write(&piece);
        if answer == LinkWrite::Again || answer == LinkWrite::Failed {
            return answer;
        }
    }
    LinkWrite::Took(0)
}

// What is sent at one end comes at the other, into a piece of four bytes.
fn comes(rt: &impl Abort, from: &mut MioLink, to: &mut MioLink, sent: &[u8], piece: [u8; 4])
    requires { 0 < length sent.now }
{
    let count = sent.len();
    assert!(rt; from.write(sent) == LinkWrite::Took(count));
    let mut came = [0u8; 4];
    assert!(rt; read(to, &mut came) == LinkRead::Got(count));
    assert_eq!(rt; came, piece);
}

#[test]
fn a_socket_is_a_link(rt: HostRuntime) -> Result<(), Fail> {
    let (mut near, mut far) = ends(&rt)?;
    assert_eq!(rt; far.read(&mut [0u8; 4]), LinkRead::Again);
    comes(&rt, &mut near, &mut far, b"abc", *b"abc\0");
    comes(&rt, &mut far, &mut near, b"defg", *b"defg");
    drop(far);
    assert_eq!(rt; read(&mut near, &mut [0u8; 4]), LinkRead::End);
    Ok(())
}

#[test]
fn a_socket_takes_what_fits(rt: HostRuntime) -> Result<(), Fail> {
    let (mut near, far) = ends(&rt)?;
    assert_eq!(rt; fill(&mut near), LinkWrite::Again);
    drop(far);
    assert_eq!(rt; fill(&mut near), LinkWrite::Failed);
    Ok(())
}
