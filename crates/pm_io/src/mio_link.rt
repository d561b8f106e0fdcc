//! A link over a socket.

ghost use Rattle.std.specs.Prelude.{◌≡◌, ◌<◌, length};
ghost use Rattle.std.specs.IoError.{error_kind};
ghost use Rattle.pm_io.specs.Sockets.{is_wait, wire_over, read_of, read_counted, write_of, write_counted, ReadsOnce, WritesOnce};
ghost use Rattle.pm_io.specs.Wires.{IsLater, IsRead, IsWritten, ReadCounts, WriteCounts};

use crate::counting::raise;
use crate::links::{Link, LinkRead, LinkWrite};
use crate::nonblocking::NonBlocking;
use mio::net::TcpStream;
use std::io;
use std::io::ErrorKind;
use std::marker::Model;

/// A stream that doesn't wait, with the counts of a link. It tells no content: that is the system's. A read or a write
/// that would wait is an Again, and each other error is a fault.
pub struct MioLink<S = TcpStream> {
    stream: S,
    faults: u64,
    read_agains: u64,
    write_agains: u64,
}

impl<S: Drop> Drop for MioLink<S> {
    fn drop(self) {
        let MioLink {
            stream: _,
            faults: _,
            read_agains: _,
            write_agains: _,
        } = self;
    }
}

impl<S> Model for MioLink<S> {
    ghost use Rattle.pm_io.specs.Sockets.{Streamed};

    ghost Value = { Streamed S };

    ghost view = { λ l. record { stream = l.stream; faults = l.faults; read_agains = l.read_agains; write_agains = l.write_agains } };
}

// Whether the stream said that it would have to wait.
fn would_wait(error: &io::Error) -> bool
    ensures { result ≡ is_wait (error_kind error.now) }
{
    matches!(error.kind(), ErrorKind::WouldBlock)
}

impl<S: NonBlocking> MioLink<S> {
    /// A link over this stream, which has not failed yet.
    pub fn new(stream: S) -> MioLink<S>
        ensures { result ≡ record { stream = stream; faults = 0; read_agains = 0; write_agains = 0 } }
    {
        MioLink {
            stream,
            faults: 0,
            read_agains: 0,
            write_agains: 0,
        }
    }

    // What a read comes to, counted.
    fn read_comes_to(&mut self, answer: io::Result<usize>) -> LinkRead
        ensures told { result ≡ read_of answer }
        ensures counted { self.new ≡ read_counted self.old result }
        ensures counts { ReadCounts (wire_over self.old) (wire_over self.new) result }
        ensures later { IsLater (wire_over self.old) (wire_over self.new) }
    {
        match answer {
            Ok(0) => LinkRead::End,
            Ok(count) => LinkRead::Got(count),
            Err(error) if would_wait(&error) => {
                raise(&mut self.read_agains);
                LinkRead::Again
            }
            Err(_) => {
                raise(&mut self.faults);
                LinkRead::Failed
            }
        }
    }

    // What a write comes to, counted.
    fn write_comes_to(&mut self, answer: io::Result<usize>) -> LinkWrite
        ensures told { result ≡ write_of answer }
        ensures counted { self.new ≡ write_counted self.old result }
        ensures counts { WriteCounts (wire_over self.old) (wire_over self.new) result }
        ensures later { IsLater (wire_over self.old) (wire_over self.new) }
    {
        match answer {
            Ok(count) if count > 0 => LinkWrite::Took(count),
            Err(error) if would_wait(&error) => {
                raise(&mut self.write_agains);
                LinkWrite::Again
            }
            Ok(_) | Err(_) => {
                raise(&mut self.faults);
                LinkWrite::Failed
            }
        }
    }
}

impl<S: NonBlocking> Link for MioLink<S> {
    ghost wire = { wire_over };

    fn read(&mut self, piece: &mut [u8]) -> LinkRead
        requires { 0 < length piece.old }
        ensures once { ReadsOnce S.reads self.old self.new (length piece.old) piece.new result }
        ensures read { IsRead (wire_over self.old) (wire_over self.new) piece.new result }
        ensures counts { ReadCounts (wire_over self.old) (wire_over self.new) result }
        ensures later { IsLater (wire_over self.old) (wire_over self.new) }
        ensures taken { (wire_over self.new).taken ≡ (wire_over self.old).taken }
    {
        let answer = self.stream.read_now(piece);
        self.read_comes_to(answer)
    }

    fn write(&mut self, piece: &[u8]) -> LinkWrite
        requires { 0 < length piece.now }
        ensures once { WritesOnce S.writes self.old self.new piece.now result }
        ensures written { IsWritten (wire_over self.old) (wire_over self.new) piece.now result }
        ensures counts { WriteCounts (wire_over self.old) (wire_over self.new) result }
        ensures later { IsLater (wire_over self.old) (wire_over self.new) }
        ensures left { (wire_over self.new).left ≡ (wire_over self.old).left }
    {
        let answer = self.stream.write_now(piece);
        self.write_comes_to(answer)
    }
}
