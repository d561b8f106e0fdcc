//! A stream that doesn't wait, as a trait, so that what a link makes of one is proved over any.

ghost use Rattle.std.specs.Prelude.{ℕ, List, Result, ⊤, length};
ghost use Rattle.std.specs.Io.{ReadsAtMost, WritesAtMost};
ghost use Rattle.std.specs.declared.io.Error.{Error};

use mio::net::TcpStream;
use std::io;
use std::io::{Read, Write};

/// A stream whose reads and writes answer `WouldBlock` where they would wait.
pub trait NonBlocking {
    /// What a read does: of the stream before and after, how long the piece is, what stands in it afterwards, and the answer.
    ghost reads: { Self → Self → ℕ → List ℕ → Result ℕ Error → Type 0 } = { λ _ _ _ _ _. ⊤ };

    /// What a write does: of the stream before and after, the piece, and the answer.
    ghost writes: { Self → Self → List ℕ → Result ℕ Error → Type 0 } = { λ _ _ _ _. ⊤ };

    /// Reads some bytes to the front of the piece.
    fn read_now(&mut self, piece: &mut [u8]) -> io::Result<usize>
        ensures bound { ReadsAtMost result piece.new }
        ensures reads { reads self.old self.new (length piece.old) piece.new result };

    /// Takes some of the first bytes of the piece.
    fn write_now(&mut self, piece: &[u8]) -> io::Result<usize>
        ensures bound { WritesAtMost result piece.now }
        ensures writes { writes self.old self.new piece.now result };
}

impl NonBlocking for TcpStream {
    fn read_now(&mut self, piece: &mut [u8]) -> io::Result<usize> {
        self.read(piece)
    }

    fn write_now(&mut self, piece: &[u8]) -> io::Result<usize> {
        self.write(piece)
    }
}
