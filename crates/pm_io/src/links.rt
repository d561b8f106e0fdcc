//! Where a connection's bytes come from and go, as a trait, with counts of what failed and of what could do nothing.

ghost use Rattle.std.specs.Prelude.{◌≡◌, ◌<◌, length};
ghost use Rattle.pm_io.specs.Wires.{Wire, IsLater, IsRead, IsWritten, ReadCounts, WriteCounts};

/// What a read comes to.
#[derive(Clone, Copy, Debug, PartialEq, Eq)]
pub enum LinkRead {
    /// So many bytes stand at the front of the piece.
    Got(usize),
    /// No bytes are left.
    End,
    /// None are there now.
    Again,
    /// The link has failed.
    Failed,
}

/// What a write comes to.
#[derive(Clone, Copy, Debug, PartialEq, Eq)]
pub enum LinkWrite {
    /// So many of the first bytes were taken.
    Took(usize),
    /// None can be taken now.
    Again,
    /// The link has failed.
    Failed,
}

/// Both ways of a connection. Neither way waits.
pub trait Link {
    /// The bytes that are left and those that it took, where it tells them, and its three counts: how often it has
    /// failed, and how often a read and a write could do nothing. They never fall, and stand still at 2^64 - 1.
    ghost wire: { Self → Wire };

    /// Reads some bytes to the front of the piece, at least one. Failed comes exactly where the count of faults rose in
    /// this call, Again exactly where that of such reads did. Nothing was read then, nor at an End.
    fn read(&mut self, piece: &mut [u8]) -> LinkRead
        requires { 0 < length piece.old }
        ensures read { IsRead (wire self.old) (wire self.new) piece.new result }
        ensures counts { ReadCounts (wire self.old) (wire self.new) result }
        ensures later { IsLater (wire self.old) (wire self.new) }
        ensures taken { (wire self.new).taken ≡ (wire self.old).taken };

    /// Takes some of the first bytes of the piece, at least one. Failed comes exactly where the count of faults rose in
    /// this call, Again exactly where that of such writes did. Nothing was taken then.
    fn write(&mut self, piece: &[u8]) -> LinkWrite
        requires { 0 < length piece.now }
        ensures written { IsWritten (wire self.old) (wire self.new) piece.now result }
        ensures counts { WriteCounts (wire self.old) (wire self.new) result }
        ensures later { IsLater (wire self.old) (wire self.new) }
        ensures left { (wire self.new).left ≡ (wire self.old).left };
}
