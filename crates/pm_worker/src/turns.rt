//! How a turn ends.

/// How a turn ends. After Ended, LinkFault and Memory the connection is over.
#[derive(Clone, Copy, Debug, PartialEq, Eq)]
pub enum Turn {
    /// The link takes no more now, or has nothing to read now.
    Idle,
    /// It has had its share of lines or of bytes.
    More,
    /// Its input has ended, and all output was taken.
    Ended,
    /// The link has failed.
    LinkFault,
    /// There was no memory.
    Memory,
}
