//! What a line is read as before it is a request, and what may be wrong with it.

use crate::words::Key;

/// Why a line is no request.
#[derive(Clone, Copy, Debug, PartialEq, Eq)]
pub enum BadLine {
    /// It has more than 8,192 bytes.
    TooLong,
    /// No JSON value is read from it.
    NotJson,
    /// Its value is no object with a text under `cmd`.
    NotRequest,
    /// Its `cmd` is no word of a command.
    UnknownCommand,
    /// The field of this key is the first that is missing or has another form than its own.
    BadField(Key),
}

/// What every line of a reply has beside what it says.
#[derive(Clone, Copy, Debug, PartialEq, Eq)]
pub struct Head {
    pub id: Option<u64>,
}

/// A whole line of the input, without its line feed, or one of more than 8,192 bytes.
#[derive(Clone, Copy)]
pub enum LineEvent<'a> {
    Line(&'a [u8]),
    TooLong,
}
