//! The words of the command line.

// These are tuples since contracts see no constant that is a struct with references in it.

/// A number that has to stand behind a word: what the usage line calls it, its least and its most.
pub type Wanted = (&'static str, u16, u16);

/// A word, the numbers behind it, and what the usage line calls the texts behind these.
pub type Entry = (&'static str, &'static [Wanted], &'static [&'static str]);

pub(crate) const SIZE: Wanted = ("N", 1, 200);

pub(crate) const PORT: Wanted = ("PORT", 0, 65535);

pub(crate) const WORKERS: Wanted = ("WORKERS", 1, 32);

pub(crate) const FILE: &str = "FILE";

/// The words that there are: of this list the grammar, the usage line and the command that reads the words are made.
pub const WORDS: [Entry; 6] = [
    ("run", &[], &[]),
    ("generate", &[SIZE], &[]),
    ("serve", &[PORT, WORKERS], &[]),
    ("serve-journal", &[PORT, WORKERS], &[FILE]),
    ("request-lines", &[], &[]),
    ("export", &[], &[]),
];
