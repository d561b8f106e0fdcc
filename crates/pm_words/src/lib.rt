//! The words of the command line: which there are, and what they ask for.
#![tactic(auto)]

mod command;
mod grammar;
mod laws;
mod words;

pub use grammar::{Entry, WORDS, Wanted};
pub use laws::{flags_are_outside, words_written_out};
pub use words::{Asked, file_in, read_words};
