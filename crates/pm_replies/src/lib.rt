//! Lines of the protocol: what a reply's line says, with names in place of the numbers of elements.
#![tactic(auto)]

mod confirm;
mod items;
mod members;
mod numbers;
mod read;
mod refusals;
mod texts;

pub use numbers::{Names, Numbered, with_numbers};
pub use read::read_reply;
pub use texts::{
    ReasonText, RefusalText, RefusalWord, ReplyError, ReplyLine, ReplyText, TextCount,
    TextCountList, TextList, TextPair,
};
