//! Lines of the protocol: the line of a reply, and that of a request.
#![tactic(auto)]

mod actions;
mod behind;
mod laws;
mod listing;
mod print;
mod put;
mod refusals;
mod requests;
mod terms;

pub use laws::{line_has_one_meaning, printed_is_asked, reply_is_short};
pub use print::{LONGEST_REPLY, longest, print_bad, print_reply};
pub use requests::print_request;
