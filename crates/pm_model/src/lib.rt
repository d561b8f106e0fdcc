//! The types of the policy machine, the traits of the outside, and the definitions that contracts cite.
#![tactic(auto)]

mod actions;
mod counting;
mod elements;
mod events;
mod grants;
mod growing;
mod laws;
mod lines;
mod lists;
mod memory;
mod names;
mod obligations;
mod outside;
mod prohibitions;
mod reading;
mod replies;
mod requests;
mod reviews;
mod rights;
mod sessions;
mod words;

pub use actions::{Act, Action, ActionList, Guard, GuardList, ProcessTerm, Term, TermList};
pub use elements::{Element, ElementId, Kind};
pub use events::{Awaited, Event, EventNames, Pattern, When};
pub use grants::{GrantList, PlaceWord};
pub use growing::Grows;
pub use laws::containment_is_path;
pub use lines::{BadLine, Head, LineEvent};
pub use lists::{ClassList, ItemList, NameList, PlaceList, UserList};
pub use memory::Memory;
pub use names::Name;
pub use obligations::{Obligation, Place, Response, ResponseError};
pub use outside::{Failed, Keep, KeepError, Sink, Source};
pub use prohibitions::{Mode, Prohibition, Subject};
pub use reading::{Bars, Grants, Judge, NameOf, Parents, Reach};
pub use replies::{ChangeError, Made, Reason, Refusal, Reply, Shown, Table};
pub use requests::{Asked, Body, Change, Command, Entry, Question, Request, Review, What};
pub use reviews::{ChangeList, Changed, CountList, Pair, PairList, ReviewOf};
pub use rights::{Association, Grant, Grantee, RightWord, Rights, is_access_right};
pub use sessions::{Process, Session};
pub use words::{Key, Word};
