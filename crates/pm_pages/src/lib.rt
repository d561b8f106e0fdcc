//! Lists whose copies share pages.
//!
//! A page that two lists share is behind an `Arc`, and nothing is ever written there: an `Arc` gives a
//! `&mut`, or its value, only to a sole owner. So a change of one list never shows in another.
#![tactic(auto)]

mod blocks;
mod copies;
mod items;
mod leaf;
mod leaf_list;
mod list;
mod list_row;
mod owned;
mod pages;
mod places;
mod rows;
mod tested;

pub use copies::CopyOf;
pub use leaf_list::LeafList;
pub use list::PageList;
pub use list_row::ListRow;
pub use owned::Owned;
