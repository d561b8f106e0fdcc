//! Containment by rows of bits, kept beside the graph: a row for each element, which has what the
//! element is contained in. A change of the graph is prepared, which takes all the memory that it needs
//! and changes no row, and then followed, which can't fail.
#![tactic(auto)]

mod changes;
mod containers;
mod held;
mod inside;
mod laws;
mod page;
mod reach;
mod ready;
mod rows;
mod shared;
mod step;
mod table;
mod unions;
mod view;
mod words;

pub use laws::{added_rows_tell, assigned_rows_tell, created_rows_tell, removed_rows_tell};
pub use reach::ReachRows;
pub use step::Step;
pub use view::RowsView;
