//! Which pairs of a user and an element a change can give other rights, and the lists of kept reviews repaired there.
#![tactic(auto)]

mod items;
mod laws;
mod lists;
mod merge;
mod pairs;
mod region;
mod repair;
mod sides;
mod touching;

pub use laws::{
    agreed_right, anew_given, judged_counted, judged_listed, judged_once, judged_worked,
    list_in_order, lists_right, lists_stay, made_right, numbers_asked, numbers_rise, region_kept,
    region_live, region_named, rights_outside, rows_worked, untouched_right, work_grown,
};
pub use lists::KeptLists;
pub use region::Region;
pub use repair::update;
pub use touching::touches;
