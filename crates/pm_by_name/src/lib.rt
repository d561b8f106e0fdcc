//! The lists of a policy in the orders of their names, and what has names as keys.
#![tactic(auto)]

mod by_name;

pub use by_name::{
    ByBytes, are_assignments_in_order, are_associations_in_order, are_elements_in_order,
    assignments_by_name, associations_by_name, elements_by_name, values_by_key,
};
