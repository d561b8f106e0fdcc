//! The five lists of a policy, each in its order.

ghost use Rattle.std.specs.Prelude.{◌≡◌, IfOk};
ghost use Rattle.pm_model.specs.Reviews.{numbers_in};
ghost use Rattle.pm_policy.specs.Drawn.{policy_in_order};
ghost use Rattle.pm_policy.specs.Order.{leads_before, sorted, stands_before};
ghost use Rattle.pm_policy.specs.PolicyOf.{policy_assignments, policy_associations, policy_elements};
ghost use Rattle.pm_policy.specs.Requests.{joins_before};

use crate::assignments::{all_pairs, own_assignments};
use crate::associations::{all_associations, by_ends};
use crate::elements::own_elements;
use crate::prohibitions::prohibitions_of;
use crate::rights::defined_rights;
use pm_by_name::{assignments_by_name, elements_by_name};
use pm_model::{ElementId, ItemList, Memory};
use pm_policy::{DocAssignment, DocAssociation, DocElement, Policy};
use pm_state::{Graph, live_elements};
use std::alloc::Global;

fn listed<T: Copy + Drop>(alloc: Global, items: &[T]) -> Result<ItemList<T>, Memory>
    ensures { IfOk result (λ list. list ≡ items.now) }
{
    let mut list = ItemList::with_room(alloc, items.len())?;
    for item in items {
        list.push(*item)?;
    }
    Ok(list)
}

/// The elements but those of the opening, by name.
fn elements_of(graph: &Graph, live: &[ElementId]) -> Result<ItemList<DocElement>, Memory>
    requires { live.now ≡ numbers_in graph.now.elements }
    ensures { IfOk result (λ list. list ≡ sorted stands_before (policy_elements graph.now)) }
{
    graph.formed();
    let alloc = graph.classes().allocator();
    let own = own_elements(alloc, graph.elements(), live)?;
    let by_name = elements_by_name(alloc, own.as_slice())?;
    listed(alloc, by_name.as_slice())
}

/// The assignments but those of the opening, by their first and then their second names.
fn assignments_of(graph: &Graph, live: &[ElementId]) -> Result<ItemList<DocAssignment>, Memory>
    requires { live.now ≡ numbers_in graph.now.elements }
    ensures { IfOk result (λ list. list ≡ sorted leads_before (policy_assignments graph.now)) }
{
    graph.formed();
    let alloc = graph.classes().allocator();
    let pairs = all_pairs(alloc, graph.elements(), live)?;
    let own = own_assignments(alloc, graph.elements(), pairs.as_slice())?;
    let by_name = assignments_by_name(alloc, own.as_slice())?;
    listed(alloc, by_name.as_slice())
}

/// The associations, by `ua` and then `at`.
fn associations_of(graph: &Graph, live: &[ElementId]) -> Result<ItemList<DocAssociation>, Memory>
    requires { live.now ≡ numbers_in graph.now.elements }
    ensures { IfOk result (λ list. list ≡ sorted joins_before (policy_associations graph.now)) }
{
    graph.formed();
    let alloc = graph.classes().allocator();
    let all = all_associations(alloc, graph.assoc(), live)?;
    by_ends(alloc, graph.elements(), graph.rights(), all.as_slice())
}

/// The policy of a graph, each list in the order in which a document has it. The only error is want of memory. With n elements
/// and as many assignments and associations it takes time as n log n.
pub fn policy_of(graph: &Graph) -> Result<Policy, Memory>
    ensures { IfOk result (λ policy. policy ≡ policy_in_order graph.now) }
{
    let live = live_elements(graph)?;
    let rights = defined_rights(graph.classes().allocator(), graph.rights())?;
    let elements = elements_of(graph, live.as_slice())?;
    let assignments = assignments_of(graph, live.as_slice())?;
    let associations = associations_of(graph, live.as_slice())?;
    let prohibitions = prohibitions_of(graph)?;
    Ok(Policy {
        rights,
        elements,
        assignments,
        associations,
        prohibitions,
    })
}
