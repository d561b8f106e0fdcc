//! The assignments of a policy.

ghost use Rattle.std.specs.Prelude.{◌≡◌, ◌∷◌, [], ◌++◌, filter, map, IfOk, OnOk};
ghost use Rattle.pm_model.specs.Effect.{is_builtin, is_from};
ghost use Rattle.pm_model.specs.Formed.{Each, IsLive};
ghost use Rattle.pm_drawing.specs.Gathered.{AreLive, gathered, is_own_pair, pair_named};

use pm_elements::Elements;
use pm_model::{ElementId, Memory, Parents};
use pm_policy::DocAssignment;
use std::alloc::Global;

/// Puts what the element is assigned to at the end, each as a pair with it.
fn push_containers(
    elements: &Elements,
    id: ElementId,
    pairs: &mut Vec<(ElementId, ElementId)>,
) -> Result<(), Memory>
    requires { IsLive elements.now.elements id }
    ensures { OnOk result (pairs.new.items ≡ pairs.old.items ++ filter (is_from id) elements.now.assigned) }
{
    for i in 0..elements.count(id) {
        pairs.push((id, elements.parent(id, i)))?;
    }
    Ok(())
}

/// The assignments of the elements of these numbers.
pub(crate) fn all_pairs(
    alloc: Global,
    elements: &Elements,
    live: &[ElementId],
) -> Result<Vec<(ElementId, ElementId)>, Memory>
    requires { Each (IsLive elements.now.elements) live.now }
    ensures { IfOk result (λ v. v.items ≡ gathered is_from live.now elements.now.assigned) }
{
    let mut pairs = Vec::with_capacity(alloc, elements.assignments())?;
    for id in live {
        push_containers(elements, *id, &mut pairs)?;
    }
    Ok(pairs)
}

/// Whether it is an assignment of the opening.
fn is_builtin(x: ElementId, y: ElementId) -> bool
    ensures { result ≡ is_builtin x y }
{
    (x.number() == 1 && y.number() == 0) || (x.number() == 2 && y.number() == 1)
}

/// Puts the pair at the end by names, if it is no assignment of the opening.
fn push_pair(
    elements: &Elements,
    pair: (ElementId, ElementId),
    list: &mut Vec<DocAssignment>,
) -> Result<(), Memory>
    requires from { IsLive elements.now.elements pair.0 }
    requires to { IsLive elements.now.elements pair.1 }
    ensures { OnOk result (list.new.items ≡ list.old.items ++ map (pair_named elements.now.elements) (filter is_own_pair (pair ∷ []))) }
{
    if !is_builtin(pair.0, pair.1) {
        let from = elements.name(pair.0);
        let to = elements.name(pair.1);
        list.push(DocAssignment { from, to })?;
    }
    Ok(())
}

/// Those of the pairs by names that are no assignments of the opening.
pub(crate) fn own_assignments(
    alloc: Global,
    elements: &Elements,
    pairs: &[(ElementId, ElementId)],
) -> Result<Vec<DocAssignment>, Memory>
    requires { Each (AreLive elements.now.elements) pairs.now }
    ensures { IfOk result (λ v. v.items ≡ map (pair_named elements.now.elements) (filter is_own_pair pairs.now)) }
{
    let mut list = Vec::with_capacity(alloc, pairs.len())?;
    for pair in pairs {
        push_pair(elements, *pair, &mut list)?;
    }
    Ok(list)
}
