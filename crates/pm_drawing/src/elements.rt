//! The elements of a policy.

ghost use Rattle.std.specs.Prelude.{◌≡◌, ◌∷◌, [], ◌++◌, filter, map, IfOk, OnOk};
ghost use Rattle.pm_model.specs.Formed.{Each, IsLive};
ghost use Rattle.pm_drawing.specs.Gathered.{doc_numbered, is_own};

use pm_elements::Elements;
use pm_model::{ElementId, Memory};
use pm_policy::DocElement;
use std::alloc::Global;

/// How many elements the opening has: they have the first numbers.
const OPENING: u32 = 3;

fn element_of(elements: &Elements, id: ElementId) -> DocElement
    requires { IsLive elements.now.elements id }
    ensures { result ≡ doc_numbered elements.now.elements id }
{
    let kind = elements.kind(id);
    let name = elements.name(id);
    DocElement { kind, name }
}

/// Puts the element at the end, if it is none of the opening.
fn push_element(
    elements: &Elements,
    id: ElementId,
    list: &mut Vec<DocElement>,
) -> Result<(), Memory>
    requires { IsLive elements.now.elements id }
    ensures { OnOk result (list.new.items ≡ list.old.items ++ map (doc_numbered elements.now.elements) (filter is_own (id ∷ []))) }
{
    if id.number() >= OPENING {
        list.push(element_of(elements, id))?;
    }
    Ok(())
}

/// Those of the elements of these numbers that are none of the opening.
pub(crate) fn own_elements(
    alloc: Global,
    elements: &Elements,
    live: &[ElementId],
) -> Result<Vec<DocElement>, Memory>
    requires { Each (IsLive elements.now.elements) live.now }
    ensures { IfOk result (λ v. v.items ≡ map (doc_numbered elements.now.elements) (filter is_own live.now)) }
{
    let mut list = Vec::with_capacity(alloc, live.len())?;
    for id in live {
        push_element(elements, *id, &mut list)?;
    }
    Ok(list)
}
