//! How an element is made when it is its turn.

ghost use Rattle.std.specs.Prelude.{◌≡◌, ◌<◌, ℕ, length, map, Contains, IfOk};
ghost use Rattle.pm_order.specs.Ranked.{element_in, into_at, turn_at, AreWithin};

use crate::places::Containers;
use pm_model::{Memory, Name};
use pm_policy::DocElement;
use std::alloc::Global;

/// An element when it is its turn to be made, and the container in which it is made: the first of its own. One without
/// containers is a class.
#[derive(Clone, Copy)]
pub struct Turn {
    pub element: DocElement,
    pub into: Option<Name>,
}

fn element_at(elements: &[DocElement], place: usize) -> DocElement
    requires { place < length elements.now }
    ensures { result ≡ element_in elements.now place }
{
    elements[place]
}

/// The name of the first container of the element at a place.
fn into_at(elements: &[DocElement], above: &Containers, place: usize) -> Option<Name>
    requires place { place < length elements.now }
    requires count { length above.now ≡ length elements.now }
    requires within { AreWithin above.now }
    ensures { result ≡ into_at elements.now above.now place }
{
    match above.at(place).get(0) {
        Some(first) => Some(element_at(elements, *first).name),
        None => None,
    }
}

/// The turns of the elements at these places.
pub(crate) fn turns_at(
    alloc: Global,
    elements: &[DocElement],
    above: &Containers,
    places: &[usize],
) -> Result<Vec<Turn>, Memory>
    requires places { (k : ℕ) → Contains places.now k → k < length elements.now }
    requires count { length above.now ≡ length elements.now }
    requires within { AreWithin above.now }
    ensures { IfOk result (λ v. v.items ≡ map (turn_at elements.now above.now) places.now) }
{
    let mut turns = Vec::with_capacity(alloc, places.len())?;
    for place in places {
        let element = element_at(elements, *place);
        let into = into_at(elements, above, *place);
        turns.push(Turn { element, into })?;
    }
    Ok(turns)
}
