//! The order in which the elements of a document are made, and the assignments that none is made with.

ghost use Rattle.std.specs.Prelude.{◌≡◌, ◌↔◌, List, map, true, IfOk};
ghost use Rattle.pm_model.specs.Name.{is_name};
ghost use Rattle.pm_order.specs.Ranked.{containers, turn, AreWithin};
ghost use Rattle.pm_policy.specs.Order.{order, sorted, stands_before};
ghost use Rattle.pm_policy.specs.Policy.{doc_element, standing};
ghost use Rattle.pm_policy.specs.Requests.{others};
ghost use Rattle.pm_policy.specs.Sound.{AreOnceAssigned, AreOnceCalled, IsAcyclic};
ghost use Rattle.pm_policy.specs.Waiting.{AreKnown};
ghost use Rattle.pm_policy.specs.declared.policy.DocAssignment.{DocAssignment};
ghost use Rattle.pm_policy.specs.declared.policy.DocElement.{DocElement};

use crate::creation::{Turn, turns_at};
use crate::places::{Containers, links};
use crate::turns::turns;
use crate::walks::count_turns;
use pm_by_name::{are_elements_in_order, elements_by_name};
use pm_model::{Kind, Memory, Name};
use pm_policy::{DocAssignment, DocElement};
use std::alloc::Global;

/// How many elements the opening has.
const OPENING: usize = 3;

fn element(kind: Kind, name: &str) -> DocElement
    requires { is_name name.now ≡ true }
    ensures { result ≡ doc_element kind name.now }
{
    let name = Name::new(name.as_bytes()).unwrap();
    DocElement { kind, name }
}

/// The elements behind those of the opening.
fn standing(alloc: Global, elements: &[DocElement]) -> Result<Vec<DocElement>, Memory>
    ensures { IfOk result (λ v. v.items ≡ standing elements.now) }
{
    let mut all = Vec::new(alloc);
    all.push(element(Kind::Pc, "pm"))?;
    all.push(element(Kind::Ua, "pm_admins"))?;
    all.push(element(Kind::User, "root"))?;
    all.extend_from_slice(elements)?;
    Ok(all)
}

/// The elements by name behind those of the opening. Those that stand so are copied once.
fn standing_by_name(alloc: Global, elements: &[DocElement]) -> Result<Vec<DocElement>, Memory>
    requires { AreOnceCalled elements.now }
    ensures { IfOk result (λ v. v.items ≡ standing (sorted stands_before elements.now)) }
{
    if are_elements_in_order(elements) {
        return standing(alloc, elements);
    }
    let by_name = elements_by_name(alloc, elements)?;
    standing(alloc, by_name.as_slice())
}

/// How the elements and assignments of a document are made: the elements by turns, and the assignments that none of them is
/// made with.
pub struct Making {
    pub turns: Vec<Turn>,
    pub others: Vec<DocAssignment>,
}

impl Drop for Making {
    fn drop(self) {
        let Making {
            turns: _,
            others: _,
        } = self;
    }
}

/// The elements in the order in which they can be made in the opening state: always the one with the least name whose
/// containers are all made, each in the first of these. An assignment of an element of the opening keeps none waiting. Where the
/// assignments lead around, what waits for ever is left out. The other assignments stand as they are given.
pub fn order(
    alloc: Global,
    elements: &[DocElement],
    pairs: &[DocAssignment],
) -> Result<Making, Memory>
    requires once { AreOnceCalled (standing elements.now) }
    requires known { AreKnown pairs.now (standing elements.now) }
    requires assigned { AreOnceAssigned pairs.now }
    ensures turns { IfOk result (λ m. m.turns.items ≡ map (turn pairs.now) (order pairs.now elements.now)) }
    ensures others { IfOk result (λ m. m.others.items ≡ others elements.now pairs.now) }
{
    let all = standing_by_name(alloc, elements)?;
    let (containers, others) = links(alloc, all.as_slice(), pairs, OPENING)?;
    let places = turns(alloc, containers.lists(), OPENING)?;
    let turns = turns_at(alloc, all.as_slice(), &containers, places.as_slice())?;
    Ok(Making { turns, others })
}

/// Whether the assignments that these containers are made of lead around nowhere. Those of the opening, and its elements, are
/// to be among them where they count.
pub fn has_order(alloc: Global, above: &Containers) -> Result<bool, Memory>
    requires { AreWithin above.now }
    ensures { IfOk result (λ found. (es : List DocElement) (pairs : List DocAssignment) → AreOnceCalled es → AreKnown pairs es → above.now ≡ containers es pairs → (found ≡ true) ↔ IsAcyclic pairs) }
{
    let count = count_turns(alloc, above.lists())?;
    Ok(count == above.lists().len())
}
