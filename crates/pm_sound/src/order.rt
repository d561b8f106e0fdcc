//! The containers of the elements: that each element has one, and that they lead around nowhere.

ghost use Rattle.std.specs.Prelude.{◌≡◌, ◌↔◌, ◌<◌, ◌++◌, [], List, length, get_or, true, IfOk, OnOk};
ghost use Rattle.pm_model.specs.Formed.{Each};
ghost use Rattle.pm_order.specs.Ranked.{containers};
ghost use Rattle.pm_policy.specs.Sound.{opening_pairs, AreOnceCalled, FitAssigned, HasContainer};
ghost use Rattle.pm_policy.specs.declared.policy.DocAssignment.{DocAssignment};
ghost use Rattle.pm_sound.specs.Groups.{AreTied};
ghost use Rattle.pm_sound.specs.Tells.{Tells};
ghost use Rattle.pm_sound.specs.Tests.{has_any};

use crate::errors::{SoundError, need};
use crate::kinds::ends;
use crate::opening::assignment;
use crate::standing::Standing;
use pm_model::Kind;
use pm_order::{Containers, has_order};
use pm_policy::{DocAssignment, DocElement};
use std::alloc::Global;

/// Puts the containers by these assignments behind those by others, where both ends of each stand and are of kinds that may be
/// assigned.
fn tie(
    above: &mut Containers,
    standing: &Standing,
    pairs: &[DocAssignment],
) -> Result<(), SoundError>
    requires once { AreOnceCalled standing.now }
    requires count { length above.old ≡ length standing.now }
    ensures rules { Tells result (Each (FitAssigned standing.now) pairs.now) }
    ensures lists { OnOk result ((before : List DocAssignment) → above.old ≡ containers standing.now before → above.new ≡ containers standing.now (before ++ pairs.now)) }
{
    let mut likely = 0;
    for pair in pairs {
        match ends(standing, pair, likely) {
            None => return Err(SoundError::Unsound),
            Some((from, to)) => {
                above.add(from, to)?;
                likely = from;
            }
        }
    }
    Ok(())
}

/// The containers of the elements by the assignments of the opening and then these, where both ends of each stand and are of
/// kinds that may be assigned.
fn find_containers(
    alloc: Global,
    standing: &Standing,
    pairs: &[DocAssignment],
) -> Result<Containers, SoundError>
    requires { AreOnceCalled standing.now }
    ensures rules { Tells result (Each (FitAssigned standing.now) (opening_pairs ++ pairs.now)) }
    ensures lists { IfOk result (λ c. c ≡ containers standing.now (opening_pairs ++ pairs.now)) }
{
    let mut containers = Containers::none(alloc, standing.len())?;
    let opening = [
        assignment("pm_admins", "pm"),
        assignment("root", "pm_admins"),
    ];
    tie(&mut containers, standing, &opening)?;
    tie(&mut containers, standing, pairs)?;
    Ok(containers)
}

fn has_container(above: &Containers, place: usize, element: &DocElement) -> bool
    requires { place < length above.now }
    ensures { result ≡ has_any element.now (get_or above.now place []) }
{
    matches!(element.kind, Kind::Pc) || above.at(place).len() > 0
}

/// Whether each element but a class has a container.
fn all_contained(above: &Containers, elements: &[DocElement]) -> bool
    requires { length above.now ≡ length elements.now }
    ensures { (pairs : List DocAssignment) → above.now ≡ containers elements.now pairs → (result ≡ true) ↔ Each (HasContainer pairs) elements.now }
{
    for (place, element) in elements.iter().enumerate() {
        if !has_container(above, place, element) {
            return false;
        }
    }
    true
}

/// Whether the assignments, with those of the opening in front, keep their rules, but that none stands twice: their kinds fit,
/// each element but a class has a container, and they lead around nowhere.
pub(crate) fn check_ties(
    alloc: Global,
    standing: &Standing,
    elements: &[DocElement],
    pairs: &[DocAssignment],
) -> Result<(), SoundError>
    requires once { AreOnceCalled elements.now }
    requires standing { standing.now ≡ elements.now }
    ensures { Tells result (AreTied elements.now (opening_pairs ++ pairs.now)) }
{
    let containers = find_containers(alloc, standing, pairs)?;
    need(all_contained(&containers, elements))?;
    need(has_order(alloc, &containers)?)
}
