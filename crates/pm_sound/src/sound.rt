//! Whether a policy is sound.

ghost use Rattle.std.specs.Prelude.{◌≡◌, ◌↔◌, true, IfOk};
ghost use Rattle.pm_policy.specs.Policy.{standing};
ghost use Rattle.pm_policy.specs.Sound.{AreSound, IsSound};
ghost use Rattle.pm_sound.specs.Groups.{AreFew};
ghost use Rattle.pm_sound.specs.Tells.{Tells};

use crate::errors::{SoundError, need};
use crate::once::check_assigned_once;
use crate::opening::all_elements;
use crate::order::check_ties;
use crate::rights::defined;
use crate::rules::check_rules;
use crate::standing::Standing;
use pm_policy::Policy;
use std::alloc::Global;

// How many of each a state may have, and how many stand from the opening on.
const MAX_ELEMENTS: usize = 16384;

const OPENING_ELEMENTS: usize = 3;

const MAX_ASSIGNMENTS: usize = 131072;

const OPENING_ASSIGNMENTS: usize = 2;

const MAX_ASSOCIATIONS: usize = 65536;

const MAX_PROHIBITIONS: usize = 4096;

fn are_few(policy: &Policy) -> bool
    ensures { (result ≡ true) ↔ AreFew policy.now }
{
    policy.elements.len() <= MAX_ELEMENTS - OPENING_ELEMENTS
        && policy.assignments.len() <= MAX_ASSIGNMENTS - OPENING_ASSIGNMENTS
        && policy.associations.len() <= MAX_ASSOCIATIONS
        && policy.prohibitions.len() <= MAX_PROHIBITIONS
}

/// The rules of elements and assignments, where there are few enough. Ok has the elements that stand.
fn check_elements(alloc: Global, policy: &Policy) -> Result<Standing, SoundError>
    requires { AreFew policy.now }
    ensures list { IfOk result (λ s. s ≡ standing policy.now.elements) }
    ensures rules { Tells result (AreSound policy.now.elements policy.now.assignments) }
{
    let pairs = policy.assignments.as_slice();
    let elements = all_elements(alloc, policy.elements.as_slice())?;
    let standing = Standing::of(alloc, elements.as_slice())?;
    check_assigned_once(alloc, pairs)?;
    check_ties(alloc, &standing, elements.as_slice(), pairs)?;
    Ok(standing)
}

/// Whether the policy is sound: Ok exactly where it keeps each rule, Unsound exactly where it breaks one,
/// unless there was no memory. It takes no more than a few passes over each list, but for the test that there
/// is no cycle.
pub fn check_sound(alloc: Global, policy: &Policy) -> Result<(), SoundError>
    ensures { Tells result (IsSound policy.now) }
{
    need(are_few(policy))?;
    let standing = check_elements(alloc, policy)?;
    let rights = defined(alloc, policy.rights.as_slice())?;
    check_rules(alloc, &standing, &rights, policy)
}
