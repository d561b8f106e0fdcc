//! The lines of a document.

ghost use Rattle.std.specs.Prelude.{◌≡◌, ◌++◌, length, map, take, OnOk, OnErr, IfOk};
ghost use Rattle.pm_making.specs.Lines.{document_lines, ArePartsOf};
ghost use Rattle.pm_order.specs.Ranked.{turn};
ghost use Rattle.pm_policy.specs.Order.{leads_before, order, sorted};
ghost use Rattle.pm_policy.specs.Requests.{others};
ghost use Rattle.pm_policy.specs.Sound.{AreSound, IsSound};

use crate::writing::{whole_or_none, write_all, write_associations};
use pm_by_name::{are_assignments_in_order, assignments_by_name, associations_by_name};
use pm_model::Memory;
use pm_order::{Making, order};
use pm_policy::{DocAssignment, DocElement, Policy};
use std::alloc::Global;

/// The parts of a document that stand in another order in it.
struct Parts {
    making: Making,
    associations: Vec<usize>,
}

impl Drop for Parts {
    fn drop(self) {
        let Parts {
            making: _,
            associations: _,
        } = self;
    }
}

/// How the elements and assignments are made, the latter by name. Those that stand so are not copied.
fn make(alloc: Global, elements: &[DocElement], pairs: &[DocAssignment]) -> Result<Making, Memory>
    requires { AreSound elements.now pairs.now }
    ensures turns { IfOk result (λ m. m.turns.items ≡ map (turn (sorted leads_before pairs.now)) (order (sorted leads_before pairs.now) elements.now)) }
    ensures others { IfOk result (λ m. m.others.items ≡ others elements.now (sorted leads_before pairs.now)) }
{
    if are_assignments_in_order(pairs) {
        return order(alloc, elements, pairs);
    }
    let by_name = assignments_by_name(alloc, pairs)?;
    order(alloc, elements, by_name.as_slice())
}

fn arrange(alloc: Global, policy: &Policy) -> Result<Parts, Memory>
    requires { IsSound policy.now }
    ensures { IfOk result (ArePartsOf policy.now) }
{
    let pairs = policy.assignments.as_slice();
    let making = make(alloc, policy.elements.as_slice(), pairs)?;
    let associations = associations_by_name(alloc, policy.associations.as_slice())?;
    Ok(Parts {
        making,
        associations,
    })
}

// Writes the lines of a document. What stood stands in any case.
fn write_parts(policy: &Policy, parts: &Parts, out: &mut Vec<u8>) -> Result<(), Memory>
    requires { ArePartsOf policy.now parts.now }
    ensures ok { OnOk result (out.new.items ≡ out.old.items ++ document_lines policy.now) }
    ensures front { take (length out.old.items) out.new.items ≡ out.old.items }
{
    write_all(policy.rights.as_slice(), out)?;
    write_all(parts.making.turns.as_slice(), out)?;
    write_all(parts.making.others.as_slice(), out)?;
    write_associations(
        policy.associations.as_slice(),
        parts.associations.as_slice(),
        out,
    )?;
    write_all(policy.prohibitions.as_slice(), out)
}

/// Appends the lines that make a sound document in the opening state, each with its line feed: the rights, the elements, the
/// other assignments, the associations and the prohibitions. On Memory `out` is as before.
pub fn request_lines(policy: &Policy, out: &mut Vec<u8>) -> Result<(), Memory>
    requires { IsSound policy.now }
    ensures ok { OnOk result (out.new.items ≡ out.old.items ++ document_lines policy.now) }
    ensures err { OnErr result (out.new.items ≡ out.old.items) }
{
    let parts = arrange(*out.allocator(), policy)?;
    let before = out.len();
    let written = write_parts(policy, &parts, out);
    whole_or_none(out, before, written)
}
