//! The lines of items, one after another.

ghost use Rattle.std.specs.Prelude.{◌≡◌, ℕ, ◌<◌, ◌++◌, length, map, take, Contains, None, OnOk, OnErr};
ghost use Rattle.pm_making.specs.Lines.{lines_of};
ghost use Rattle.pm_by_name.specs.Keyed.{association_in};
ghost use Rattle.pm_policy.specs.Requests.{asked, associate};
ghost use Rattle.pm_print.specs.Requested.{request_text};

use crate::requests::Item;
use pm_model::Memory;
use pm_policy::DocAssociation;
use pm_print::print_request;

// Writes the line of the item. What stood stands in any case.
fn write<T: Item>(item: &T, out: &mut Vec<u8>) -> Result<(), Memory>
    ensures ok { OnOk result (out.new.items ≡ out.old.items ++ request_text None (asked (T.made_by item.now))) }
    ensures front { take (length out.old.items) out.new.items ≡ out.old.items }
{
    let request = item.request()?;
    print_request(None, &request, out)
}

/// Writes the lines of the items. What stood stands in any case.
pub(crate) fn write_all<T: Item>(items: &[T], out: &mut Vec<u8>) -> Result<(), Memory>
    ensures ok { OnOk result (out.new.items ≡ out.old.items ++ lines_of (map T.made_by items.now)) }
    ensures front { take (length out.old.items) out.new.items ≡ out.old.items }
{
    for item in items {
        write(item, out)?;
    }
    Ok(())
}

fn association_at(associations: &[DocAssociation], place: usize) -> &DocAssociation
    requires { place < length associations.now }
    ensures { result.now ≡ association_in associations.now place }
{
    &associations[place]
}

/// Writes the lines of the associations at these places. What stood stands in any case.
pub(crate) fn write_associations(
    associations: &[DocAssociation],
    places: &[usize],
    out: &mut Vec<u8>,
) -> Result<(), Memory>
    requires { (k : ℕ) → Contains places.now k → k < length associations.now }
    ensures ok { OnOk result (out.new.items ≡ out.old.items ++ lines_of (map (λ k. associate (association_in associations.now k)) places.now)) }
    ensures front { take (length out.old.items) out.new.items ≡ out.old.items }
{
    for place in places {
        write(association_at(associations, *place), out)?;
    }
    Ok(())
}

/// Takes back what a write that failed has left behind the first bytes.
pub(crate) fn whole_or_none(
    out: &mut Vec<u8>,
    before: usize,
    written: Result<(), Memory>,
) -> Result<(), Memory>
    ensures same { result ≡ written }
    ensures ok { OnOk result (out.new.items ≡ out.old.items) }
    ensures err { OnErr result (out.new.items ≡ take before out.old.items) }
{
    if written.is_err() {
        out.truncate(before);
    }
    written
}
