//! Where a user attribute stands, or would stand, among those by rising number.

ghost use Rattle.std.specs.Prelude.{◌≡◌, length, IfOk, IfErr};
ghost use Rattle.std.specs.List.Sorted.{IsSearchInRange};
ghost use Rattle.pm_assoc.specs.Grantees.{AreGrantees, IsAt, IsGapFor, is_of, passes_at};
ghost use Rattle.pm_assoc.specs.Holders.{TellsBelow};

use crate::holders::Holders;
use pm_model::{ElementId, Grantee};
use pm_pages::PageList;

/// Whether the user attribute stands at a place.
fn stands_at(grantees: &PageList<Grantee>, i: usize, ua: ElementId) -> bool
    ensures { result ≡ passes_at (is_of ua) grantees.now.items i }
{
    match grantees.get(i) {
        Some(grantee) => grantee.ua == ua,
        None => false,
    }
}

/// The place of a user attribute, or the place where it would stand: behind as many as are lower.
pub(crate) fn locate(
    grantees: &PageList<Grantee>,
    holders: &Holders,
    ua: ElementId,
) -> Result<usize, usize>
    requires ordered { AreGrantees 0 grantees.now.items }
    requires lower { TellsBelow ua holders.now grantees.now.items }
    ensures bound { IsSearchInRange result (length grantees.now.items) }
    ensures found { IfOk result (IsAt ua grantees.now.items) }
    ensures absent { IfErr result (IsGapFor ua grantees.now.items) }
{
    let i = holders.place(ua.number());
    if stands_at(grantees, i, ua) {
        Ok(i)
    } else {
        Err(i)
    }
}
