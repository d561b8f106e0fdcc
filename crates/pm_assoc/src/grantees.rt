//! The user attributes that have associations, by rising number: what is asked of them, and how one
//! association comes or goes.

ghost use Rattle.std.specs.Prelude.{◌≡◌, ◌≢◌, ℕ, ◌+◌, ◌<◌, ◌≤◌, ◌==◌, ◌||◌, [], ◌∷◌, true, length, insert, filter, not, IfOk, IsOk, OnOk, OnErr};
ghost use Rattle.std.specs.List.{list_any};
ghost use Rattle.pm_model.specs.Effect.{joins, joined};
ghost use Rattle.pm_model.specs.Decision.{associations_of, is_grantee};
ghost use Rattle.pm_pages.specs.Paged.{IsOwn};
ghost use Rattle.pm_assoc.specs.Holders.{holds, TellsBelow, TellsHolders};
ghost use Rattle.pm_model.specs.Grants.{is_on, grants_off};
ghost use Rattle.pm_assoc.specs.Grantees.{AreGrantees, grantee, association, mentions, edited, with_grant, without_grant, without_empty};

use crate::holders::Holders;
use crate::search::locate;
use pm_model::{ElementId, Grant, GrantList, Grantee, Memory};
use pm_pages::PageList;
use std::alloc::Global;

/// Whether one of the grants is on the element.
fn is_given(grants: &GrantList, at: ElementId) -> bool
    ensures { result ≡ list_any (is_on at) grants.now }
{
    grants.as_slice().iter().any(|grant| grant.at == at)
}

/// Whether the user attribute has an association on the element.
pub(crate) fn has(
    grantees: &PageList<Grantee>,
    holders: &Holders,
    ua: ElementId,
    at: ElementId,
) -> bool
    requires ordered { AreGrantees 0 grantees.now.items }
    requires lower { TellsBelow ua holders.now grantees.now.items }
    ensures { result ≡ list_any (joins ua at) (associations_of grantees.now.items) }
{
    match locate(grantees, holders, ua) {
        Ok(i) => is_given(&grantees.at(i).grants, at),
        Err(_) => false,
    }
}

/// Whether the user attribute has associations.
pub(crate) fn is_holder(grantees: &PageList<Grantee>, holders: &Holders, ua: ElementId) -> bool
    requires ordered { AreGrantees 0 grantees.now.items }
    requires lower { TellsBelow ua holders.now grantees.now.items }
    ensures { result ≡ holds grantees.now.items ua }
{
    match locate(grantees, holders, ua) {
        Ok(_) => true,
        Err(_) => false,
    }
}

/// A user attribute that has associations, with these: no search, whatever their number.
pub(crate) fn grantee_of<'a>(
    grantees: &'a PageList<Grantee>,
    holders: &Holders,
    ua: ElementId,
) -> &'a Grantee
    requires ordered { AreGrantees 0 grantees.now.items }
    requires told { TellsHolders holders.now grantees.now.items }
    requires there { holds grantees.now.items ua ≡ true }
    ensures { filter (is_grantee ua) grantees.now.items ≡ result.now ∷ [] }
{
    grantees.at(holders.place(ua.number()))
}

/// Whether the element is the user attribute, or one of its associations is on it.
fn is_mentioned(grantee: &Grantee, id: ElementId) -> bool
    ensures { result ≡ mentions id grantee.now }
{
    grantee.ua == id || is_given(&grantee.grants, id)
}

/// Whether one of the user attributes of a page is the element, or has an association on it.
fn is_named_among(grantees: &[Grantee], id: ElementId) -> bool
    ensures { result ≡ list_any (mentions id) grantees.now }
{
    grantees.iter().any(|grantee| is_mentioned(grantee, id))
}

/// Whether one of the user attributes is the element, or has an association on it.
pub(crate) fn is_named(grantees: &PageList<Grantee>, id: ElementId) -> bool
    ensures { result ≡ list_any (mentions id) grantees.now.items }
{
    let mut begin = 0;
    while begin < grantees.len() {
        let run = grantees.run(begin);
        if is_named_among(run, id) {
            return true;
        }
        begin += run.len();
    }
    false
}

/// Puts an association behind the others of the user attribute.
fn push_grant(grantee: &mut Grantee, grant: Grant) -> Result<(), Memory>
    ensures ok { OnOk result (grantee.new ≡ with_grant grant grantee.old) }
    ensures err { OnErr result (grantee.new ≡ grantee.old) }
{
    grantee.grants.push(grant)
}

/// Puts an association behind those of the user attribute at a place.
fn add_grant(grantees: &mut PageList<Grantee>, i: usize, grant: Grant) -> Result<(), Memory>
    requires { i < length grantees.old.items }
    ensures ok { OnOk result (grantees.new.items ≡ edited (with_grant grant) i grantees.old.items) }
    ensures alone { grantees.new.alone ≡ grantees.old.alone }
    ensures err { OnErr result (grantees.new.items ≡ grantees.old.items) }
{
    grantees.own_at(i)?;
    push_grant(grantees.edit(i), grant)
}

/// A user attribute with one association.
fn first_grant(alloc: Global, ua: ElementId, grant: Grant) -> Result<Grantee, Memory>
    ensures { IfOk result (λ g. g ≡ grantee ua (grant ∷ [])) }
{
    let mut grants = GrantList::new(alloc);
    grants.push(grant)?;
    Ok(Grantee { ua, grants })
}

/// Puts a user attribute with one association at a place.
fn add_grantee(
    grantees: &mut PageList<Grantee>,
    i: usize,
    ua: ElementId,
    grant: Grant,
) -> Result<(), Memory>
    requires { i ≤ length grantees.old.items }
    ensures ok { OnOk result (grantees.new.items ≡ insert grantees.old.items i (grantee ua (grant ∷ []))) }
    ensures alone { grantees.new.alone ≡ grantees.old.alone }
    ensures err { OnErr result (grantees.new.items ≡ grantees.old.items) }
{
    let first = first_grant(grantees.allocator(), ua, grant)?;
    grantees.insert(i, first)
}

/// Puts an association behind the others of its user attribute.
pub(crate) fn add(
    grantees: &mut PageList<Grantee>,
    holders: &Holders,
    ua: ElementId,
    grant: Grant,
) -> Result<(), Memory>
    requires ordered { AreGrantees 0 grantees.old.items }
    requires lower { TellsBelow ua holders.now grantees.old.items }
    ensures ok { OnOk result (associations_of grantees.new.items ≡ joined (association ua grant) (associations_of grantees.old.items)) }
    ensures ordered { OnOk result (AreGrantees 0 grantees.new.items) }
    ensures holders { OnOk result ((n : ℕ) → holds grantees.new.items n ≡ (n == ua || holds grantees.old.items n)) }
    ensures alone { grantees.new.alone ≡ grantees.old.alone }
    ensures err { OnErr result (grantees.new.items ≡ grantees.old.items) }
{
    match locate(grantees, holders, ua) {
        Ok(i) => add_grant(grantees, i, grant),
        Err(i) => add_grantee(grantees, i, ua, grant),
    }
}

/// Takes the grants on the element out of the list, and says how many there were.
fn take_out(grants: &mut GrantList, at: ElementId) -> usize
    ensures grants { grants.new ≡ grants_off at grants.old }
    ensures count { length grants.new + result ≡ length grants.old }
{
    let before = grants.len();
    grants.take_off(at);
    before - grants.len()
}

/// Takes the associations on the element from those of the user attribute, and says how many there
/// were.
fn drop_grants(grantee: &mut Grantee, at: ElementId) -> usize
    ensures rest { grantee.new ≡ without_grant at grantee.old }
    ensures count { length (grants_off at grantee.old.grants) + result ≡ length grantee.old.grants }
{
    take_out(&mut grantee.grants, at)
}

/// Whether the user attribute has no association.
fn is_bare(grantee: &Grantee) -> bool
    ensures { result ≡ (length grantee.now.grants == 0) }
{
    grantee.grants.len() == 0
}

/// Takes the user attribute at a place away if it has no association left.
fn drop_empty(grantees: &mut PageList<Grantee>, i: usize)
    requires there { i < length grantees.old.items }
    requires own { IsOwn grantees.old i }
    ensures items { grantees.new.items ≡ without_empty i grantees.old.items }
    ensures alone { grantees.new.alone ≡ grantees.old.alone }
{
    if is_bare(grantees.at(i)) {
        let _empty = grantees.remove(i);
    }
}

/// Takes the associations on the element from those of the user attribute at a place, which goes with
/// its last. Says how many there were.
fn remove_at(grantees: &mut PageList<Grantee>, i: usize, at: ElementId) -> Result<usize, Memory>
    requires { i < length grantees.old.items }
    ensures items { OnOk result (grantees.new.items ≡ without_empty i (edited (without_grant at) i grantees.old.items)) }
    ensures count { IfOk result (λ gone. length (associations_of grantees.new.items) + gone ≡ length (associations_of grantees.old.items)) }
    ensures alone { grantees.new.alone ≡ grantees.old.alone }
    ensures sure { grantees.old.alone ≡ true → IsOk result }
    ensures err { OnErr result (grantees.new.items ≡ grantees.old.items) }
{
    grantees.own_at(i)?;
    let gone = drop_grants(grantees.edit(i), at);
    drop_empty(grantees, i);
    Ok(gone)
}

/// Takes the associations of the user attribute on the element away, and says how many there were.
pub(crate) fn remove(
    grantees: &mut PageList<Grantee>,
    holders: &Holders,
    ua: ElementId,
    at: ElementId,
) -> Result<usize, Memory>
    requires ordered { AreGrantees 0 grantees.old.items }
    requires lower { TellsBelow ua holders.now grantees.old.items }
    ensures gone { OnOk result (associations_of grantees.new.items ≡ filter (λ a. not (joins ua at a)) (associations_of grantees.old.items)) }
    ensures ordered { OnOk result (AreGrantees 0 grantees.new.items) }
    ensures fewer { OnOk result (holds grantees.new.items ua ≡ true → holds grantees.old.items ua ≡ true) }
    ensures others { OnOk result ((n : ℕ) → n ≢ ua → holds grantees.new.items n ≡ holds grantees.old.items n) }
    ensures count { IfOk result (λ gone. length (associations_of grantees.new.items) + gone ≡ length (associations_of grantees.old.items)) }
    ensures alone { grantees.new.alone ≡ grantees.old.alone }
    ensures sure { grantees.old.alone ≡ true → IsOk result }
    ensures err { OnErr result (grantees.new.items ≡ grantees.old.items) }
{
    match locate(grantees, holders, ua) {
        Ok(i) => remove_at(grantees, i, at),
        Err(_) => Ok(0),
    }
}
