//! The associations of a policy.

ghost use Rattle.std.specs.Prelude.{◌≡◌, ◌++◌, filter, map, IfOk, OnOk};
ghost use Rattle.std.specs.List.{list_any};
ghost use Rattle.pm_model.specs.Decision.{associations_of, is_grantee, of_grantee};
ghost use Rattle.pm_model.specs.Formed.{Each, IsLive, NameOnce};
ghost use Rattle.pm_model.specs.State.{name_numbered};
ghost use Rattle.pm_drawing.specs.Gathered.{JoinsLive, association_named, ends_entry, gathered, is_of_attribute};
ghost use Rattle.pm_by_name.specs.Keyed.{by_bytes};
ghost use Rattle.pm_policy.specs.Order.{sorted};
ghost use Rattle.pm_policy.specs.Requests.{joins_before};
ghost use Rattle.pm_policy.specs.Sound.{AreOnce, has_ends};

use crate::rights::names_of;
use pm_assoc::Assoc;
use pm_by_name::{ByBytes, values_by_key};
use pm_elements::Elements;
use pm_model::{Association, ElementId, Grantee, Grants, ItemList, Memory};
use pm_policy::DocAssociation;
use pm_rights::RightNames;
use std::alloc::Global;

/// Whether it is a user attribute that has associations.
fn is_holder(assoc: &Assoc, id: ElementId) -> bool
    ensures { result ≡ list_any (is_grantee id) assoc.now.grantees }
{
    let n = id.number();
    (assoc.holders(n / 64) >> (n % 64)) & 1 == 1
}

/// Puts the associations of a user attribute at the end.
fn push_grants(grantee: &Grantee, list: &mut Vec<Association>) -> Result<(), Memory>
    ensures { OnOk result (list.new.items ≡ list.old.items ++ of_grantee grantee.now) }
{
    for grant in grantee.grants.as_slice() {
        list.push(Association {
            ua: grantee.ua,
            rights: grant.rights,
            at: grant.at,
        })?;
    }
    Ok(())
}

/// Puts the associations of the element at the end, if it has some.
fn push_associations(
    assoc: &Assoc,
    id: ElementId,
    list: &mut Vec<Association>,
) -> Result<(), Memory>
    ensures { OnOk result (list.new.items ≡ list.old.items ++ filter (is_of_attribute id) (associations_of assoc.now.grantees)) }
{
    if is_holder(assoc, id) {
        return push_grants(assoc.grantee(id), list);
    }
    Ok(())
}

/// The associations of the elements of these numbers.
pub(crate) fn all_associations(
    alloc: Global,
    assoc: &Assoc,
    live: &[ElementId],
) -> Result<Vec<Association>, Memory>
    ensures { IfOk result (λ v. v.items ≡ gathered is_of_attribute live.now (associations_of assoc.now.grantees)) }
{
    let mut list = Vec::with_capacity(alloc, assoc.len())?;
    for id in live {
        push_associations(assoc, *id, &mut list)?;
    }
    Ok(list)
}

fn by_bytes(elements: &Elements, id: ElementId) -> ByBytes
    requires { IsLive elements.now.elements id }
    ensures { result ≡ by_bytes (name_numbered elements.now.elements id) }
{
    ByBytes {
        name: elements.name(id),
    }
}

/// The associations with the names of their ends.
fn entries(
    alloc: Global,
    elements: &Elements,
    associations: &[Association],
) -> Result<Vec<((ByBytes, ByBytes), Association)>, Memory>
    requires { Each (JoinsLive elements.now.elements) associations.now }
    ensures { IfOk result (λ v. v.items ≡ map (ends_entry elements.now.elements) associations.now) }
{
    let mut entries = Vec::with_capacity(alloc, associations.len())?;
    for association in associations {
        let ua = by_bytes(elements, association.ua);
        let at = by_bytes(elements, association.at);
        entries.push(((ua, at), *association))?;
    }
    Ok(entries)
}

fn document_of(
    alloc: Global,
    elements: &Elements,
    rights: &RightNames,
    association: Association,
) -> Result<DocAssociation, Memory>
    requires live { JoinsLive elements.now.elements association }
    requires rights { NameOnce rights.now }
    ensures { IfOk result (λ a. a ≡ association_named elements.now.elements rights.now association) }
{
    let rights = names_of(alloc, rights, association.rights)?;
    Ok(DocAssociation {
        ua: elements.name(association.ua),
        rights,
        at: elements.name(association.at),
    })
}

/// The associations as a document has them.
fn documents(
    alloc: Global,
    elements: &Elements,
    rights: &RightNames,
    associations: &[Association],
) -> Result<ItemList<DocAssociation>, Memory>
    requires live { Each (JoinsLive elements.now.elements) associations.now }
    requires rights { NameOnce rights.now }
    ensures { IfOk result (λ list. list ≡ map (association_named elements.now.elements rights.now) associations.now) }
{
    let mut list = ItemList::with_room(alloc, associations.len())?;
    for association in associations {
        list.push(document_of(alloc, elements, rights, *association)?)?;
    }
    Ok(list)
}

/// The associations as a document has them, by `ua` and then `at`.
pub(crate) fn by_ends(
    alloc: Global,
    elements: &Elements,
    rights: &RightNames,
    associations: &[Association],
) -> Result<ItemList<DocAssociation>, Memory>
    requires live { Each (JoinsLive elements.now.elements) associations.now }
    requires rights { NameOnce rights.now }
    requires once { AreOnce has_ends (map (association_named elements.now.elements rights.now) associations.now) }
    ensures { IfOk result (λ list. list ≡ sorted joins_before (map (association_named elements.now.elements rights.now) associations.now)) }
{
    let entries = entries(alloc, elements, associations)?;
    let sorted = values_by_key(alloc, entries.as_slice())?;
    documents(alloc, elements, rights, sorted.as_slice())
}
