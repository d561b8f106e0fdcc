//! The prohibitions of a policy.

ghost use Rattle.std.specs.Prelude.{◌≡◌, ◌∷◌, [], ◌++◌, filter, map, IfOk, OnOk};
ghost use Rattle.pm_model.specs.Formed.{Each, IsLive, IsProhibition, IsSubjectLive};
ghost use Rattle.pm_model.specs.State.{name_numbered};
ghost use Rattle.pm_drawing.specs.Gathered.{is_shown, prohibition_as, subject_shown};
ghost use Rattle.pm_policy.specs.PolicyOf.{policy_prohibition, policy_prohibitions};

use crate::rights::names_of;
use pm_elements::Elements;
use pm_model::{
    Bars, ElementId, ItemList, Memory, Name, NameList, PlaceList, Prohibition, Subject,
};
use pm_policy::DocProhibition;
use pm_state::Graph;
use std::alloc::Global;

/// The names of live elements.
fn names_at(alloc: Global, elements: &Elements, places: &PlaceList) -> Result<NameList, Memory>
    requires { Each (IsLive elements.now.elements) places.now }
    ensures { IfOk result (λ list. list ≡ map (name_numbered elements.now.elements) places.now) }
{
    let mut list = NameList::new(alloc);
    for id in places.as_slice() {
        list.push(elements.name(*id))?;
    }
    Ok(list)
}

/// The subject by name; None where it is a process.
fn subject_of(graph: &Graph, subject: Subject<ElementId, u32>) -> Option<Subject<Name, u32>>
    requires { IsSubjectLive graph.now.elements graph.now.procs subject }
    ensures { result ≡ subject_shown graph.now subject }
{
    match subject {
        Subject::User(id) => Some(Subject::User(graph.elements().name(id))),
        Subject::Ua(id) => Some(Subject::Ua(graph.elements().name(id))),
        Subject::Process(_) => None,
    }
}

/// The prohibition by names, its subject being this.
fn document_of(
    graph: &Graph,
    item: &Prohibition,
    subject: Subject<Name, u32>,
) -> Result<DocProhibition, Memory>
    requires { IsProhibition graph.now.elements graph.now.procs graph.now.rights item.now }
    ensures { IfOk result (λ p. p ≡ prohibition_as graph.now item.now subject) }
{
    graph.formed();
    let alloc = graph.classes().allocator();
    let rights = names_of(alloc, graph.rights(), item.rights)?;
    let inc = names_at(alloc, graph.elements(), &item.inc)?;
    let exc = names_at(alloc, graph.elements(), &item.exc)?;
    Ok(DocProhibition {
        name: item.name,
        subject,
        rights,
        inc,
        exc,
        mode: item.mode,
    })
}

/// Puts the prohibition at the end by names, if it is none on a process.
fn push_prohibition(
    graph: &Graph,
    item: &Prohibition,
    list: &mut ItemList<DocProhibition>,
) -> Result<(), Memory>
    requires { IsProhibition graph.now.elements graph.now.procs graph.now.rights item.now }
    ensures { OnOk result (list.new ≡ list.old ++ map (policy_prohibition graph.now) (filter is_shown (item.now ∷ []))) }
{
    match subject_of(graph, item.subject) {
        Some(subject) => list.push(document_of(graph, item, subject)?),
        None => Ok(()),
    }
}

/// The prohibitions on users and user attributes, in order of creation.
pub(crate) fn prohibitions_of(graph: &Graph) -> Result<ItemList<DocProhibition>, Memory>
    ensures { IfOk result (λ list. list ≡ policy_prohibitions graph.now) }
{
    graph.formed();
    let deny = graph.deny();
    let mut list = ItemList::new(graph.classes().allocator());
    for i in 0..deny.len() {
        push_prohibition(graph, deny.at(i), &mut list)?;
    }
    Ok(list)
}
