//! Elements by their places in a list, found by name.

ghost use Rattle.std.specs.Prelude.{◌≡◌, ◌↔◌, ◌<◌, ◌++◌, ◌∷◌, ℕ, [], true, length, drop, get_or, map, replicate, slice_get, slice_set, Contains, Some, IfOk, OnOk, bytes_eq, if◌then◌else◌};
ghost use Rattle.std.specs.List.{list_any, position_or_len};
ghost use Rattle.pm_order.specs.Ranked.{containers, is_other, AreAdded, AreChildren, AreWithin};
ghost use Rattle.pm_policy.specs.Requests.{others};
ghost use Rattle.pm_policy.specs.Sound.{AreOnce, AreOnceAssigned, AreOnceCalled};
ghost use Rattle.pm_policy.specs.Waiting.{AreKnown};
ghost use Rattle.pm_policy.specs.declared.policy.DocElement.{DocElement};

use crate::lists::PlaceList;
use indexmap::IndexSet;
use pm_model::{Memory, Name};
use pm_policy::{DocAssignment, DocElement};
use std::alloc::Global;
use std::marker::Model;

/// The names of some elements, each with its place from 0 on. Contracts see their list.
struct Places {
    names: IndexSet<Name>,
}

impl Drop for Places {
    fn drop(self) {
        let Places { names: _ } = self;
    }
}

impl Model for Places {
    ghost use Rattle.std.specs.Prelude.{List, ℕ};

    ghost Value = { List (List ℕ) };

    ghost view = { λ p. p.names.keys };
}

impl Places {
    /// The names of the elements, in their order.
    fn new(alloc: Global, elements: &[DocElement]) -> Result<Places, Memory>
        requires { AreOnceCalled elements.now }
        ensures { IfOk result (λ p. p ≡ map (λ (e : DocElement). e.name) elements.now) }
    {
        let mut names = IndexSet::with_capacity(alloc, elements.len())?;
        for element in elements {
            names.insert(element.name)?;
        }
        Ok(Places { names })
    }

    // The place of a name that is among them.
    fn find(&self, name: &Name) -> usize
        requires { list_any (bytes_eq name.now) self.now ≡ true }
        ensures { result ≡ position_or_len (bytes_eq name.now) self.now }
    {
        self.names.get_index_of(name).unwrap()
    }

    fn stands_at(&self, name: &Name, place: usize) -> bool
        ensures { (result ≡ true) ↔ (slice_get self.now place ≡ Some name.now) }
    {
        match self.names.get_index(place) {
            Some(there) => there == name,
            None => false,
        }
    }

    // The same place. It is found faster where it is the likely one, or the next.
    fn find_near(&self, name: &Name, likely: usize) -> usize
        requires known { list_any (bytes_eq name.now) self.now ≡ true }
        requires once { AreOnce bytes_eq self.now }
        ensures { result ≡ position_or_len (bytes_eq name.now) self.now }
    {
        if self.stands_at(name, likely) {
            return likely;
        }
        let next = likely.saturating_add(1);
        if self.stands_at(name, next) {
            return next;
        }
        self.find(name)
    }
}

fn empty_lists(alloc: Global, count: usize) -> Result<Vec<PlaceList>, Memory>
    ensures { IfOk result (λ v. v.items ≡ replicate count []) }
{
    let mut lists = Vec::with_capacity(alloc, count)?;
    for _ in 0..count {
        lists.push(PlaceList::new(alloc))?;
    }
    Ok(lists)
}

fn add(lists: &mut [PlaceList], at: usize, item: usize) -> Result<(), Memory>
    requires { at < length lists.old }
    ensures { OnOk result (lists.new ≡ slice_set lists.old at (get_or lists.old at [] ++ item ∷ [])) }
{
    lists[at].push(item)
}

/// The containers of elements, all by their places from 0 on. Contracts see the list of their lists.
pub struct Containers {
    lists: Vec<PlaceList>,
}

impl Drop for Containers {
    fn drop(self) {
        let Containers { lists: _ } = self;
    }
}

impl Model for Containers {
    ghost use Rattle.std.specs.Prelude.{List, ℕ};

    ghost Value = { List (List ℕ) };

    ghost view = { λ c. c.lists.items };
}

impl Containers {
    /// Of so many elements none has a container.
    pub fn none(alloc: Global, count: usize) -> Result<Containers, Memory>
        ensures { IfOk result (λ c. c ≡ replicate count []) }
    {
        let lists = empty_lists(alloc, count)?;
        Ok(Containers { lists })
    }

    /// Puts one container more behind those of an element.
    pub fn add(&mut self, place: usize, container: usize) -> Result<(), Memory>
        requires { place < length self.old }
        ensures { OnOk result (self.new ≡ slice_set self.old place (get_or self.old place [] ++ container ∷ [])) }
    {
        self.lists[place].push(container)
    }

    /// Those of the element at the place.
    pub fn at(&self, place: usize) -> &[usize]
        requires { place < length self.now }
        ensures { result.now ≡ get_or self.now place [] }
    {
        self.lists[place].as_slice()
    }

    /// The lists of all elements.
    pub(crate) fn lists(&self) -> &[PlaceList]
        ensures { result.now ≡ self.now }
    {
        self.lists.as_slice()
    }
}

/// Whether no element is made with one more assignment of that at a place: the first ones stand already, and others may have a
/// container.
fn is_other(above: &Containers, first: usize, place: usize) -> bool
    requires { place < length above.now }
    ensures { result ≡ is_other first place (get_or above.now place []) }
{
    place < first || above.at(place).len() > 0
}

fn push_if(list: &mut Vec<DocAssignment>, wanted: bool, pair: &DocAssignment) -> Result<(), Memory>
    ensures { OnOk result (list.new.items ≡ list.old.items ++ (if wanted then pair.now ∷ [] else [])) }
{
    if wanted {
        list.push(*pair)?;
    }
    Ok(())
}

/// The containers of each element by assignments, and those of the assignments that none of the elements behind the first ones
/// is made with.
pub(crate) fn links(
    alloc: Global,
    elements: &[DocElement],
    pairs: &[DocAssignment],
    first: usize,
) -> Result<(Containers, Vec<DocAssignment>), Memory>
    requires once { AreOnceCalled elements.now }
    requires known { AreKnown pairs.now elements.now }
    requires assigned { AreOnceAssigned pairs.now }
    ensures containers { IfOk result (λ l. l.0 ≡ containers elements.now pairs.now) }
    ensures others { IfOk result (λ l. l.1.items ≡ others (drop first elements.now) pairs.now) }
{
    let places = Places::new(alloc, elements)?;
    let mut containers = Containers::none(alloc, elements.len())?;
    let mut others = Vec::new(alloc);
    let mut from = 0;
    for pair in pairs {
        from = places.find_near(&pair.from, from);
        let to = places.find(&pair.to);
        push_if(&mut others, is_other(&containers, first, from), pair)?;
        containers.add(from, to)?;
    }
    Ok((containers, others))
}

/// Adds an item to the list of each of these places.
fn add_to_each(lists: &mut [PlaceList], places: &[usize], item: usize) -> Result<(), Memory>
    requires { (k : ℕ) → Contains places.now k → k < length lists.old }
    ensures { OnOk result (AreAdded item places.now lists.old lists.new) }
{
    for place in places {
        add(lists, *place, item)?;
    }
    Ok(())
}

/// The elements that each is a container of, by their places.
pub(crate) fn children(alloc: Global, containers: &[PlaceList]) -> Result<Vec<PlaceList>, Memory>
    requires { AreWithin containers.now }
    ensures count { IfOk result (λ v. length v.items ≡ length containers.now) }
    ensures children { IfOk result (λ v. AreChildren v.items containers.now) }
{
    let mut children = empty_lists(alloc, containers.len())?;
    for (place, above) in containers.iter().enumerate() {
        add_to_each(children.as_mut_slice(), above.as_slice(), place)?;
    }
    Ok(children)
}
