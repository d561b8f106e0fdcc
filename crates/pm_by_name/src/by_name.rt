//! What has names, by the bytes of these.

ghost use Rattle.std.specs.Prelude.{◌≡◌, ◌↔◌, ℕ, ◌<◌, Bool, true, length, map, Contains, IfOk};
ghost use Rattle.std.specs.BTreeMap.{values};
ghost use Rattle.std.specs.List.{range_with_len};
ghost use Rattle.pm_by_name.specs.Keyed.{AreAt, association_in, assignment_key, element_key, ends_key, goes_first, has_key_of, have_one_key, places_by, places_from};
ghost use Rattle.pm_by_name.specs.Rising.{AreRising};
ghost use Rattle.pm_policy.specs.Order.{is_below, leads_before, sorted, stands_before};
ghost use Rattle.pm_policy.specs.Requests.{joins_before};
ghost use Rattle.pm_policy.specs.Sound.{AreOnce, AreOnceAssigned, AreOnceCalled, has_ends};

use pm_model::{Memory, Name};
use pm_policy::{DocAssignment, DocAssociation, DocElement};
use std::alloc::{AllocError, Global};
use std::cmp::Ordering;
use std::collections::BTreeMap;

/// A name by its bytes: one that another begins with stands before it.
#[derive(Clone, Copy, PartialEq, Eq)]
pub struct ByBytes {
    pub name: Name,
}

impl Ord for ByBytes {
    ghost use Rattle.std.proofs.Common.{rules};
    ghost use Rattle.std.specs.Cmp.Rules.{comparing};
    ghost use Rattle.std.specs.Cmp.Lexicographic.{slice_cmp};
    ghost use Rattle.std.specs.Ordering.{nat_cmp, on};

    ghost cmp = { on (λ k. k.name) (slice_cmp nat_cmp) };

    ghost total = { Prim.search (comparing, rules) };

    ghost matches_partial_cmp = { Prim.search (comparing, rules) };

    ghost matches_eq = { Prim.search (comparing, rules) };

    fn cmp(&self, other: &ByBytes) -> Ordering {
        self.name.bytes().cmp(other.name.bytes())
    }
}

impl PartialOrd for ByBytes {
    ghost use Rattle.std.proofs.Common.{rules};
    ghost use Rattle.std.specs.Cmp.{partial_order_from_own_ties};
    ghost use Rattle.std.specs.Cmp.Rules.{comparing};
    ghost use Rattle.std.specs.Cmp.Lexicographic.{slice_cmp};
    ghost use Rattle.std.specs.Ordering.{as_partial_cmp, nat_cmp, on};

    ghost partial_cmp = { as_partial_cmp (on (λ k. k.name) (slice_cmp nat_cmp)) };

    ghost laws = { partial_order_from_own_ties (Prim.search (comparing, rules)) (Prim.search (comparing, rules)) };

    fn partial_cmp(&self, other: &ByBytes) -> Option<Ordering> {
        Some(self.cmp(other))
    }
}

fn is_below(a: &Name, b: &Name) -> bool
    ensures { result ≡ is_below a.now b.now }
{
    match a.bytes().cmp(b.bytes()) {
        Ordering::Less => true,
        Ordering::Equal => false,
        Ordering::Greater => false,
    }
}

/// An item of a list that stands by names.
trait ByName {
    type Key: Ord + Copy + Drop;

    /// Whether the first stands before the second.
    ghost before: { Self → Self → Bool };

    ghost key: { Self → Self.Key };

    fn is_before(&self, other: &Self) -> bool
        ensures { result ≡ before self.now other.now };

    fn key(&self) -> Self::Key
        ensures { result ≡ key self.now };
}

impl ByName for DocElement {
    type Key = ByBytes;

    ghost before = { stands_before };

    ghost key = { element_key };

    fn is_before(&self, other: &DocElement) -> bool {
        is_below(&self.name, &other.name)
    }

    fn key(&self) -> ByBytes {
        ByBytes { name: self.name }
    }
}

impl ByName for DocAssignment {
    type Key = (ByBytes, ByBytes);

    ghost before = { leads_before };

    ghost key = { assignment_key };

    fn is_before(&self, other: &DocAssignment) -> bool {
        match self.from.bytes().cmp(other.from.bytes()) {
            Ordering::Less => true,
            Ordering::Equal => is_below(&self.to, &other.to),
            Ordering::Greater => false,
        }
    }

    fn key(&self) -> (ByBytes, ByBytes) {
        (ByBytes { name: self.from }, ByBytes { name: self.to })
    }
}

impl ByName for DocAssociation {
    type Key = (ByBytes, ByBytes);

    ghost before = { joins_before };

    ghost key = { ends_key };

    fn is_before(&self, other: &DocAssociation) -> bool {
        match self.ua.bytes().cmp(other.ua.bytes()) {
            Ordering::Less => true,
            Ordering::Equal => is_below(&self.at, &other.at),
            Ordering::Greater => false,
        }
    }

    fn key(&self) -> (ByBytes, ByBytes) {
        (ByBytes { name: self.ua }, ByBytes { name: self.at })
    }
}

/// Whether each item stands before the next: what is exported stands so.
fn are_in_order<T: ByName>(items: &[T]) -> bool
    ensures { (result ≡ true) ↔ AreRising T.before items.now }
{
    for k in 1..items.len() {
        if !items[k - 1].is_before(&items[k]) {
            return false;
        }
    }
    true
}

/// Whether each element stands before the next, by name.
pub fn are_elements_in_order(elements: &[DocElement]) -> bool
    ensures { (result ≡ true) ↔ AreRising stands_before elements.now }
{
    are_in_order(elements)
}

/// Whether each assignment stands before the next, by the first and then the second names: then none stands twice.
pub fn are_assignments_in_order(pairs: &[DocAssignment]) -> bool
    ensures { (result ≡ true) ↔ AreRising leads_before pairs.now }
{
    are_in_order(pairs)
}

/// Whether each association stands before the next, by `ua` and then `at`: then none joins the ends of another.
pub fn are_associations_in_order(associations: &[DocAssociation]) -> bool
    ensures { (result ≡ true) ↔ AreRising joins_before associations.now }
{
    are_in_order(associations)
}

fn keyed<K: Ord + Copy + Drop, V: Copy + Drop>(
    alloc: Global,
    entries: &[(K, V)],
) -> Result<BTreeMap<K, V>, Memory>
    requires { AreOnce (has_key_of K.cmp) entries.now }
    ensures { IfOk result (λ m. m.entries ≡ sorted (goes_first K.cmp) entries.now) }
{
    let mut map = BTreeMap::new(alloc);
    let count = entries.len();
    for k in 0..count {
        let entry = entries[count - 1 - k];
        map.insert(entry.0, entry.1)?;
    }
    Ok(map)
}

/// The values, by their keys.
fn values<K: Ord + Drop, V: Drop>(alloc: Global, map: BTreeMap<K, V>) -> Result<Vec<V>, AllocError>
    ensures { IfOk result (λ v. v.items ≡ values map) }
{
    map.into_values().collect(alloc)
}

/// The values of entries with different keys, by their keys.
pub fn values_by_key<K: Ord + Copy + Drop, V: Copy + Drop>(
    alloc: Global,
    entries: &[(K, V)],
) -> Result<Vec<V>, Memory>
    requires { AreOnce (has_key_of K.cmp) entries.now }
    ensures { IfOk result (λ v. v.items ≡ map (λ e. e.1) (sorted (goes_first K.cmp) entries.now)) }
{
    let map = keyed(alloc, entries)?;
    Ok(values(alloc, map)?)
}

/// The places of items with different keys, under these.
fn keyed_places<T: ByName>(alloc: Global, items: &[T]) -> Result<BTreeMap<T::Key, usize>, Memory>
    requires { AreOnce (have_one_key T.Key.cmp T.key) items.now }
    ensures { IfOk result (λ m. m.entries ≡ sorted (goes_first T.Key.cmp) (places_from T.key 0 items.now)) }
{
    let mut map = BTreeMap::new(alloc);
    let count = items.len();
    for k in 0..count {
        let place = count - 1 - k;
        map.insert(items[place].key(), place)?;
    }
    Ok(map)
}

/// The places of items with different keys, by these: no item is moved.
fn places_by_name<T: ByName>(alloc: Global, items: &[T]) -> Result<Vec<usize>, Memory>
    requires { AreOnce (have_one_key T.Key.cmp T.key) items.now }
    ensures { IfOk result (λ v. v.items ≡ places_by T.Key.cmp T.key items.now) }
{
    let map = keyed_places(alloc, items)?;
    Ok(values(alloc, map)?)
}

fn items_at<T: Copy + Drop>(alloc: Global, items: &[T], places: &[usize]) -> Result<Vec<T>, Memory>
    requires { (k : ℕ) → Contains places.now k → k < length items.now }
    ensures { IfOk result (λ v. AreAt items.now places.now v.items) }
{
    let mut list = Vec::with_capacity(alloc, places.len())?;
    for place in places {
        list.push(items[*place])?;
    }
    Ok(list)
}

/// The places of so many items.
fn all_places(alloc: Global, count: usize) -> Result<Vec<usize>, Memory>
    ensures { IfOk result (λ v. v.items ≡ range_with_len 0 count) }
{
    let mut places = Vec::with_capacity(alloc, count)?;
    for place in 0..count {
        places.push(place)?;
    }
    Ok(places)
}

/// The elements by name.
pub fn elements_by_name(alloc: Global, elements: &[DocElement]) -> Result<Vec<DocElement>, Memory>
    requires { AreOnceCalled elements.now }
    ensures { IfOk result (λ v. v.items ≡ sorted stands_before elements.now) }
{
    if are_in_order(elements) {
        return Ok(Vec::from_slice(alloc, elements)?);
    }
    let places = places_by_name(alloc, elements)?;
    items_at(alloc, elements, places.as_slice())
}

/// The assignments by their first and then their second names.
pub fn assignments_by_name(
    alloc: Global,
    pairs: &[DocAssignment],
) -> Result<Vec<DocAssignment>, Memory>
    requires { AreOnceAssigned pairs.now }
    ensures { IfOk result (λ v. v.items ≡ sorted leads_before pairs.now) }
{
    if are_in_order(pairs) {
        return Ok(Vec::from_slice(alloc, pairs)?);
    }
    let places = places_by_name(alloc, pairs)?;
    items_at(alloc, pairs, places.as_slice())
}

/// The places of associations by `ua` and then `at`.
pub fn associations_by_name(
    alloc: Global,
    associations: &[DocAssociation],
) -> Result<Vec<usize>, Memory>
    requires { AreOnce has_ends associations.now }
    ensures order { IfOk result (λ v. map (association_in associations.now) v.items ≡ sorted joins_before associations.now) }
    ensures places { IfOk result (λ v. (k : ℕ) → Contains v.items k → k < length associations.now) }
{
    if are_in_order(associations) {
        return all_places(alloc, associations.len());
    }
    places_by_name(alloc, associations)
}
