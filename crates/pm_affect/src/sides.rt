//! The lists of one kind of review, by what they are of.

ghost use Rattle.std.specs.Prelude.{◌≡◌, ◌<◌, ◌≤◌, ◌==◌, ◌+◌, false, IfOk, OnOk, OnErr, None, insert, length, map};
ghost use Rattle.std.specs.Option.{option_copied};
ghost use Rattle.pm_affect.specs.Lists.{AreListed, IsInOrder, copied, is_among, listing, pairs_of_some, subjects, was_of_some, with_list, without_list};
ghost use Rattle.pm_affect.specs.Puts.{edited, place, put_across, put_all_at, put_at, with_all, with_put};

use crate::items::Item;
use pm_model::{ElementId, Memory, PairList, PlaceList, Rights};

/// How many lists are of lower numbers.
pub(crate) fn place(items: &[Item], subject: ElementId) -> usize
    requires { AreListed items.now }
    ensures value { result ≡ place subject (subjects items.now) }
    ensures bound { result ≤ length items.now }
{
    let mut low = 0;
    let mut high = items.len();
    while low < high {
        let middle = low + (high - low) / 2;
        if items[middle].subject().number() < subject.number() {
            low = middle + 1;
        } else {
            high = middle;
        }
    }
    low
}

/// The same, from a place on that isn't behind it.
pub(crate) fn next_place(items: &[Item], from: usize, subject: ElementId) -> usize
    requires listed { AreListed items.now }
    requires from { from ≤ place subject (subjects items.now) }
    ensures { result ≡ place subject (subjects items.now) }
{
    let mut i = from;
    while i < items.len() && items[i].subject().number() < subject.number() {
        i += 1;
    }
    i
}

/// Whether there is a list of the number, whose place this is.
pub(crate) fn has_at(items: &[Item], i: usize, subject: ElementId) -> bool
    requires listed { AreListed items.now }
    requires place { i ≡ place subject (subjects items.now) }
    ensures { result ≡ is_among (subjects items.now) subject }
{
    i < items.len() && items[i].subject() == subject
}

/// The list of a number, if there is one.
pub(crate) fn list(items: &[Item], subject: ElementId) -> Option<&PairList>
    requires { AreListed items.now }
    ensures { option_copied result ≡ pairs_of_some subject items.now }
{
    let i = place(items, subject);
    if has_at(items, i, subject) {
        return Some(items[i].list());
    }
    None
}

/// Whether the list of a number may differ from what it was when it was last copied, or there is none.
pub(crate) fn is_written(items: &[Item], subject: ElementId) -> bool
    requires { AreListed items.now }
    ensures { result ≡ false → was_of_some subject items.now ≡ pairs_of_some subject items.now }
{
    let i = place(items, subject);
    if has_at(items, i, subject) {
        return items[i].is_written();
    }
    true
}

/// Puts the rights of an element into the list at a place.
pub(crate) fn put_in(
    items: &mut Vec<Item>,
    i: usize,
    element: ElementId,
    rights: Rights,
) -> Result<(), Memory>
    requires listed { AreListed items.old.items }
    requires place { i < length items.old.items }
    ensures ok { OnOk result (items.new.items ≡ edited (with_put element rights) i items.old.items) }
    ensures listed { AreListed items.new.items }
    ensures subjects { subjects items.new.items ≡ subjects items.old.items }
{
    let item = &mut items[i];
    item.put(element, rights)
}

/// Puts the rights of an element into the list of a number, whose place this is, if there is one.
fn put_at(
    items: &mut Vec<Item>,
    i: usize,
    subject: ElementId,
    element: ElementId,
    rights: Rights,
) -> Result<(), Memory>
    requires listed { AreListed items.old.items }
    requires place { i ≡ place subject (subjects items.old.items) }
    ensures ok { OnOk result (items.new.items ≡ map (put_at subject element rights) items.old.items) }
    ensures listed { AreListed items.new.items }
    ensures subjects { subjects items.new.items ≡ subjects items.old.items }
{
    if has_at(items, i, subject) {
        return put_in(items, i, element, rights);
    }
    Ok(())
}

/// Puts each pair of a row into the list at a place.
fn put_all_in(items: &mut Vec<Item>, i: usize, row: &PairList) -> Result<(), Memory>
    requires listed { AreListed items.old.items }
    requires place { i < length items.old.items }
    ensures ok { OnOk result (items.new.items ≡ edited (with_all row.now) i items.old.items) }
    ensures listed { AreListed items.new.items }
    ensures subjects { subjects items.new.items ≡ subjects items.old.items }
{
    let item = &mut items[i];
    item.put_all(row)
}

/// Puts each pair of a row into the list of a number, whose place this is, if there is one.
pub(crate) fn put_all_at(
    items: &mut Vec<Item>,
    i: usize,
    subject: ElementId,
    row: &PairList,
) -> Result<(), Memory>
    requires listed { AreListed items.old.items }
    requires place { i ≡ place subject (subjects items.old.items) }
    ensures ok { OnOk result (items.new.items ≡ map (put_all_at subject row.now) items.old.items) }
    ensures listed { AreListed items.new.items }
    ensures subjects { subjects items.new.items ≡ subjects items.old.items }
{
    if has_at(items, i, subject) {
        return put_all_in(items, i, row);
    }
    Ok(())
}

/// Puts the rights that a user has on each element of a row into the list of that element, if there is one.
pub(crate) fn put_across(
    items: &mut Vec<Item>,
    user: ElementId,
    row: &PairList,
) -> Result<(), Memory>
    requires { AreListed items.old.items }
    ensures ok { OnOk result (items.new.items ≡ put_across user row.now items.old.items) }
    ensures listed { AreListed items.new.items }
{
    for n in 0..row.len() {
        let pair = *row.at(n);
        let i = place(items, pair.element);
        put_at(items, i, pair.element, user, pair.rights)?;
    }
    Ok(())
}

/// Takes an element out of each list.
pub(crate) fn take_out(items: &mut Vec<Item>, element: ElementId) -> Result<(), Memory>
    requires { AreListed items.old.items }
    ensures ok { OnOk result (items.new.items ≡ map (with_put element 0) items.old.items) }
    ensures listed { AreListed items.new.items }
{
    for i in 0..items.len() {
        put_in(items, i, element, Rights(0))?;
    }
    Ok(())
}

/// Puts an item at a place. On Memory the list is as before.
fn put(items: &mut Vec<Item>, place: usize, item: Item) -> Result<(), Memory>
    requires { place ≤ length items.old.items }
    ensures ok { OnOk result (items.new.items ≡ insert items.old.items place item) }
    ensures err { OnErr result (items.new.items ≡ items.old.items) }
{
    match items.insert(place, item) {
        Ok(()) => Ok(()),
        Err(_) => Err(Memory),
    }
}

/// Puts a list at its place. On Memory all is as before.
pub(crate) fn insert(
    items: &mut Vec<Item>,
    subject: ElementId,
    list: PairList,
) -> Result<(), Memory>
    requires listed { AreListed items.old.items }
    requires order { IsInOrder 0 list }
    requires none { pairs_of_some subject items.old.items ≡ None }
    ensures ok { OnOk result (items.new.items ≡ with_list (listing subject list) items.old.items) }
    ensures err { OnErr result (items.new.items ≡ items.old.items) }
    ensures listed { AreListed items.new.items }
{
    let i = place(items, subject);
    let item = Item::new(subject, list)?;
    put(items, i, item)
}

/// Takes the list of a number out, where there is one.
pub(crate) fn remove(items: &mut Vec<Item>, subject: ElementId)
    requires { AreListed items.old.items }
    ensures rest { items.new.items ≡ without_list subject items.old.items }
    ensures listed { AreListed items.new.items }
{
    items.retain(|item| item.subject() != subject);
}

/// What the lists are of, by rising number.
pub(crate) fn all_subjects(items: &Vec<Item>) -> Result<PlaceList, Memory>
    ensures { IfOk result (λ all. all ≡ subjects items.now.items) }
{
    let mut all = PlaceList::new(*items.allocator());
    for item in items {
        all.push(item.subject())?;
    }
    Ok(all)
}

/// The same lists once more, each of which costs two pointers.
pub(crate) fn copy_all(items: &Vec<Item>) -> Result<Vec<Item>, Memory>
    ensures { IfOk result (λ copies. copies.items ≡ map copied items.now.items) }
{
    let mut copies = Vec::with_capacity(*items.allocator(), items.len())?;
    for item in items {
        let copy = item.copy()?;
        copies.push(copy)?;
    }
    Ok(copies)
}
